//! The tool `backup`.
ghost use Rattle.std.specs.Prelude.{◌≡◌, ◌≤◌, ℕ, List, IfOk, length};
ghost use Rattle.jb_area.specs.Calls.{HasRest};
ghost use Rattle.jb_area_open.specs.Opening.{KeepsOpening};
ghost use Rattle.jb_limits.specs.declared.limits.TheConstants.{MOST_SLOTS};
ghost use Rattle.jb_state.specs.Live.{live_count};
ghost use Rattle.jb_state.specs.State.{state_of};
ghost use Rattle.jb_tool.specs.Backing.{AnswersBackup, backed_line};
ghost use Rattle.jb_tool.specs.BackingArea.{CopiesArea};

use crate::ToolError;
use crate::checking::append_count;
use crate::copying::copy_texts;
use crate::counting::count_live;
use crate::tending::tool_rules;
use jb_area::OpenArea;
use jb_area_open::open_area;
use jb_backup::Copier;
use jb_base::{Bytes, OutOfMemory};
use jb_disk::Disk;
use jb_host::Host;
use jb_image::OpenError;
use jb_state::Loaded;
use std::alloc::Global;

/// What a backup prints of an area.
fn backed_text(alloc: Global, loaded: &Loaded) -> Result<Bytes, OutOfMemory>
    requires { length loaded.now.slots ≤ MOST_SLOTS }
    ensures { IfOk result (λ text. (texts : List ℕ)
        → text ≡ backed_line (live_count (state_of texts loaded.now).slots)) }
{
    let mut text = Bytes::new(alloc);
    append_count(&mut text, b"backed", count_live(loaded.slots.as_slice()))?;
    Ok(text)
}

/// Copies an open area onto the empty disk of its backup, and gives what is printed, for which the memory is taken before.
fn back_area<D: Disk, E: Disk, H: Host>(
    alloc: Global,
    area: &mut OpenArea<D>,
    onto: &mut E,
    host: &mut H,
) -> Result<Bytes, ToolError>
    requires rests { HasRest D.device area.old }
    ensures copies { CopiesArea D.device area.old area.new (E.device onto.old) (E.device onto.new) result }
    ensures told { H.desk host.new ≡ H.desk host.old }
{
    let text = backed_text(alloc, area.loaded())?;
    let end = area.loaded().texts_len;
    let mut copier = Copier::new(alloc)?;
    copier.begin(onto)?;
    copy_texts(area, &mut copier, onto, host, end)?;
    copier.finish(area, onto)?;
    Ok(text)
}

/// Backs the base on a disk up onto another disk, whose six files have to be empty, once the change is done that waits in its journal:
/// there the base stands then as it was opened, with an empty .JNL and no .NDT. Says how many messages are live. The operator is told
/// by notes of the host how far a long one is.
///
/// The other disk is not asked where the base is refused or memory is wanting. It is refused as `NotEmpty` where one of its files
/// holds something, and then is as it was. Where it is stopped after that, by a crash or by a fault of either disk, it opens to the
/// whole area or is refused, for a short header or a bad signature; its files are to be taken away before the next try.
pub fn backup<D: Disk, E: Disk, H: Host>(
    alloc: Global,
    disk: D,
    onto: E,
    host: &mut H,
) -> (D, E, Result<Bytes, ToolError>)
    ensures answer { AnswersBackup (D.device disk) (D.device result.0) (E.device onto)
        (E.device result.1) result.2 }
    ensures crash { KeepsOpening (D.device disk) (D.device result.0) }
    ensures told { H.desk host.new ≡ H.desk host.old }
{
    let Ok(rules) = tool_rules(alloc) else {
        return (disk, onto, Err(ToolError::Open(OpenError::OutOfMemory)));
    };
    match open_area(alloc, disk, rules) {
        Ok(area) => {
            let mut area = area;
            let mut onto = onto;
            let answer = back_area(alloc, &mut area, &mut onto, host);
            (area.close(), onto, answer)
        }
        Err((disk, error)) => (disk, onto, Err(ToolError::from(error))),
    }
}
