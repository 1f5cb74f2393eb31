//! The tool `check`.
ghost use Rattle.std.specs.Prelude.{◌≡◌, ◌↔◌, ◌++◌, ℕ, List, IfOk, OnOk, true};
ghost use Rattle.jb_disk.specs.Device.{CountsFaults};
ghost use Rattle.jb_limits.specs.declared.limits.TheConstants.{MOST_SLOTS};
ghost use Rattle.jb_state.specs.Links.{IsLinked};
ghost use Rattle.jb_state.specs.Sound.{IsSound};
ghost use Rattle.jb_state.specs.State.{state_of};
ghost use Rattle.jb_tool.specs.Answers.{LooksAt};
ghost use Rattle.jb_tool.specs.Check.{IsCheck, check_lines, count_line, linked_line, recovered_line};
ghost use Rattle.jb_tool.specs.Recovered.{KeepsReplay, is_tool_fault};
ghost use Rattle.jb_tool.specs.declared.tool.Tool.TheVariants.{Check as Checking};

use crate::ToolError;
use crate::counting::{count_empty, count_ids, count_killed, count_live};
use crate::reading::read_base;
use itoa::Buffer;
use jb_base::{Bytes, OutOfMemory};
use jb_disk::Disk;
use jb_journal::Recovered;
use jb_link::{changed, relink_plan};
use jb_state::Loaded;
use std::alloc::Global;

/// Puts a line behind a text: a name, a space and a number.
pub(crate) fn append_count(text: &mut Bytes, name: &[u8], count: u64) -> Result<(), OutOfMemory>
    ensures { OnOk result (text.new ≡ text.old ++ count_line name.now count) }
{
    let mut digits = Buffer::new();
    text.append(name)?;
    text.append(b" ")?;
    text.append(digits.format(count).as_bytes())?;
    text.append(b"\n")?;
    Ok(())
}

/// Puts a line behind a text: whether all links are right.
fn append_linked(text: &mut Bytes, linked: bool) -> Result<(), OutOfMemory>
    ensures { OnOk result (text.new ≡ text.old ++ linked_line linked) }
{
    text.append(if linked { b"linked yes" } else { b"linked no" })?;
    text.append(b"\n")?;
    Ok(())
}

/// Puts the last line behind a text: what recovery found behind the gate.
fn append_recovered(text: &mut Bytes, found: Recovered) -> Result<(), OutOfMemory>
    ensures { OnOk result (text.new ≡ text.old ++ recovered_line found) }
{
    match found {
        Recovered::Closed => text.append(b"recovered closed")?,
        Recovered::Replayed { version, change } => {
            let mut digits = Buffer::new();
            text.append(b"recovered ")?;
            text.append(digits.format(version).as_bytes())?;
            text.append(b" ")?;
            text.append(digits.format(change).as_bytes())?;
        }
    }
    text.append(b"\n")?;
    Ok(())
}

/// Whether each live message has the links that the area gives it.
fn is_linked(alloc: Global, loaded: &Loaded) -> Result<bool, OutOfMemory>
    requires { IsSound MOST_SLOTS loaded.now }
    ensures { IfOk result (λ linked. (texts : List ℕ)
        → (linked ≡ true) ↔ IsLinked (state_of texts loaded.now)) }
{
    let plan = relink_plan(alloc, loaded)?;
    Ok(changed(loaded, plan.as_slice()) == 0)
}

/// The eight lines of an area with so many readable ids, whose links are all right or not, and of which recovery found this: its
/// base number, the next number, how many slots are live, killed and empty, and these three.
fn figures(
    alloc: Global,
    loaded: &Loaded,
    msgids: u64,
    linked: bool,
    found: Recovered,
) -> Result<Bytes, OutOfMemory>
    requires { IsSound MOST_SLOTS loaded.now }
    ensures { IfOk result (λ text. (texts : List ℕ)
        → text ≡ check_lines (state_of texts loaded.now) msgids linked found) }
{
    let slots = loaded.slots.as_slice();
    let base = u64::from(loaded.base);
    let mut text = Bytes::new(alloc);
    append_count(&mut text, b"base", base)?;
    append_count(&mut text, b"next", base + slots.len() as u64)?;
    append_count(&mut text, b"live", count_live(slots))?;
    append_count(&mut text, b"killed", count_killed(slots))?;
    append_count(&mut text, b"empty", count_empty(slots))?;
    append_count(&mut text, b"msgids", msgids)?;
    append_linked(&mut text, linked)?;
    append_recovered(&mut text, found)?;
    Ok(text)
}

/// What a check says of an area, once recovery has found this.
fn checked(alloc: Global, loaded: &Loaded, found: Recovered) -> Result<Bytes, OutOfMemory>
    requires { IsSound MOST_SLOTS loaded.now }
    ensures { IfOk result (λ text. (texts : List ℕ) → IsCheck (state_of texts loaded.now) found text) }
{
    let msgids = count_ids(alloc, loaded.slots.as_slice())?;
    let linked = is_linked(alloc, loaded)?;
    let text = figures(alloc, loaded, msgids, linked, found)?;
    Ok(text)
}

/// What a check says of the base that the disk has, which is recovered first.
fn check_base<D: Disk>(alloc: Global, disk: &mut D) -> Result<Bytes, ToolError>
    ensures answer { LooksAt Checking (D.device disk.old) (D.device disk.new) result }
    ensures crash { KeepsReplay (D.device disk.old) (D.device disk.new) }
    ensures faults { CountsFaults is_tool_fault (D.device disk.old) (D.device disk.new) result }
{
    let base = read_base(alloc, disk)?;
    Ok(checked(alloc, &base.loaded, base.found)?)
}

/// Counts what the base on a disk holds, once the change is done that waits in its journal, and says whether its links are
/// right, and whether a change waited, with the version of the journal and the change's number: eight lines. A closed journal
/// is not written.
pub fn check<D: Disk>(alloc: Global, disk: D) -> (D, Result<Bytes, ToolError>)
    ensures answer { LooksAt Checking (D.device disk) (D.device result.0) result.1 }
    ensures crash { KeepsReplay (D.device disk) (D.device result.0) }
    ensures faults { CountsFaults is_tool_fault (D.device disk) (D.device result.0) result.1 }
{
    let mut disk = disk;
    let answer = check_base(alloc, &mut disk);
    (disk, answer)
}
