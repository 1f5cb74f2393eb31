//! The text of a message.
ghost use Rattle.std.specs.Prelude.{◌≡◌, length, IfOk};
ghost use Rattle.std.specs.Option.{ForSome};
ghost use Rattle.jb_disk.specs.Device.{OnlyReads, CountsFaults};
ghost use Rattle.jb_disk.specs.declared.file.FileId.TheVariants.{Jdt as texts_file};
ghost use Rattle.jb_state.specs.Sound.{IsTextWithin};
ghost use Rattle.jb_state.specs.State.{text_of};
ghost use Rattle.jb_decide.specs.Errors.{is_area_fault};

use crate::AreaError;
use jb_base::Bytes;
use jb_disk::{Disk, FileId};
use jb_state::LoadedMessage;
use std::alloc::Global;

/// The text of a live message: one device read, and none where it is empty, since the place of an empty text is that of no
/// byte.
pub(crate) fn read_text<D: Disk>(
    alloc: Global,
    disk: &mut D,
    message: &LoadedMessage,
) -> Result<Bytes, AreaError>
    requires within { ForSome (D.device disk.old).contents (λ files.
        IsTextWithin (length (files texts_file)) message.now.text_at message.now.text_len) }
    ensures found { IfOk result (λ text. ForSome (D.device disk.old).contents (λ files.
        text ≡ text_of (files texts_file) message.now)) }
    ensures sized { IfOk result (λ text. length text ≡ message.now.text_len) }
    ensures kept { OnlyReads (D.device disk.old) (D.device disk.new) }
    ensures faults { CountsFaults is_area_fault (D.device disk.old) (D.device disk.new) result }
{
    if message.text_len == 0 {
        return Ok(Bytes::new(alloc));
    }
    let mut bytes = vec![in alloc; 0; message.text_len as usize]?;
    disk.read_at(FileId::Jdt, message.text_at as u64, bytes.as_mut_slice())?;
    Ok(Bytes::from(bytes))
}
