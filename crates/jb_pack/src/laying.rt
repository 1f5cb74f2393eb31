//! Pieces of a file that is written anew, one behind another from its beginning on.
ghost use Rattle.std.specs.Prelude.{◌≡◌, ◌+◌, ◌<◌, ◌^◌, OnOk, length};
ghost use Rattle.jb_redo.specs.Changes.{KeepsRoom};
ghost use Rattle.jb_disk.specs.Files.{file_number};
ghost use Rattle.jb_pack.specs.Laid.{Lays, laid};

use jb_base::OutOfMemory;
use jb_disk::{FileId, Redo};

/// Puts a piece of these bytes behind those that the redo writes into the file, and answers how many pieces there are then.
/// It makes room for the piece where there is none.
pub(crate) fn put(redo: &mut Redo, file: FileId, at: u32, bytes: &[u8]) -> Result<u32, OutOfMemory>
    requires base { file_number file < 4 }
    requires place { at ≡ length (laid redo.old.pieces file) }
    requires short { length bytes.now < 2 ^ 32 }
    ensures lays { OnOk result (Lays file 1 bytes.now redo.old redo.new) }
    ensures kept { KeepsRoom redo.old redo.new }
{
    redo.reserve(0, 1, bytes.len() as u64)?;
    redo.put_bytes(file, at as u64, bytes);
    Ok(redo.pieces())
}
