//! The reading of the lastread records.
ghost use Rattle.std.specs.Prelude.{◌≡◌, ◌+◌, ◌*◌, ◌%◌, ◌≤◌, IfOk, length};
ghost use Rattle.std.specs.Option.{ForSome};
ghost use Rattle.jb_disk.specs.Device.{OnlyReads, CountsFaults};
ghost use Rattle.jb_disk.specs.declared.file.FileId.TheVariants.{Jlr as lastread_file};
ghost use Rattle.jb_image.specs.Answers.{is_read_fault};
ghost use Rattle.jb_image.specs.Places.{mark_record_at};
ghost use Rattle.jb_image.specs.Reading.{AreMarksIn};
ghost use Rattle.jb_image.specs.Stands.{mark_record};
ghost use Rattle.jb_image.specs.Windows.{IsWindowOn};

use crate::error::ReadError;
use crate::window::Window;
use jb_disk::{Disk, FileId};
use jb_record::{MARK_RECORD_BYTES, decode_mark};
use jb_state::{LoadedMarks, Mark};
use std::alloc::Global;

/// The mark at a place, counted in records, by a window on .JLR.
fn read_mark<D: Disk>(
    disk: &mut D,
    window: &mut Window,
    len: u64,
    k: usize,
) -> Result<Mark, ReadError>
    requires inside { 16 * k + 16 ≤ len }
    requires window { IsWindowOn lastread_file len (D.device disk.old).contents window.old }
    ensures found { IfOk result (λ mark. ForSome (D.device disk.old).contents (λ files.
        mark_record mark ≡ mark_record_at files k)) }
    ensures window { IsWindowOn lastread_file len (D.device disk.new).contents window.new }
    ensures kept { OnlyReads (D.device disk.old) (D.device disk.new) }
    ensures faults { CountsFaults is_read_fault (D.device disk.old) (D.device disk.new) result }
{
    let at = (MARK_RECORD_BYTES * k) as u64;
    window.reach(disk, at, MARK_RECORD_BYTES)?;
    let record = decode_mark(window.view(at, MARK_RECORD_BYTES)).unwrap();
    Ok(Mark {
        user_crc: record.user_crc,
        user_id: record.user_id,
        last: record.last,
        high: record.high,
    })
}

/// The marks of the area, whose file has this length.
pub(crate) fn read_marks<D: Disk>(
    alloc: Global,
    disk: &mut D,
    len: u64,
) -> Result<LoadedMarks, ReadError>
    requires short { len ≤ 1_040_000 }
    requires whole { len % 16 ≡ 0 }
    requires size { ForSome (D.device disk.old).contents (λ files. length (files lastread_file) ≡ len) }
    ensures count { IfOk result (λ marks. len ≡ 16 * length marks) }
    ensures found { IfOk result (λ marks. ForSome (D.device disk.old).contents (λ files.
        AreMarksIn (files lastread_file) marks)) }
    ensures kept { OnlyReads (D.device disk.old) (D.device disk.new) }
    ensures faults { CountsFaults is_read_fault (D.device disk.old) (D.device disk.new) result }
{
    let mut window = Window::new(alloc, FileId::Jlr, len);
    let mut marks = LoadedMarks::new(alloc)?;
    let count = len as usize / MARK_RECORD_BYTES;
    for k in 0..count {
        marks.push(read_mark(disk, &mut window, len, k)?)?;
    }
    Ok(marks)
}
