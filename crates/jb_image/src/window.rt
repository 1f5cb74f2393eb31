//! A window on a file: its bytes, read in large pieces and looked into.
ghost use Rattle.std.specs.Prelude.{◌≡◌, ◌+◌, ◌≤◌, ◌↔◌, IsTrue, OnOk, length, [], vec_len};
ghost use Rattle.std.specs.Option.{ForSome};
ghost use Rattle.jb_disk.specs.Device.{OnlyReads, CountsFaults, is_disk_fault};
ghost use Rattle.jb_image.specs.Answers.{is_read_fault};
ghost use Rattle.jb_image.specs.Places.{bytes_at};
ghost use Rattle.jb_image.specs.Windows.{WindowCovers, IsWindowOn, seen_at};

use crate::error::ReadError;
use jb_disk::{Disk, DiskFailed, FileId};
use std::alloc::Global;

/// The bytes of a window. Only a look that asks for more is given more.
const WINDOW_BYTES: usize = 65_536;

/// A part of a file as it was read, which moves to where it is looked at.
///
/// A look that the window holds reads nothing, so where records stand in rising order each read takes a whole window, and
/// only a record across a border is read twice. For any other order there is [`Window::reach_all`].
#[derive(Drop)]
pub(crate) struct Window {
    file: FileId,
    file_len: u64,
    at: u64,
    bytes: Vec<u8>,
}

/// Bytes of a file, by their place.
#[derive(Clone, Copy)]
struct Range {
    at: u64,
    len: usize,
}

impl Window {
    /// A window on the file of this length, which holds nothing yet. It takes no memory.
    pub(crate) fn new(alloc: Global, file: FileId, file_len: u64) -> Window
        ensures file_is { result.file ≡ file }
        ensures len_is { result.file_len ≡ file_len }
        ensures empty { result.bytes.items ≡ [] }
    {
        Window {
            file,
            file_len,
            at: 0,
            bytes: Vec::new(alloc),
        }
    }

    /// Whether it holds so many bytes from a place on.
    fn holds(&self, at: u64, len: usize) -> bool
        ensures { IsTrue result ↔ WindowCovers at len self.now }
    {
        if at < self.at {
            return false;
        }
        let before = at - self.at;
        let held = self.bytes.len() as u64;
        before <= held && len as u64 <= held - before
    }

    /// The bytes that the next window reads: these are the first of them. Near the end of the file it begins earlier, so that
    /// it is no smaller.
    fn next(&self, at: u64, len: usize) -> Range
        requires { at + len ≤ self.now.file_len }
        ensures from { result.at ≤ at }
        ensures to { at + len ≤ result.at + result.len }
        ensures inside { result.at + result.len ≤ self.now.file_len }
    {
        let file_len = self.file_len;
        let size = len.max(WINDOW_BYTES) as u64;
        if file_len <= size {
            return Range {
                at: 0,
                len: file_len as usize,
            };
        }
        Range {
            at: at.min(file_len - size),
            len: size as usize,
        }
    }

    /// Reads these bytes of the file. After a fault it holds none.
    #[inline(never)]
    fn fill<D: Disk>(&mut self, disk: &mut D, range: Range) -> Result<(), ReadError>
        requires inside { range.at + range.len ≤ self.old.file_len }
        requires on { IsWindowOn self.old.file self.old.file_len (D.device disk.old).contents self.old }
        ensures on { IsWindowOn self.old.file self.old.file_len (D.device disk.new).contents self.new }
        ensures at_is { OnOk result (self.new.at ≡ range.at) }
        ensures len_is { OnOk result (vec_len self.new.bytes ≡ range.len) }
        ensures kept { OnlyReads (D.device disk.old) (D.device disk.new) }
        ensures faults { CountsFaults is_read_fault (D.device disk.old) (D.device disk.new) result }
    {
        self.bytes.resize(range.len, 0)?;
        match read_into(disk, self.file, range.at, &mut self.bytes) {
            Ok(()) => {
                self.at = range.at;
                Ok(())
            }
            Err(DiskFailed) => {
                self.bytes.clear();
                Err(ReadError::StoreFault)
            }
        }
    }

    /// Moves the window, where it must, so that it holds so many bytes of its file from a place on. At most one device read.
    /// It is put into each loop of looks, since nearly each finds what it asks for.
    #[inline(always)]
    pub(crate) fn reach<D: Disk>(
        &mut self,
        disk: &mut D,
        at: u64,
        len: usize,
    ) -> Result<(), ReadError>
        requires inside { at + len ≤ self.old.file_len }
        requires on { IsWindowOn self.old.file self.old.file_len (D.device disk.old).contents self.old }

        // It holds them, as the file has them.
        ensures on { IsWindowOn self.old.file self.old.file_len (D.device disk.new).contents self.new }
        ensures covers { OnOk result (WindowCovers at len self.new) }
        ensures found { OnOk result (ForSome (D.device disk.old).contents (λ files.
            seen_at at len self.new ≡ bytes_at at len (files self.old.file))) }

        // The disk is only read.
        ensures kept { OnlyReads (D.device disk.old) (D.device disk.new) }
        ensures faults { CountsFaults is_read_fault (D.device disk.old) (D.device disk.new) result }
    {
        if !self.holds(at, len) {
            let range = self.next(at, len);
            return self.fill(disk, range);
        }
        Ok(())
    }

    /// Makes it hold its whole file, so that no later look reads. At most one device read.
    pub(crate) fn reach_all<D: Disk>(&mut self, disk: &mut D) -> Result<(), ReadError>
        requires on { IsWindowOn self.old.file self.old.file_len (D.device disk.old).contents self.old }
        ensures on { IsWindowOn self.old.file self.old.file_len (D.device disk.new).contents self.new }
        ensures covers { OnOk result (WindowCovers 0 self.old.file_len self.new) }

        // The disk is only read.
        ensures kept { OnlyReads (D.device disk.old) (D.device disk.new) }
        ensures faults { CountsFaults is_read_fault (D.device disk.old) (D.device disk.new) result }
    {
        let file_len = self.file_len;
        self.reach(disk, 0, file_len as usize)
    }

    /// The bytes from a place on, of those that it holds.
    pub(crate) fn view(&self, at: u64, len: usize) -> &[u8]
        requires { WindowCovers at len self.now }
        ensures value { result.now ≡ seen_at at len self.now }
        ensures size { length result.now ≡ len }
    {
        let from = (at - self.at) as usize;
        &self.bytes[from..from + len]
    }
}

/// Fills the buffer with the bytes of a file from a place on.
fn read_into<D: Disk>(
    disk: &mut D,
    file: FileId,
    at: u64,
    bytes: &mut Vec<u8>,
) -> Result<(), DiskFailed>
    requires { ForSome (D.device disk.old).contents (λ files. at + vec_len bytes.old ≤ length (files file)) }
    ensures size { vec_len bytes.new ≡ vec_len bytes.old }
    ensures found { OnOk result (ForSome (D.device disk.old).contents (λ files.
        bytes.new.items ≡ bytes_at at (vec_len bytes.old) (files file))) }
    ensures kept { OnlyReads (D.device disk.old) (D.device disk.new) }
    ensures faults { CountsFaults is_disk_fault (D.device disk.old) (D.device disk.new) result }
{
    disk.read_at(file, at, bytes.as_mut_slice())
}
