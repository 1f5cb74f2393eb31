//! A write that the system takes in parts goes on until all is taken.
ghost use Rattle.std.specs.Prelude.{◌≡◌, ◌+◌, ◌<◌, ◌≤◌, ◌^◌, IfOk, OnOk, List, ℕ, Option, None, length, take};
ghost use Rattle.std.specs.Option.{ForSome, option_map};
ghost use Rattle.jb_disk.specs.Files.{overwritten};

use std::fs::File;
use std::io;
use std::os::unix::fs::FileExt;

/// How often a call that a signal interrupted is tried.
pub(crate) const MOST_TRIES: u32 = 64;

/// A file that may take a part of what it is given.
pub(crate) trait TakesParts {
    /// What it holds, where it tells that.
    ghost held: { Self → Option (List ℕ) };

    /// Writes the first of these bytes at a place, and says how many it took.
    fn write_part(&mut self, at: u64, bytes: &[u8]) -> io::Result<usize>
        ensures count { IfOk result (λ count. count ≤ length bytes.now) }
        ensures took { IfOk result (λ count.
            held self.new ≡ option_map (overwritten at (take count bytes.now)) (held self.old)) };
}

/// An open file of the system, which tells nothing.
#[derive(Drop)]
pub(crate) struct OpenFile<'a> {
    pub(crate) file: &'a File,
}

impl TakesParts for OpenFile<'_> {
    ghost held = { λ _. None };

    fn write_part(&mut self, at: u64, bytes: &[u8]) -> io::Result<usize> {
        for _ in 0..MOST_TRIES {
            match self.file.write_at(bytes, at) {
                Err(error) if error.kind() == io::ErrorKind::Interrupted => {}
                answer => return answer,
            }
        }
        Err(io::ErrorKind::Interrupted.into())
    }
}

/// Writes all bytes over what a file holds from a place on. A part that is not begun ends it with an error.
pub(crate) fn write_whole<F: TakesParts>(file: &mut F, at: u64, bytes: &[u8]) -> io::Result<()>
    requires fits { at + length bytes.now < 2 ^ 64 }
    requires within { ForSome (F.held file.old) (λ held. at + length bytes.now ≤ length held) }
    ensures { OnOk result (F.held file.new ≡ option_map (overwritten at bytes.now) (F.held file.old)) }
{
    let mut done = 0;
    while done < bytes.len() {
        match file.write_part(at + done as u64, &bytes[done..])? {
            0 => return Err(io::ErrorKind::WriteZero.into()),
            taken => done += taken,
        }
    }
    Ok(())
}
