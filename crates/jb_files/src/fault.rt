//! Why the files of a base are not opened.
ghost use Rattle.std.specs.Prelude.{◌≡◌};
ghost use Rattle.jb_files.specs.declared.fault.OpenFault.TheVariants.{OutOfMemory as no_memory};

use jb_bytes::OutOfMemory;

/// Why a base is not opened. None of its files is changed.
#[derive(Clone, Copy, Debug, PartialEq, Eq)]
pub enum OpenFault {
    /// Another program, or another disk of this one, has the base open.
    Busy,
    /// Its header file is there twice: in capitals and in lower case.
    TwoSpellings,
    /// Its journal, or its file of copies, is a symbolic link or has a second name, so that what is written there would be written over
    /// another file.
    Linked,
    /// The allocator gave no memory.
    OutOfMemory,
}

impl From<OutOfMemory> for OpenFault {
    ghost from_gives = { λ _ error. error ≡ no_memory };

    fn from(_: OutOfMemory) -> OpenFault {
        OpenFault::OutOfMemory
    }
}
