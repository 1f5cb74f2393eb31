//! The names of the six files.
ghost use Rattle.std.specs.Prelude.{◌≡◌};

/// A file of an area: headers, texts, index and lastread records (JAM, "Files"), and this board's journal and shadow of
/// the texts.
#[derive(Clone, Copy, Debug, PartialEq, Eq)]
pub enum FileId {
    Jhr,
    Jdt,
    Jdx,
    Jlr,
    Jnl,
    Ndt,
}

impl FileId {
    ghost use Rattle.jb_disk.specs.Files.{file_number};

    /// The number by which the journal names the file, from 0.
    pub fn number(self) -> u8
        ensures { result ≡ file_number self }
    {
        match self {
            FileId::Jhr => 0,
            FileId::Jdt => 1,
            FileId::Jdx => 2,
            FileId::Jlr => 3,
            FileId::Jnl => 4,
            FileId::Ndt => 5,
        }
    }
}
