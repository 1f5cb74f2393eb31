//! What the operator is told of packs and backups.
ghost use Rattle.std.specs.Prelude.{◌≡◌};

use arrayvec::ArrayString;
use jb_backup::BackupError;
use jb_host::Bell;
use jb_model::Reply;
use jb_shared::{Backed, SharedError};
use std::fmt;
use std::fmt::Write;

/// So many bytes a line has at most.
const MOST_TOLD: usize = 96;

/// What the operator is told of an area by the bell.
pub(crate) enum Told<'t> {
    PackBegins,
    /// The pack has ended a doubt.
    Settled,
    Packed(&'t Result<Reply, SharedError>),
    BackupBegins,
    BackedUp(&'t Result<Backed, BackupError>),
}

/// Writes why an area is not backed up, and whether its target is to be emptied before the next try.
fn write_refusal(line: &mut ArrayString<MOST_TOLD>, error: BackupError) -> fmt::Result {
    match error {
        BackupError::SourceFault => line.write_str("source fault: empty the target"),
        BackupError::TargetFault => line.write_str("target fault: empty the target"),
        BackupError::InDoubt => line.write_str("in doubt: empty the target"),
        BackupError::NotEmpty { file } => {
            let number = file.number();
            write!(line, "file {number} of the target is not empty")
        }
        BackupError::OutOfMemory => line.write_str("out of memory"),
    }
}

/// Writes what came of a backup.
fn write_backup(
    line: &mut ArrayString<MOST_TOLD>,
    came: &Result<Backed, BackupError>,
) -> fmt::Result {
    match came {
        Ok(Backed { entries, live }) => {
            write!(line, "backed up, {entries} entries, {live} live")
        }
        Err(error) => {
            line.write_str("not backed up, ")?;
            write_refusal(line, *error)
        }
    }
}

/// Tells the operator this of the area with this number.
pub(crate) fn tell<B: Bell>(bell: &mut B, number: u32, told: Told<'_>)
    ensures { B.rings bell.new ≡ B.rings bell.old }
{
    let mut line = ArrayString::<MOST_TOLD>::new();
    let _ = write!(line, "bell: area {number}: ");
    let _ = match told {
        Told::PackBegins => line.write_str("pack begins"),
        Told::Settled => line.write_str("settled"),
        Told::Packed(Ok(Reply::Packed { live, dropped, .. })) => {
            write!(line, "packed, live {live} dropped {dropped}")
        }
        Told::Packed(Err(SharedError::StoreFault)) => line.write_str("the device failed, in doubt"),
        Told::Packed(_) => line.write_str("not packed"),
        Told::BackupBegins => line.write_str("backup begins"),
        Told::BackedUp(came) => write_backup(&mut line, came),
    };
    bell.note(line.as_str());
}
