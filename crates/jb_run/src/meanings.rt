//! What the refusal of an area means, and what its opening has made good, in words for the operator.
ghost use Rattle.std.specs.Prelude.{◌≡◌};

use jb_area_open::OpeningError;
use jb_base::OutOfMemory;
use jb_conf::BoardArea;
use jb_host::Host;
use jb_image::OpenError;
use std::alloc::Global;

/// What is said of a journal whose change recovery has done.
const DONE: &str = "a change that waited in its journal is done";

/// What the refusal of a base means.
fn of_base(error: OpenError) -> &'static str {
    match error {
        OpenError::ShortHeader => {
            "there is no base here: its header file, .JHR or .jhr, is not there, or has fewer than 1,024 bytes"
        }
        OpenError::BadSignature => "its header file is not that of a JAM base",
        OpenError::BaseZero => "its header file says that the first message has the number 0",
        OpenError::IndexLength => "the length of its index, .JDX, is no multiple of 8",
        OpenError::LastreadLength => {
            "the length of its .JLR, what each user has read, is no multiple of 16, or above 1,040,000"
        }
        OpenError::TooManySlots => "its index, .JDX, has more records than it may have",
        OpenError::NumberRange => "its last message would have a number above 4,294,967,295",
        OpenError::HeaderPlace { .. } => {
            "the header of this message, or what belongs to it, does not lie whole in .JHR"
        }
        OpenError::HeaderSignature { .. } => "where the header of this message should be is none",
        OpenError::HeaderRevision { .. } => {
            "the header of this message is of another revision of the format than 1"
        }
        OpenError::Subfields { .. } => {
            "the subfields of this message are cut off, from this byte of them on"
        }
        OpenError::TextPlace { .. } => {
            "the text of this message does not lie whole in .JDT, or is longer than 1,048,576 bytes"
        }
        OpenError::HeadersOverlap { .. } => "the headers of these two messages share bytes",
        OpenError::StoreFault => {
            "one of its files could not be read, written or synced: look for its folder, rights, room on the disk, and the limit of open files"
        }
        OpenError::OutOfMemory => "there was no memory",
    }
}

/// What the refusal of an area, or of the base of a tool, means.
pub fn meaning(error: OpeningError) -> &'static str {
    match error {
        OpeningError::BadJournal { .. } => {
            "a change waits in its journal, .JNL, and is no whole record from this byte on"
        }
        OpeningError::Base(error) => of_base(error),
    }
}

/// The line of the refusal of the area at this place.
fn line(
    alloc: Global,
    area: &BoardArea,
    place: u32,
    error: OpeningError,
) -> Result<String, OutOfMemory> {
    let (dir, base, told) = (area.dir.as_str(), area.base.as_str(), meaning(error));
    let line = format!(in alloc;
        "board: {dir}/{base}: the base of area {place}, looked for from the folder of this start: {told}"
    )?;
    Ok(line)
}

/// Tells the operator which area is refused, by its folder and its base, and what that means; without memory for that, the meaning
/// alone.
pub(crate) fn tell<H: Host>(
    alloc: Global,
    host: &mut H,
    area: &BoardArea,
    place: u32,
    error: OpeningError,
)
    ensures { H.desk host.new ≡ H.desk host.old }
{
    match line(alloc, area, place, error) {
        Ok(line) => host.note(line.as_str()),
        Err(_) => host.note(meaning(error)),
    }
}

/// Tells the operator of which area, by its folder and its base, a change waited in the journal, which is done now; without memory for
/// that, the words alone.
pub(crate) fn tell_done<H: Host>(alloc: Global, host: &mut H, area: &BoardArea)
    ensures { H.desk host.new ≡ H.desk host.old }
{
    let (dir, base) = (area.dir.as_str(), area.base.as_str());
    match format!(in alloc; "board: {dir}/{base}: {DONE}") {
        Ok(line) => host.note(line.as_str()),
        Err(_) => host.note(DONE),
    }
}
