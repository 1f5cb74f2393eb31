//! How a run that is refused ends: its status and its line on the console.
ghost use Rattle.std.specs.Prelude.{◌≡◌, ◌≤◌, ◌+◌, ◌++◌, [], ◌∷◌, length};
ghost use Rattle.jb_conf.specs.Names.{setting_name};
ghost use Rattle.jb_board.specs.Faults.{area_status, base_line, base_status, fault_of, fault_line, opening_line, settings_line, settings_status, status_of, tool_fault_line, tool_status, value_text};

use arrayvec::ArrayString;
use itoa::Buffer;
use jb_area_open::OpeningError;
use jb_conf::{ConfError, Field};
use jb_image::OpenError;
use jb_run::RunError;
use jb_tool::ToolError;

/// A line of at most 96 bytes; it takes no memory.
pub type Line = ArrayString<96>;

/// Why a run is refused.
#[derive(Clone, Copy, Debug, PartialEq, Eq)]
pub enum Fault {
    /// The words are no command line.
    Words,
    /// The settings are refused.
    Settings(ConfError),
    /// The area at this place of the settings, counted from 1, is refused: by what its files hold, or by a fault of its disk.
    Area { place: u32, error: OpeningError },
    /// The tool is refused: by what the files of its base hold, or by a fault of the disk, or for want of memory.
    Tool(ToolError),
    /// The host or the console failed.
    HostFault,
    /// The allocator gave no memory.
    OutOfMemory,
}

/// The exit status where a base is not opened.
fn base_status(error: OpenError) -> u8
    ensures { result ≡ base_status error }
{
    match error {
        OpenError::StoreFault => 4,
        OpenError::OutOfMemory => 6,
        _ => 3,
    }
}

/// The exit status where a tool is refused.
fn tool_status(error: ToolError) -> u8
    ensures { result ≡ tool_status error }
{
    match error {
        ToolError::Open(error) => base_status(error),
        ToolError::BadJournal { .. }
        | ToolError::AlreadyThere
        | ToolError::TextFull { .. }
        | ToolError::NotEmpty { .. } => 3,
    }
}

/// A line of this name alone.
fn named(name: &str) -> Line
    requires { length name.now ≤ 40 }
    ensures name { result.bytes ≡ name.now }
{
    let mut line = Line::new();
    line.push_str(name);
    line
}

/// The line with a value behind it.
fn and_value(line: Line, value: u32) -> Line
    requires { length line.bytes ≤ 50 }
    ensures value { result.bytes ≡ line.bytes ++ value_text value }
    ensures short { length result.bytes ≤ length line.bytes + 21 }
{
    and_place(line, value as u64)
}

/// The line with a place in a file behind it.
fn and_place(mut line: Line, value: u64) -> Line
    requires { length line.bytes ≤ 50 }
    ensures value { result.bytes ≡ line.bytes ++ value_text value }
    ensures short { length result.bytes ≤ length line.bytes + 21 }
{
    let mut digits = Buffer::new();
    line.push_str(" ");
    line.push_str(digits.format(value));
    line
}

/// The line where a base is not opened, without its end.
fn base_line(error: OpenError) -> Line
    ensures line { result.bytes ≡ base_line error }
    ensures short { length result.bytes ≤ 70 }
{
    match error {
        OpenError::ShortHeader => named("fault 3.1 ShortHeader"),
        OpenError::BadSignature => named("fault 3.2 BadSignature"),
        OpenError::BaseZero => named("fault 3.3 BaseZero"),
        OpenError::IndexLength => named("fault 3.4 IndexLength"),
        OpenError::LastreadLength => named("fault 3.5 LastreadLength"),
        OpenError::TooManySlots => named("fault 3.6 TooManySlots"),
        OpenError::NumberRange => named("fault 3.7 NumberRange"),
        OpenError::HeaderPlace { number } => and_value(named("fault 3.8 HeaderPlace"), number),
        OpenError::HeaderSignature { number } => {
            and_value(named("fault 3.9 HeaderSignature"), number)
        }
        OpenError::HeaderRevision { number } => {
            and_value(named("fault 3.10 HeaderRevision"), number)
        }
        OpenError::Subfields { number, at } => {
            and_value(and_value(named("fault 3.11 Subfields"), number), at)
        }
        OpenError::TextPlace { number } => and_value(named("fault 3.12 TextPlace"), number),
        OpenError::HeadersOverlap { a, b } => {
            and_value(and_value(named("fault 3.13 HeadersOverlap"), a), b)
        }
        OpenError::StoreFault => named("fault 4 StoreFault"),
        OpenError::OutOfMemory => named("fault 6 OutOfMemory"),
    }
}

/// The line where a tool is refused, without its end.
fn tool_line(error: ToolError) -> Line
    ensures line { result.bytes ≡ tool_fault_line error }
    ensures short { length result.bytes ≤ 70 }
{
    match error {
        ToolError::BadJournal { at } => { and_place(named("fault 3.14 BadJournal"), at) }
        ToolError::Open(error) => base_line(error),
        ToolError::AlreadyThere => named("fault 3.17 AlreadyThere"),
        ToolError::TextFull { length } => and_place(named("fault 3.18 TextFull"), length),
        ToolError::NotEmpty { file } => {
            and_value(named("fault 3.19 NotEmpty"), u32::from(file.number()))
        }
    }
}

/// The exit status where an area of the board is not opened.
fn area_status(error: OpeningError) -> u8
    ensures { result ≡ area_status error }
{
    match error {
        OpeningError::BadJournal { .. } => 3,
        OpeningError::Base(error) => base_status(error),
    }
}

/// The line where an area of the board is not opened, without its end.
fn opening_line(error: OpeningError) -> Line
    ensures line { result.bytes ≡ opening_line error }
    ensures short { length result.bytes ≤ 70 }
{
    match error {
        OpeningError::BadJournal { at } => and_place(named("fault 3.14 BadJournal"), at),
        OpeningError::Base(error) => base_line(error),
    }
}

/// The exit status where settings are refused.
fn settings_status(error: ConfError) -> u8
    ensures { result ≡ settings_status error }
{
    match error {
        ConfError::OutOfMemory => 6,
        _ => 2,
    }
}

/// The line with the name of a field behind it.
fn and_field(mut line: Line, field: Field) -> Line
    requires { length line.bytes ≤ 40 }
    ensures field { result.bytes ≡ line.bytes ++ 32 ∷ setting_name field }
    ensures short { length result.bytes ≤ length line.bytes + 33 }
{
    line.push_str(" ");
    line.push_str(field.name().as_str());
    line
}

/// The line where settings are refused, without its end.
fn settings_line(error: ConfError) -> Line
    ensures line { result.bytes ≡ settings_line error }
    ensures short { length result.bytes ≤ 78 }
{
    match error {
        ConfError::NotToml => named("fault 2.1 NotToml"),
        ConfError::Missing { field } => and_field(named("fault 2.2 Missing"), field),
        ConfError::WrongKind { field } => and_field(named("fault 2.3 WrongKind"), field),
        ConfError::OutOfRange { field } => and_field(named("fault 2.4 OutOfRange"), field),
        ConfError::Repeated { field } => and_field(named("fault 2.5 Repeated"), field),
        ConfError::BadDigest { user } => and_value(named("fault 2.6 BadDigest"), user),
        ConfError::OutOfMemory => named("fault 6 OutOfMemory"),
    }
}

impl From<RunError> for Fault {
    ghost from_gives = { λ error fault. fault ≡ fault_of error };

    fn from(error: RunError) -> Fault {
        match error {
            RunError::Settings(error) => Fault::Settings(error),
            RunError::Area { place, error } => Fault::Area { place, error },
            RunError::HostFault => Fault::HostFault,
            RunError::OutOfMemory => Fault::OutOfMemory,
        }
    }
}

impl Fault {
    /// The exit status of the program.
    pub fn status(self) -> u8
        ensures { result ≡ status_of self }
    {
        match self {
            Fault::Words => 1,
            Fault::Settings(error) => settings_status(error),
            Fault::Area { error, .. } => area_status(error),
            Fault::Tool(error) => tool_status(error),
            Fault::HostFault => 5,
            Fault::OutOfMemory => 6,
        }
    }

    /// The line that is printed.
    pub fn line(self) -> Line
        ensures { result.bytes ≡ fault_line self }
    {
        let mut line = match self {
            Fault::Words => named("fault 1 Words"),
            Fault::Settings(error) => settings_line(error),
            Fault::Area { error, .. } => opening_line(error),
            Fault::Tool(error) => tool_line(error),
            Fault::HostFault => named("fault 5 HostFault"),
            Fault::OutOfMemory => named("fault 6 OutOfMemory"),
        };
        line.push_str("\n");
        line
    }
}
