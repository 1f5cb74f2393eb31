//! What a refusal of the system is for a host, and what an operator is told of it: a line for a base, a settings file or a port. The
//! line is written elsewhere.
ghost use Rattle.std.specs.Prelude.{◌≡◌, ◌≤◌, ◌↔◌};
ghost use Rattle.std.specs.IoError.{error_kind};
ghost use Rattle.jb_host.specs.Desk.{HasHostCause};

use crate::host::HostError;
use jb_files::OpenFault;
use std::io::ErrorKind;
use std::{fmt, io};

/// The errors of Linux where all open files of the system, or of the process, are in use.
const ENFILE: i32 = 23;

const EMFILE: i32 = 24;

/// What a refusal of the system is for a host, which counts it where not memory was wanting.
pub(crate) fn counted(faults: &mut u64, error: &io::Error) -> HostError
    ensures memory { result ≡ HostError.OutOfMemory ↔ error_kind error.now ≡ ErrorKind.OutOfMemory }
    ensures later { faults.old ≤ faults.new }
    ensures cause { HasHostCause result faults.old faults.new }
{
    if error.kind() == ErrorKind::OutOfMemory {
        return HostError::OutOfMemory;
    }
    *faults = faults.saturating_add(1);
    HostError::Failed
}

/// A text as it is shown on one line: `?` in place of each control character.
#[derive(Clone, Copy)]
struct Shown<'a>(&'a str);

impl<'a> fmt::Display for Shown<'a> {
    fn fmt<W: fmt::Write>(&self, f: &mut fmt::Formatter<W>) -> fmt::Result {
        for c in self.0.chars() {
            f.write_char(if c.is_ascii_control() { '?' } else { c })?;
        }
        Ok(())
    }
}

fn has_no_handle(error: &io::Error) -> bool {
    matches!(error.raw_os_error(), Some(ENFILE | EMFILE))
}

/// Why a base is not opened, and what is to be done. It may be one that this host has handed out under another name. Want of memory is
/// told by who asked, here and below.
#[derive(Clone, Copy)]
pub(crate) struct BaseRefused<'a> {
    pub(crate) dir: &'a str,
    pub(crate) name: &'a str,
    pub(crate) fault: OpenFault,
    pub(crate) has_others: bool,
}

impl<'a> fmt::Display for BaseRefused<'a> {
    fn fmt<W: fmt::Write>(&self, f: &mut fmt::Formatter<W>) -> fmt::Result {
        let (dir, name) = (Shown(self.dir), Shown(self.name));
        match self.fault {
            OpenFault::Busy if self.has_others => write!(
                f,
                "board: {dir}/{name} is in use by another program: stop it, or wait until it is done; or an area before it is the same base"
            ),
            OpenFault::Busy => write!(
                f,
                "board: {dir}/{name} is in use by another program: stop it, or wait until it is done"
            ),
            OpenFault::TwoSpellings => write!(
                f,
                "board: {dir}/{name}.JHR and {dir}/{name}.jhr are both there: one of them has to be moved away"
            ),
            OpenFault::Linked => write!(
                f,
                "board: {dir}/{name}: its .JNL or .NDT is a symbolic link or has a second name, so another file would be written over: move it away"
            ),
            OpenFault::OutOfMemory => Ok(()),
        }
    }
}

/// Why a settings file is not read.
#[derive(Clone, Copy)]
pub(crate) struct SettingsRefused<'a> {
    pub(crate) path: &'a str,
    pub(crate) error: io::Error,
}

impl<'a> fmt::Display for SettingsRefused<'a> {
    fn fmt<W: fmt::Write>(&self, f: &mut fmt::Formatter<W>) -> fmt::Result {
        let path = Shown(self.path);
        let error = self.error;
        match error.kind() {
            ErrorKind::NotFound | ErrorKind::NotADirectory => {
                write!(f, "board: {path}: the settings file is not there")
            }
            ErrorKind::PermissionDenied => {
                write!(f, "board: {path}: not allowed to read the settings file")
            }
            ErrorKind::IsADirectory => write!(f, "board: {path}: a folder, and no settings file"),
            ErrorKind::FileTooLarge => {
                write!(
                    f,
                    "board: {path}: the settings file is longer than 1,048,576 bytes"
                )
            }
            _ if has_no_handle(&error) => {
                write!(f, "board: {path}: no open files are left (ulimit -n)")
            }
            _ => write!(f, "board: {path}: {error}"),
        }
    }
}

/// Why a port is not open.
#[derive(Clone, Copy)]
pub(crate) struct PortRefused {
    pub(crate) port: u16,
    pub(crate) error: io::Error,
}

impl fmt::Display for PortRefused {
    fn fmt<W: fmt::Write>(&self, f: &mut fmt::Formatter<W>) -> fmt::Result {
        let port = self.port;
        let error = self.error;
        match error.kind() {
            ErrorKind::AddrInUse => write!(f, "board: port {port}: in use by another program"),
            ErrorKind::PermissionDenied => {
                write!(
                    f,
                    "board: port {port}: not allowed (ports below 1024 want a privilege)"
                )
            }
            _ if has_no_handle(&error) => {
                write!(f, "board: port {port}: no open files are left (ulimit -n)")
            }
            _ => write!(f, "board: port {port}: {error}"),
        }
    }
}
