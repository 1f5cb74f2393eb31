//! What the operator is told of a settings file: why it is refused, and which of its keys are not known.
ghost use Rattle.std.specs.Prelude.{◌≡◌};

use jb_base::OutOfMemory;
use jb_conf::{ConfError, Text, explanation};
use jb_host::Host;
use std::alloc::Global;

/// Tells what was found in the file at this path; without memory for that, this alone.
fn tell<H: Host>(
    alloc: Global,
    host: &mut H,
    path: &str,
    found: Result<String, OutOfMemory>,
    alone: &str,
)
    ensures { H.desk host.new ≡ H.desk host.old }
{
    let Ok(found) = found else {
        return host.note(alone);
    };
    match line(alloc, path, found.as_str()) {
        Ok(line) => host.note(line.as_str()),
        Err(_) => host.note(alone),
    }
}

fn line(alloc: Global, path: &str, found: &str) -> Result<String, OutOfMemory> {
    let line = format!(in alloc; "board: {path}: {found}")?;
    Ok(line)
}

/// What is said of a key that is not known: in quotes where it would not stand in one line as it is.
fn unknown_key(alloc: Global, name: &str) -> Result<String, OutOfMemory> {
    let line = if name.chars().any(|it| it.is_control()) {
        format!(in alloc; "{name:?} is not known")?
    } else {
        format!(in alloc; "{name} is not known")?
    };
    Ok(line)
}

/// Tells each key of the file at this path that is not known.
pub(crate) fn tell_unknown<H: Host>(alloc: Global, host: &mut H, path: &str, names: &[Text])
    ensures { H.desk host.new ≡ H.desk host.old }
{
    for name in names {
        let found = unknown_key(alloc, name.as_str());
        tell(
            alloc,
            host,
            path,
            found,
            "a key of the settings is not known",
        );
    }
}

fn no_target(alloc: Global, place: u32) -> Result<String, OutOfMemory> {
    let line = format!(in alloc;
        "area.{place}.base is the same as one before it, or its folder is that of the backups"
    )?;
    Ok(line)
}

/// Tells that the area at this place of the file at this path, counted from 1, has no target in the folder for backups.
pub(crate) fn tell_untargeted<H: Host>(alloc: Global, host: &mut H, path: &str, place: u32)
    ensures { H.desk host.new ≡ H.desk host.old }
{
    let found = no_target(alloc, place);
    tell(
        alloc,
        host,
        path,
        found,
        "an area has no target in the folder for backups",
    );
}

/// Tells why the file at this path, with these bytes, is refused. Want of memory is told with the end of the run.
pub(crate) fn tell_refusal<H: Host>(
    alloc: Global,
    host: &mut H,
    path: &str,
    bytes: &[u8],
    error: ConfError,
)
    ensures { H.desk host.new ≡ H.desk host.old }
{
    if error == ConfError::OutOfMemory {
        return;
    }
    let found = explanation(alloc, bytes, error);
    tell(alloc, host, path, found, "the settings are refused");
}
