//! What a refusal means, in words for the operator. The console has its line alone; this goes where the host has a place for it.
ghost use Rattle.std.specs.Prelude.{◌≡◌};

use crate::command::{CommandLine, command};
use crate::fault::Fault;
use jb_area_open::OpeningError;
use jb_base::OutOfMemory;
use jb_host::Host;
use jb_image::OpenError;
use jb_run::meaning;
use jb_tool::ToolError;
use std::alloc::Global;

/// What the refusal of a tool means.
fn of_tool(error: ToolError) -> &'static str {
    match error {
        ToolError::Open(error) => meaning(OpeningError::Base(error)),
        ToolError::BadJournal { at } => meaning(OpeningError::BadJournal { at }),
        ToolError::AlreadyThere => "there is a base already: one of its files holds something",
        ToolError::TextFull { .. } => {
            "the texts of its live messages have so many bytes together; 1,073,741,824 are the most"
        }
        ToolError::NotEmpty { .. } => {
            "a file of the backup holds something already, that of this number from 0 for .JHR to 5 for .NDT: name another folder, or take a broken backup away"
        }
    }
}

/// What a refusal means, of whatever it is.
fn of_fault(fault: Fault) -> &'static str {
    match fault {
        Fault::Words => "these words are no command line; the word help alone shows the forms",
        Fault::Settings(_) => "the settings are refused",
        Fault::Area { error, .. } => meaning(error),
        Fault::Tool(error) => of_tool(error),
        Fault::HostFault => "the system refused it",
        Fault::OutOfMemory => "there was no memory",
    }
}

/// The line for the operator where a base is not backed up: of the base where it is not opened, of the backup where something is there
/// already, and of both where it is not known which of them failed.
fn of_backup(
    alloc: Global,
    dir: &str,
    name: &str,
    onto: &str,
    fault: Fault,
) -> Result<String, OutOfMemory> {
    let told = of_fault(fault);
    let line = match fault {
        Fault::Tool(ToolError::NotEmpty { .. }) => {
            format!(in alloc; "board: {onto}/{name}: {told}")?
        }
        Fault::Tool(ToolError::Open(OpenError::StoreFault)) => {
            format!(in alloc; "board: {dir}/{name} or {onto}/{name}: {told}")?
        }
        _ => format!(in alloc; "board: {dir}/{name}: {told}")?,
    };
    Ok(line)
}

/// The line for the operator: of which base or settings file the refusal is, and what it means.
fn explanation(alloc: Global, words: &[String], fault: Fault) -> Result<String, OutOfMemory> {
    let told = of_fault(fault);
    match command(words) {
        Some(CommandLine::Use { dir, name, .. }) => {
            let line = format!(in alloc; "board: {dir}/{name}: {told}")?;
            Ok(line)
        }
        Some(CommandLine::Backup { dir, name, onto }) => of_backup(alloc, dir, name, onto, fault),
        Some(CommandLine::Local { path } | CommandLine::Serve { path, .. }) => {
            let line = format!(in alloc; "board: {path}: {told}")?;
            Ok(line)
        }
        _ => {
            let line = format!(in alloc; "board: {told}")?;
            Ok(line)
        }
    }
}

/// Tells the operator what a refusal means, and of what it is; without memory for that, the meaning alone. Settings and an
/// area were told when they were refused, since what they hold is not known any more; and a host tells why it refuses a base, a
/// settings file or a port, which nobody else knows.
pub(crate) fn explain<H: Host>(alloc: Global, host: &mut H, words: &[String], fault: Fault)
    ensures { H.desk host.new ≡ H.desk host.old }
{
    if let Fault::Settings(_) | Fault::Area { .. } | Fault::HostFault = fault {
        return;
    }
    match explanation(alloc, words, fault) {
        Ok(line) => host.note(line.as_str()),
        Err(_) => host.note(of_fault(fault)),
    }
}
