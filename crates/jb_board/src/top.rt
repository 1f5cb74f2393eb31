//! The program over any host.
ghost use Rattle.std.specs.Prelude.{◌≡◌, ◌≢◌, ◌≤◌, Err, IfOk, IsSome, Ok, OnErr, Some, map};
ghost use Rattle.std.specs.String.{string_bytes};
ghost use Rattle.jb_board.specs.Run.{AnswersWords, HasRun, IsPrinted, ServesLocal, ServesNodes, UsesBackup, UsesTool, fault_of_host, run_answer};
ghost use Rattle.jb_board.specs.declared.top.Outcome.TheVariants.{Text as is_text};
ghost use Rattle.jb_board.specs.Words.{command_line_of};
ghost use Rattle.jb_board.specs.declared.fault.Fault.TheVariants.{OutOfMemory as no_memory};
ghost use Rattle.jb_run.specs.Nodes.{lent_path};

use crate::command::{CommandLine, command};
use crate::fault::Fault;
use crate::meaning::explain;
use jb_base::{Bytes, OutOfMemory};
use jb_host::{Clock, Door, Host, HostError, Link, send};
use jb_run::{LocalEnd, NodesEnd, local, serve_nodes};
use jb_tool::{Tool, ToolError, load_in_memory};
use std::alloc::Global;
use std::sync::Wait;
use std::thread::Threads;

/// The forms of words, each with the program's name before it.
const HELP: &[u8] =
    b"board list DIR NAME\nboard check DIR NAME\nboard make DIR NAME\nboard pack DIR NAME\nboard relink DIR NAME\nboard load SEED COUNT\nboard local CONF\nboard serve CONF\nboard serve CONF --calls N\nboard backup DIR NAME DIR2\nboard serve CONF --calls N --backup DIR2\nboard help\n";

/// What a run that is not refused comes to.
#[derive(Drop)]
pub(crate) enum Outcome {
    /// A text to print.
    Text(Bytes),
    /// A session that has ended. Nothing is printed behind it.
    Session(LocalEnd),
    /// A run with many nodes that has ended. Nothing is printed behind it.
    Nodes(NodesEnd),
}

/// What a tool answered, as what the run answers.
fn answered(answer: Result<Bytes, ToolError>) -> Result<Outcome, Fault>
    ensures { result ≡ run_answer answer }
{
    match answer {
        Ok(text) => Ok(Outcome::Text(text)),
        Err(error) => Err(Fault::Tool(error)),
    }
}

/// What a text without any other refusal is answered as.
fn told(text: Result<Bytes, OutOfMemory>) -> Result<Outcome, Fault>
    ensures told { IfOk text (λ said. result ≡ Ok (is_text said)) }
    ensures none { OnErr text (result ≡ Err no_memory) }
{
    match text {
        Ok(text) => Ok(Outcome::Text(text)),
        Err(_) => Err(Fault::OutOfMemory),
    }
}

/// A refusal of the host, as the fault of a run.
fn of_host(error: HostError) -> Fault
    ensures { result ≡ fault_of_host error }
{
    match error {
        HostError::Failed => Fault::HostFault,
        HostError::OutOfMemory => Fault::OutOfMemory,
    }
}

/// What a tool answers over the disk that the host has for the base; the disk is put back.
fn use_tool<H: Host>(
    alloc: Global,
    tool: Tool,
    moment: u32,
    dir: &str,
    name: &str,
    host: &mut H,
) -> Result<Outcome, Fault>
    ensures { UsesTool tool moment dir.now name.now (H.desk host.old) (H.desk host.new) result }
{
    let disk = match host.disk(dir, name) {
        Ok(disk) => disk,
        Err(error) => return Err(of_host(error)),
    };
    let (disk, answer) = jb_tool::run(alloc, disk, tool, moment);
    host.put_back(dir, name, disk);
    answered(answer)
}

/// What a backup answers over the disks that the host has for the base and, by the same name in another folder, for the backup; both
/// are put back.
fn use_backup<H: Host>(
    alloc: Global,
    dir: &str,
    name: &str,
    onto: &str,
    host: &mut H,
) -> Result<Outcome, Fault>
    requires { onto.now ≢ dir.now }
    ensures { UsesBackup dir.now name.now onto.now (H.desk host.old) (H.desk host.new) result }
{
    let base = match host.disk(dir, name) {
        Ok(base) => base,
        Err(error) => return Err(of_host(error)),
    };
    let target = match host.disk(onto, name) {
        Ok(target) => target,
        Err(error) => {
            host.put_back(dir, name, base);
            return Err(of_host(error));
        }
    };
    let (base, target, answer) = jb_tool::backup(alloc, base, target, host);
    host.put_back(dir, name, base);
    host.put_back(onto, name, target);
    answered(answer)
}

/// How a session at the console of the host ends.
fn serve<R: Wait, H: Host>(
    rt: &R,
    alloc: Global,
    path: &str,
    host: &mut H,
) -> Result<Outcome, Fault>
    requires { IsSome (H.desk host.old).console }
    ensures { ServesLocal path.now (H.desk host.old) (H.desk host.new) result }
{
    Ok(Outcome::Session(local(rt, alloc, host, path)?))
}

/// How a run with many nodes ends.
fn serve_all<R: Threads + Wait + Sync, H: Host>(
    rt: &R,
    alloc: Global,
    path: &str,
    calls: Option<u32>,
    backup: Option<&str>,
    host: &mut H,
) -> Result<Outcome, Fault>
where
    H::Disk: Send + Sync,
    H::Door: Send,
    <H::Door as Door>::Link: Send,
    H::Bell: Send,
    H::Clock: Send,
    ensures { ServesNodes H.door_for H.bell_over path.now calls (lent_path backup.entry)
        (H.desk host.old) (H.desk host.new) result }
{
    Ok(Outcome::Nodes(serve_nodes(rt, alloc, host, path, calls, backup)?))
}

/// What these words are answered.
fn answer<R: Threads + Wait + Sync, H: Host>(
    rt: &R,
    alloc: Global,
    words: &[String],
    moment: u32,
    host: &mut H,
) -> Result<Outcome, Fault>
where
    H::Disk: Send + Sync,
    H::Door: Send,
    <H::Door as Door>::Link: Send,
    H::Bell: Send,
    H::Clock: Send,
    requires { IsSome (H.desk host.old).console }
    ensures found { AnswersWords H.door_for H.bell_over (command_line_of (map string_bytes words.now)) moment
        (H.desk host.old) (H.desk host.new) result }
    ensures console { IsSome (H.desk host.new).console }
{
    match command(words) {
        Some(CommandLine::Use { tool, dir, name }) => use_tool(
            alloc, tool, moment, dir, name, host,
        ),
        Some(CommandLine::Backup { dir, name, onto }) => use_backup(alloc, dir, name, onto, host),
        Some(CommandLine::Load { seed, count }) => told(load_in_memory(alloc, seed, count)),
        Some(CommandLine::Local { path }) => serve(rt, alloc, path, host),
        Some(
            CommandLine::Serve {
                path,
                calls,
                backup,
            },
        ) => serve_all(rt, alloc, path, calls, backup, host),
        Some(CommandLine::Help) => told(Bytes::copy(alloc, HELP)),
        None => Err(Fault::Words),
    }
}

/// Prints an answer, and says how the program ends.
fn print<L: Link>(console: &mut L, answer: &Result<Outcome, Fault>) -> u8
    ensures { IsPrinted answer.now result (L.wire console.old) (L.wire console.new) }
{
    match answer {
        Ok(Outcome::Session(end)) => end.status(),
        Ok(Outcome::Nodes(end)) => end.status(),
        Ok(Outcome::Text(text)) => match send(console, text.as_slice()) {
            Ok(()) => 0,
            Err(_) => Fault::HostFault.status(),
        },
        Err(fault) => {
            let line = fault.line();
            let _ = send(console, line.as_str().as_bytes());
            fault.status()
        }
    }
}

/// Tells the operator in words why a run is refused, where it is.
fn tell_refusal<H: Host>(
    alloc: Global,
    host: &mut H,
    words: &[String],
    answer: &Result<Outcome, Fault>,
)
    ensures { H.desk host.new ≡ H.desk host.old }
{
    if let Err(fault) = answer {
        explain(alloc, host, words, *fault);
    }
}

/// The whole program: answers the words at the moment that the host's clock shows, prints on the host's console, serves a caller there
/// or many at the host's doors, and gives the exit status.
///
/// 0: done and printed whole, a session that its caller ended, or a run with many nodes whose doors were shut. 1: the words are no
/// command line. 2: the settings are refused. 3: the base is refused, or a file of its backup holds something. 4: a disk failed, or an
/// area is in doubt behind a session or a run with many nodes. 5: the host, the console or a door failed. 6: want of memory. 7: a session
/// that was ended by three refused log-ins, or took all that it may take. Under a status other than 0 the console has one line that
/// begins with `fault`, or, where the console itself failed, a beginning of what was to be printed; but nothing is printed behind a
/// session or a run with many nodes. What the refusal means is told the operator where the host has a way to (`Host::note`).
/// Nothing is read from the console but by a session. The host is asked for the disk of the base alone, at most once, and right behind it
/// for that of its backup where one is made; or for the settings and then for the disk of each area, in order, those of their backups
/// where they are to be made, and then for the doors of all nodes, that of news where the settings have a port for it, and the bell,
/// where many are served. It has all back when the call returns.
pub fn board<R: Threads + Wait + Sync, H: Host>(
    rt: &R,
    alloc: Global,
    words: &[String],
    host: &mut H,
) -> u8
where
    H::Disk: Send + Sync,
    H::Door: Send,
    <H::Door as Door>::Link: Send,
    H::Bell: Send,
    H::Clock: Send,
    requires { IsSome (H.desk host.old).console }
    ensures { HasRun H.door_for H.bell_over (map string_bytes words.now) (H.desk host.old) (H.desk host.new) result }
{
    let mut clock = host.clock();
    let moment = clock.now();
    let answer = answer(rt, alloc, words, moment, host);
    let mut console = host.console();
    let status = print(&mut console, &answer);
    host.put_console(console);
    tell_refusal(alloc, host, words, &answer);
    status
}
