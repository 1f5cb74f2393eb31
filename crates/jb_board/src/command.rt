//! The words of the command line.
ghost use Rattle.std.specs.Prelude.{◌≡◌, ◌∷◌, [], IfNone, IfSome, None, Some, map};
ghost use Rattle.std.specs.String.{string_bytes};
ghost use Rattle.jb_board.specs.Words.{IsAllowed, backup_line, command_line_of, counted_line, is_blank, load_line, local_line, option_line, serve_line, tool_line, tool_named, words_of};
ghost use Rattle.jb_run.specs.Nodes.{lent_path};
ghost use Rattle.jb_text.specs.Digits.{number_up_to};

use jb_text::number_up_to;
use jb_tool::Tool;

/// The greatest seed of a workload.
pub const MOST_SEED: u32 = 4_294_967_295;
/// The greatest count of its steps.
pub const MOST_STEPS: u32 = 50_000;
/// The greatest number of calls that a node is to take.
pub const MOST_CALLS: u32 = 1_000_000;

/// What the words of a command line ask for.
#[derive(Clone, Copy)]
pub enum CommandLine<'a> {
    /// `TOOL DIR NAME`: a tool, and the folder and the name of a base, neither of them empty.
    Use {
        tool: Tool,
        dir: &'a str,
        name: &'a str,
    },
    /// `backup DIR NAME DIR2`: the folder and the name of a base, and another folder, for its backup; none of them is empty.
    Backup {
        dir: &'a str,
        name: &'a str,
        onto: &'a str,
    },
    /// `load SEED COUNT`: the workload of a seed, in at most [`MOST_STEPS`] steps.
    Load {
        seed: u32,
        count: u32,
    },
    /// `local CONF`: a session at the console, and the path of the settings, which is not empty.
    Local {
        path: &'a str,
    },
    /// `serve CONF`, and behind it `--calls N`, `--backup DIR2`, or both in this order: all nodes at their doors, the path of the
    /// settings, which is not empty, how many calls each node takes, from 1 to [`MOST_CALLS`], where that is said, and the folder for
    /// backups of all areas, which is not empty, where they are to be made.
    Serve {
        path: &'a str,
        calls: Option<u32>,
        backup: Option<&'a str>,
    },
    /// `help`.
    Help,
}

/// The tool that a word names.
fn tool_named(verb: &str) -> Option<Tool>
    ensures { result ≡ tool_named verb.now }
{
    if verb == "list" {
        return Some(Tool::List);
    }
    if verb == "check" {
        return Some(Tool::Check);
    }
    if verb == "make" {
        return Some(Tool::Make);
    }
    if verb == "pack" {
        return Some(Tool::Pack);
    }
    if verb == "relink" {
        return Some(Tool::Relink);
    }
    None
}

/// The command line of a tool, a folder and a name.
fn tool_line<'a>(verb: &str, dir: &'a str, name: &'a str) -> Option<CommandLine<'a>>
    ensures found { IfSome result (λ line.
        tool_line (tool_named verb.now) dir.now name.now ≡ Some (words_of line)) }
    ensures none { IfNone result (tool_line (tool_named verb.now) dir.now name.now ≡ None) }
    ensures allowed { IfSome result (λ line. IsAllowed (words_of line)) }
{
    let tool = tool_named(verb)?;
    if dir.is_empty() || name.is_empty() {
        return None;
    }
    Some(CommandLine::Use { tool, dir, name })
}

/// The command line of a workload.
fn load_line<'a>(seed: &str, count: &str) -> Option<CommandLine<'a>>
    ensures found { IfSome result (λ line. load_line (number_up_to MOST_SEED seed.now)
        (number_up_to MOST_STEPS count.now) ≡ Some (words_of line)) }
    ensures none { IfNone result (load_line (number_up_to MOST_SEED seed.now)
        (number_up_to MOST_STEPS count.now) ≡ None) }
    ensures allowed { IfSome result (λ line. IsAllowed (words_of line)) }
{
    let seed = number_up_to(MOST_SEED, seed.as_bytes())?;
    let count = number_up_to(MOST_STEPS, count.as_bytes())?;
    Some(CommandLine::Load { seed, count })
}

/// The command line of a session.
fn local_line<'a>(path: &'a str) -> Option<CommandLine<'a>>
    ensures found { IfSome result (λ line. local_line path.now ≡ Some (words_of line)) }
    ensures none { IfNone result (local_line path.now ≡ None) }
    ensures allowed { IfSome result (λ line. IsAllowed (words_of line)) }
{
    if path.is_empty() {
        return None;
    }
    Some(CommandLine::Local { path })
}

/// Whether a word that is there has no bytes.
fn is_blank(word: Option<&str>) -> bool
    ensures { result ≡ is_blank (lent_path word.entry) }
{
    match word {
        Some(word) => word.is_empty(),
        None => false,
    }
}

/// The command line of a run with many nodes.
fn serve_line<'a>(
    path: &'a str,
    calls: Option<u32>,
    backup: Option<&'a str>,
) -> Option<CommandLine<'a>>
    ensures found { IfSome result (λ line.
        serve_line path.now calls (lent_path backup.entry) ≡ Some (words_of line)) }
    ensures none { IfNone result (serve_line path.now calls (lent_path backup.entry) ≡ None) }
    ensures allowed { IfSome result (λ line. IsAllowed (words_of line)) }
{
    if path.is_empty() || is_blank(backup) {
        return None;
    }
    Some(CommandLine::Serve {
        path,
        calls,
        backup,
    })
}

/// The command line of such a run in which each node takes a number of calls.
fn counted_line<'a>(path: &'a str, calls: &str, backup: Option<&'a str>) -> Option<CommandLine<'a>>
    ensures found { IfSome result (λ line. counted_line path.now (number_up_to MOST_CALLS calls.now)
        (lent_path backup.entry) ≡ Some (words_of line)) }
    ensures none { IfNone result (counted_line path.now (number_up_to MOST_CALLS calls.now)
        (lent_path backup.entry) ≡ None) }
    ensures allowed { IfSome result (λ line. IsAllowed (words_of line)) }
{
    let calls = number_up_to(MOST_CALLS, calls.as_bytes())?;
    if calls == 0 {
        return None;
    }
    serve_line(path, Some(calls), backup)
}

/// The command line of such a run with one option.
fn option_line<'a>(path: &'a str, option: &str, value: &'a str) -> Option<CommandLine<'a>>
    ensures found { IfSome result (λ line.
        option_line path.now option.now value.now ≡ Some (words_of line)) }
    ensures none { IfNone result (option_line path.now option.now value.now ≡ None) }
    ensures allowed { IfSome result (λ line. IsAllowed (words_of line)) }
{
    if option == "--calls" {
        return counted_line(path, value, None);
    }
    if option == "--backup" {
        return serve_line(path, None, Some(value));
    }
    None
}

/// The command line of a backup.
fn backup_line<'a>(dir: &'a str, name: &'a str, onto: &'a str) -> Option<CommandLine<'a>>
    ensures found { IfSome result (λ line.
        backup_line dir.now name.now onto.now ≡ Some (words_of line)) }
    ensures none { IfNone result (backup_line dir.now name.now onto.now ≡ None) }
    ensures allowed { IfSome result (λ line. IsAllowed (words_of line)) }
{
    if dir.is_empty() || name.is_empty() || onto.is_empty() || onto == dir {
        return None;
    }
    Some(CommandLine::Backup { dir, name, onto })
}

/// The command line of a word and a path.
fn path_line<'a>(verb: &str, path: &'a str) -> Option<CommandLine<'a>>
    ensures found { IfSome result (λ line.
        command_line_of (verb.now ∷ path.now ∷ []) ≡ Some (words_of line)) }
    ensures none { IfNone result (command_line_of (verb.now ∷ path.now ∷ []) ≡ None) }
    ensures allowed { IfSome result (λ line. IsAllowed (words_of line)) }
{
    if verb == "local" {
        return local_line(path);
    }
    if verb == "serve" {
        return serve_line(path, None, None);
    }
    None
}

/// The command line of three words.
fn three_line<'a>(verb: &str, first: &'a str, second: &'a str) -> Option<CommandLine<'a>>
    ensures found { IfSome result (λ line.
        command_line_of (verb.now ∷ first.now ∷ second.now ∷ []) ≡ Some (words_of line)) }
    ensures none { IfNone result (command_line_of (verb.now ∷ first.now ∷ second.now ∷ []) ≡ None) }
    ensures allowed { IfSome result (λ line. IsAllowed (words_of line)) }
{
    if verb == "load" {
        return load_line(first, second);
    }
    tool_line(verb, first, second)
}

/// The command line of four words.
fn four_line<'a>(
    verb: &str,
    first: &'a str,
    second: &'a str,
    third: &'a str,
) -> Option<CommandLine<'a>>
    ensures found { IfSome result (λ line. command_line_of
        (verb.now ∷ first.now ∷ second.now ∷ third.now ∷ []) ≡ Some (words_of line)) }
    ensures none { IfNone result (command_line_of
        (verb.now ∷ first.now ∷ second.now ∷ third.now ∷ []) ≡ None) }
    ensures allowed { IfSome result (λ line. IsAllowed (words_of line)) }
{
    if verb == "backup" {
        return backup_line(first, second, third);
    }
    if verb == "serve" {
        return option_line(first, second, third);
    }
    None
}

/// The command line of six words.
fn six_line<'a>(
    verb: &str,
    path: &'a str,
    first: &str,
    calls: &str,
    second: &str,
    onto: &'a str,
) -> Option<CommandLine<'a>>
    ensures found { IfSome result (λ line. command_line_of
        (verb.now ∷ path.now ∷ first.now ∷ calls.now ∷ second.now ∷ onto.now ∷ [])
        ≡ Some (words_of line)) }
    ensures none { IfNone result (command_line_of
        (verb.now ∷ path.now ∷ first.now ∷ calls.now ∷ second.now ∷ onto.now ∷ []) ≡ None) }
    ensures allowed { IfSome result (λ line. IsAllowed (words_of line)) }
{
    if verb == "serve" && first == "--calls" && second == "--backup" {
        return counted_line(path, calls, Some(onto));
    }
    None
}

/// The command line that these words are, if they are one.
pub fn command<'a>(words: &'a [String]) -> Option<CommandLine<'a>>
    ensures found { IfSome result (λ line.
        command_line_of (map string_bytes words.now) ≡ Some (words_of line)) }
    ensures none { IfNone result (command_line_of (map string_bytes words.now) ≡ None) }
    ensures allowed { IfSome result (λ line. IsAllowed (words_of line)) }
{
    match words {
        [verb] if verb.as_str() == "help" => Some(CommandLine::Help),
        [verb, path] => path_line(verb.as_str(), path.as_str()),
        [verb, first, second] => three_line(verb.as_str(), first.as_str(), second.as_str()),
        [verb, first, second, third] => four_line(
            verb.as_str(),
            first.as_str(),
            second.as_str(),
            third.as_str(),
        ),
        [verb, path, first, calls, second, onto] => six_line(
            verb.as_str(),
            path.as_str(),
            first.as_str(),
            calls.as_str(),
            second.as_str(),
            onto.as_str(),
        ),
        _ => None,
    }
}
