//! The summary as text.
ghost use Rattle.std.specs.Prelude.{◌≡◌, ◌++◌, ℕ, List, IfOk, OnOk, map};
ghost use Rattle.jb_limits.specs.declared.limits.TheConstants.{MOST_SLOTS};
ghost use Rattle.jb_tool.specs.LoadRuns.{run_at};
ghost use Rattle.jb_tool.specs.LoadSummary.{done_lines, figure_line, file_lines, slot_lines, run_summary};
ghost use Rattle.jb_tool.specs.Workload.{load_rules, loader};
ghost use Rattle.jb_state.specs.Sound.{IsSound};
ghost use Rattle.jb_state.specs.State.{AreaState, slot_state, state_of};

use crate::counting::count_live;
use crate::counts::Counts;
use crate::load_counting::{count_answers, count_unread};
use itoa::Buffer;
use jb_base::{AreaRules, Bytes, OutOfMemory, User};
use jb_state::Loaded;
use std::alloc::Global;

/// Puts a line behind a text: a name, a space and a number.
fn append_figure(text: &mut Bytes, name: &[u8], number: u64) -> Result<(), OutOfMemory>
    ensures { OnOk result (text.new ≡ text.old ++ figure_line name.now number) }
{
    let mut digits = Buffer::new();
    text.append(name)?;
    text.append(b" ")?;
    text.append(digits.format(number).as_bytes())?;
    text.append(b"\n")?;
    Ok(())
}

/// Puts the lines of what was done behind a text.
fn append_done(text: &mut Bytes, counts: &Counts) -> Result<(), OutOfMemory>
    ensures { OnOk result ((area : AreaState) → text.new ≡ text.old ++ done_lines (run_at area counts.now)) }
{
    append_figure(text, b"posts", u64::from(counts.posts))?;
    append_figure(text, b"reads", u64::from(counts.reads))?;
    append_figure(text, b"kills", u64::from(counts.kills))
}

/// Puts the lines of the messages behind a text.
fn append_messages(text: &mut Bytes, loaded: &Loaded, unread: u64) -> Result<(), OutOfMemory>
    requires sound { IsSound MOST_SLOTS loaded.now }
    ensures { OnOk result ((texts : List ℕ)
        → text.new ≡ text.old ++ slot_lines (map (slot_state texts) loaded.now.slots) unread) }
{
    let slots = loaded.slots.as_slice();
    append_figure(text, b"live", count_live(slots))?;
    append_figure(text, b"linked", count_answers(slots))?;
    append_figure(text, b"unread", unread)
}

/// Puts the lines of the numbers and of the files behind a text.
fn append_files(text: &mut Bytes, loaded: &Loaded) -> Result<(), OutOfMemory>
    requires sound { IsSound MOST_SLOTS loaded.now }
    ensures { OnOk result ((texts : List ℕ) → text.new ≡ text.old ++ file_lines (state_of texts loaded.now)) }
{
    let base = u64::from(loaded.base);
    let slots = loaded.slots.as_slice().len() as u64;
    append_figure(text, b"base", base)?;
    append_figure(text, b"next", base + slots)?;
    append_figure(text, b"JHR", loaded.headers_len)?;
    append_figure(text, b"JDT", loaded.texts_len)?;
    append_figure(text, b"JDX", 8 * slots)
}

/// The summary of an area and of what was done in it.
pub(crate) fn summary(
    alloc: Global,
    loaded: &Loaded,
    rules: &AreaRules,
    user: &User,
    counts: &Counts,
) -> Result<Bytes, OutOfMemory>
    requires sound { IsSound MOST_SLOTS loaded.now }
    requires rules { rules.now ≡ load_rules }
    requires user { user.now ≡ loader }
    ensures { IfOk result (λ text. (texts : List ℕ)
        → text ≡ run_summary (run_at (state_of texts loaded.now) counts.now)) }
{
    let unread = count_unread(alloc, loaded, rules, user)?;
    let mut text = Bytes::new(alloc);
    append_done(&mut text, counts)?;
    append_messages(&mut text, loaded, unread)?;
    append_files(&mut text, loaded)?;
    Ok(text)
}
