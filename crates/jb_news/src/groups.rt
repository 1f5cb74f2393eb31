//! The lines of groups and of articles.
ghost use Rattle.std.specs.Prelude.{◌≡◌, ◌++◌, IfOk, OnOk};
ghost use Rattle.jb_news.specs.Groups.{active_line, article_code, article_line, chosen_line, low_of, name_line, number_line, span_text};

use crate::command::Part;
use crate::writing::{append_group, append_id, append_number, append_shown};
use jb_base::{Bytes, OutOfMemory};
use jb_state::Figures;
use jb_text::append_line_end;
use std::alloc::Global;

/// The low number of a group: its base, or the next number where nothing is to be seen.
fn low_of(figures: &Figures) -> u32
    ensures { result ≡ low_of figures.now }
{
    if figures.visible == 0 {
        figures.next
    } else {
        figures.base
    }
}

/// The answer that chooses a group: how many articles there are, the low number and the high one, and its name.
pub fn chosen(alloc: Global, area: u32, figures: &Figures) -> Result<Bytes, OutOfMemory>
    ensures { IfOk result (λ text. text ≡ chosen_line area figures.now) }
{
    let mut text = Bytes::copy(alloc, b"211 ")?;
    append_number(&mut text, figures.visible)?;
    append_span(&mut text, low_of(figures), figures.next.saturating_sub(1))?;
    append_group(&mut text, area)?;
    append_line_end(&mut text)?;
    Ok(text)
}

/// Puts two numbers behind a text, with spaces around them.
fn append_span(text: &mut Bytes, first: u32, second: u32) -> Result<(), OutOfMemory>
    ensures { OnOk result (text.new ≡ text.old ++ span_text first second) }
{
    text.append(b" ")?;
    append_number(text, first)?;
    text.append(b" ")?;
    append_number(text, second)?;
    text.append(b" ")
}

/// Puts the line of a group in a list of groups behind a text: its name, the high number and the low one, and that nothing
/// can be sent to it.
pub fn append_active(text: &mut Bytes, area: u32, figures: &Figures) -> Result<(), OutOfMemory>
    ensures { OnOk result (text.new ≡ text.old ++ active_line area figures.now) }
{
    append_group(text, area)?;
    append_span(text, figures.next.saturating_sub(1), low_of(figures))?;
    text.append(b"n")?;
    append_line_end(text)
}

/// Puts the line of a group with its name behind a text.
pub fn append_name(text: &mut Bytes, area: u32, name: &[u8]) -> Result<(), OutOfMemory>
    ensures { OnOk result (text.new ≡ text.old ++ name_line area name.now) }
{
    append_group(text, area)?;
    text.append(b"\t")?;
    append_shown(text, name)?;
    append_line_end(text)
}

/// Puts a number on a line of its own behind a text.
pub fn append_listed(text: &mut Bytes, number: u32) -> Result<(), OutOfMemory>
    ensures { OnOk result (text.new ≡ text.old ++ number_line number) }
{
    append_number(text, number)?;
    append_line_end(text)
}

/// The code of the answer that shows this part of an article.
fn code_of(part: Part) -> &'static [u8]
    ensures { result.now ≡ article_code part }
{
    match part {
        Part::Article => b"220 ",
        Part::Head => b"221 ",
        Part::Body => b"222 ",
        Part::Stat => b"223 ",
    }
}

/// The line that tells which article is shown: the number that it was asked by, 0 if by its id, and its id.
pub fn article(
    alloc: Global,
    part: Part,
    asked: u32,
    area: u32,
    number: u32,
) -> Result<Bytes, OutOfMemory>
    ensures { IfOk result (λ text. text ≡ article_line part asked area number) }
{
    let mut text = Bytes::copy(alloc, code_of(part))?;
    append_number(&mut text, asked)?;
    text.append(b" ")?;
    append_id(&mut text, area, number)?;
    append_line_end(&mut text)?;
    Ok(text)
}
