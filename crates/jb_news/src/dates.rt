//! Dates of articles, and the reading of a clock.
ghost use Rattle.std.specs.Prelude.{◌≡◌, ◌+◌, ◌≤◌, ◌++◌, OnOk, IfOk};
ghost use Rattle.jb_news.specs.Dates.{clock_line, day_name, day_text, mail_date, moment_text, month_name, part_of};

use jb_base::{Bytes, OutOfMemory};
use jb_text::{append_line_end, date};
use std::alloc::Global;

/// The name of a day of the week, from Sunday on.
fn day_name(day: u32) -> &'static [u8]
    ensures { result.now ≡ day_name day }
{
    match day {
        0 => b"Sun",
        1 => b"Mon",
        2 => b"Tue",
        3 => b"Wed",
        4 => b"Thu",
        5 => b"Fri",
        _ => b"Sat",
    }
}

/// The name of a month of two digits.
fn month_name(digits: &[u8]) -> &'static [u8]
    ensures { result.now ≡ month_name digits.now }
{
    if digits == b"01".as_slice() {
        b"Jan"
    } else if digits == b"02".as_slice() {
        b"Feb"
    } else if digits == b"03".as_slice() {
        b"Mar"
    } else if digits == b"04".as_slice() {
        b"Apr"
    } else if digits == b"05".as_slice() {
        b"May"
    } else if digits == b"06".as_slice() {
        b"Jun"
    } else if digits == b"07".as_slice() {
        b"Jul"
    } else if digits == b"08".as_slice() {
        b"Aug"
    } else if digits == b"09".as_slice() {
        b"Sep"
    } else if digits == b"10".as_slice() {
        b"Oct"
    } else if digits == b"11".as_slice() {
        b"Nov"
    } else {
        b"Dec"
    }
}

/// The date and time of a moment, as it is written.
fn moment_of(moment: u32) -> [u8; 19]
    ensures { result ≡ moment_text moment }
{
    date(moment, 0)
}

/// Puts so many bytes of a date behind a text.
fn append_part(text: &mut Bytes, from: usize, size: usize, moment: u32) -> Result<(), OutOfMemory>
    requires { from + size ≤ 19 }
    ensures { OnOk result (text.new ≡ text.old ++ part_of from size moment) }
{
    let written = moment_of(moment);
    text.append(&written[from..from + size])
}

/// Puts the name of a month behind a text.
fn append_month(text: &mut Bytes, moment: u32) -> Result<(), OutOfMemory>
    ensures { OnOk result (text.new ≡ text.old ++ month_name (part_of 5 2 moment)) }
{
    let written = moment_of(moment);
    text.append(month_name(&written[5..7]))
}

/// Puts the day of an article behind a text.
fn append_day(text: &mut Bytes, moment: u32) -> Result<(), OutOfMemory>
    ensures { OnOk result (text.new ≡ text.old ++ day_text moment) }
{
    text.append(day_name((moment / 86_400 + 4) % 7))?;
    text.append(b", ")?;
    append_part(text, 8, 2, moment)?;
    text.append(b" ")?;
    append_month(text, moment)?;
    text.append(b" ")?;
    append_part(text, 0, 4, moment)
}

/// Puts the date of an article behind a text.
pub(crate) fn append_mail_date(text: &mut Bytes, moment: u32) -> Result<(), OutOfMemory>
    ensures { OnOk result (text.new ≡ text.old ++ mail_date moment) }
{
    append_day(text, moment)?;
    text.append(b" ")?;
    append_part(text, 11, 8, moment)?;
    text.append(b" +0000")
}

/// The reading of a clock, as it is answered.
pub fn clock(alloc: Global, moment: u32) -> Result<Bytes, OutOfMemory>
    ensures { IfOk result (λ text. text ≡ clock_line moment) }
{
    let mut text = Bytes::copy(alloc, b"111 ")?;
    append_part(&mut text, 0, 4, moment)?;
    append_part(&mut text, 5, 2, moment)?;
    append_part(&mut text, 8, 2, moment)?;
    append_part(&mut text, 11, 2, moment)?;
    append_part(&mut text, 14, 2, moment)?;
    append_part(&mut text, 17, 2, moment)?;
    append_line_end(&mut text)?;
    Ok(text)
}
