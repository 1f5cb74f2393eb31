//! The lines of an overview.
ghost use Rattle.std.specs.Prelude.{◌≡◌, ◌++◌, OnOk};
ghost use Rattle.jb_news.specs.Overview.{answered_id, first_fields, last_fields, overview_line};

use crate::charset::{append_field, append_sender, whole_name, whole_subject};
use crate::dates::append_mail_date;
use crate::writing::{append_id, append_number};
use jb_base::{Bytes, OutOfMemory};
use jb_state::Summary;
use std::alloc::Global;

/// Puts the number, the subject and the sender of an article behind a text.
fn append_first_fields(
    alloc: Global,
    text: &mut Bytes,
    number: u32,
    subject: &[u8],
    from: &[u8],
) -> Result<(), OutOfMemory>
    ensures { OnOk result (text.new ≡ text.old ++ first_fields number subject.now from.now) }
{
    append_number(text, number)?;
    text.append(b"\t")?;
    append_field(alloc, text, b" ", whole_subject(subject))?;
    text.append(b"\t")?;
    append_sender(alloc, text, b" ", whole_name(from))?;
    Ok(())
}

/// Puts the id of the article that is answered behind a text, where one is.
fn append_answered(text: &mut Bytes, area: u32, parent: u32) -> Result<(), OutOfMemory>
    ensures { OnOk result (text.new ≡ text.old ++ answered_id area parent) }
{
    if parent == 0 {
        return Ok(());
    }
    append_id(text, area, parent)
}

/// Puts the date and the ids of an article behind a text.
fn append_last_fields(
    text: &mut Bytes,
    area: u32,
    number: u32,
    moment: u32,
    parent: u32,
) -> Result<(), OutOfMemory>
    ensures { OnOk result (text.new ≡ text.old ++ last_fields area number moment parent) }
{
    text.append(b"\t")?;
    append_mail_date(text, moment)?;
    text.append(b"\t")?;
    append_id(text, area, number)?;
    text.append(b"\t")?;
    append_answered(text, area, parent)?;
    text.append(b"\t\t\r\n")?;
    Ok(())
}

/// Puts the line of an article in an overview behind a text, with its end. The last two fields are empty.
pub fn append_overview(
    alloc: Global,
    text: &mut Bytes,
    area: u32,
    summary: &Summary,
) -> Result<(), OutOfMemory>
    ensures { OnOk result (text.new ≡ text.old ++ overview_line area summary.now) }
{
    append_first_fields(
        alloc,
        text,
        summary.number,
        summary.subject.as_slice(),
        summary.from.as_slice(),
    )?;
    append_last_fields(text, area, summary.number, summary.written, summary.parent)?;
    Ok(())
}
