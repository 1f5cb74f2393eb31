//! A message as it is shown.
ghost use Rattle.std.specs.Prelude.{◌≡◌, IfOk};
ghost use Rattle.jb_model.specs.Letter.{letter_of};
ghost use Rattle.jb_decide.specs.Seen.{shown_message};

use crate::denial::field;
use jb_base::{Bytes, MSGID, Name, OutOfMemory, RECEIVER_NAME, REPLYID, SENDER_NAME, SUBJECT};
use jb_model::Letter;
use jb_state::{Head, LoadedMessage};
use std::alloc::Global;

/// The message with this number as it is shown, with these fields in its header and this text.
pub(crate) fn letter(
    alloc: Global,
    number: u32,
    head: Head,
    message: &LoadedMessage,
    text: Bytes,
) -> Result<Letter, OutOfMemory>
    ensures { IfOk result (λ letter. letter ≡ letter_of number (shown_message head message.now text)) }
{
    let fields = &message.subfields;
    Ok(Letter {
        number,
        from: Name::copy(alloc, field(fields, SENDER_NAME))?,
        to: Name::copy(alloc, field(fields, RECEIVER_NAME))?,
        subject: Bytes::copy(alloc, field(fields, SUBJECT))?,
        msgid: Bytes::copy(alloc, field(fields, MSGID))?,
        reply: Bytes::copy(alloc, field(fields, REPLYID))?,
        written: head.written,
        attribute: head.attribute,
        reply_to: head.reply_to,
        reply_first: head.reply_first,
        reply_next: head.reply_next,
        text,
    })
}
