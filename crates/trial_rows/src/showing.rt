//! Areas and replies in words.

use crate::Words;
use jb_model::{Letter, Reply};

// Three links.
fn put_links(words: &mut Words, to: u32, first: u32, next: u32) {
    words.number(u64::from(to));
    words.put("/");
    words.put_number(u64::from(first));
    words.put("/");
    words.put_number(u64::from(next));
}

// A text; of more than 100 bytes that are all the same how many they are, and which.
fn put_text(words: &mut Words, text: &[u8]) {
    match text.first() {
        Some(first) if text.len() > 100 && text.iter().all(|byte| byte == first) => {
            words.number(text.len() as u64);
            words.put("*");
            words.put_shown(&[*first]);
        }
        _ => words.shown(text),
    }
}

// A letter: number, names, subject and text, MSGID and REPLYID, date, attribute in hex, and the links.
fn put_letter(words: &mut Words, letter: &Letter) {
    words.named("Text", u64::from(letter.number));
    words.shown(letter.from.as_slice());
    words.shown(letter.to.as_slice());
    words.shown(letter.subject.as_slice());
    put_text(words, letter.text.as_slice());
    words.shown(letter.msgid.as_slice());
    words.shown(letter.reply.as_slice());
    words.number(u64::from(letter.written));
    match format!(in words.alloc; "{:x}", letter.attribute) {
        Ok(attribute) => words.word(attribute.as_str()),
        Err(_) => words.lack(),
    }
    put_links(
        words,
        letter.reply_to,
        letter.reply_first,
        letter.reply_next,
    );
}

/// A reply.
pub fn put_reply(words: &mut Words, reply: &Reply) {
    match reply {
        Reply::Text { letter } => put_letter(words, letter),
        _ => words.debug(reply),
    }
}
