//! The words of an answer, put one behind another.

use crate::RowError;
use itoa::Buffer;
use jb_base::Bytes;
use percent_encoding::{AsciiSet, percent_encode};
use std::alloc::Global;
use std::fmt::Debug;

/// The bytes that stand for themselves beside letters and digits: the graphic ones of ASCII without the percent sign.
fn escaped() -> AsciiSet {
    percent_encoding::CONTROLS.add(b' ').add(b'%')
}

/// What is put together for a row. What is wrong, want of memory too, is told once, at the end, so that nobody asks for it at each
/// word.
#[derive(Drop)]
pub struct Words {
    pub alloc: Global,
    text: String,
    wrong: Option<RowError>,
}

impl Words {
    /// None yet.
    pub fn new(alloc: Global) -> Words {
        Words {
            alloc,
            text: String::new(alloc),
            wrong: None,
        }
    }

    /// The row has no answer, for this reason, unless there was one before.
    pub fn refuse(&mut self, error: RowError) {
        if self.wrong.is_none() {
            self.wrong = Some(error);
        }
    }

    /// The word at this place is not known.
    pub fn unknown(&mut self, place: usize) {
        self.refuse(RowError::Unknown(place));
    }

    /// There was no memory.
    pub fn lack(&mut self) {
        self.refuse(RowError::OutOfMemory);
    }

    /// Whether nothing is wrong so far.
    pub fn is_right(&self) -> bool {
        self.wrong.is_none()
    }

    /// The row has an answer, unless something was wrong.
    pub fn heed(&mut self, done: Result<(), RowError>) {
        if let Err(error) = done {
            self.refuse(error);
        }
    }

    /// Something was done, unless there was no memory.
    pub fn done<E: Drop>(&mut self, done: Result<(), E>) {
        if done.is_err() {
            self.lack();
        }
    }

    /// What was made, unless there was no memory.
    pub fn made<T: Drop, E: Drop>(&mut self, made: Result<T, E>) -> Option<T> {
        match made {
            Ok(made) => Some(made),
            Err(_) => {
                self.lack();
                None
            }
        }
    }

    /// The bytes that were read, or none where that is wrong.
    pub fn bytes(&mut self, read: Result<Vec<u8>, RowError>) -> Bytes {
        match read {
            Ok(bytes) => Bytes::from(bytes),
            Err(error) => {
                self.refuse(error);
                Bytes::new(self.alloc)
            }
        }
    }

    /// The text that was put together beside, or none where something was wrong there.
    pub fn text_of(&mut self, other: Words) -> String {
        match other.end() {
            Ok(text) => text,
            Err(error) => {
                self.refuse(error);
                String::new(self.alloc)
            }
        }
    }

    /// These characters, right behind the last.
    pub fn put(&mut self, more: &str) {
        if self.text.push_str(more).is_err() {
            self.lack();
        }
    }

    /// This character, right behind the last.
    pub fn put_char(&mut self, letter: char) {
        if self.text.push(letter).is_err() {
            self.lack();
        }
    }

    /// The number in decimal, right behind the last character.
    pub fn put_number(&mut self, number: u64) {
        let mut buffer = Buffer::new();
        self.put(buffer.format(number));
    }

    /// A space, where there are characters already.
    fn space(&mut self) {
        if !self.text.is_empty() {
            self.put(" ");
        }
    }

    /// A word behind the others.
    pub fn word(&mut self, word: &str) {
        self.space();
        self.put(word);
    }

    /// A number behind the other words.
    pub fn number(&mut self, number: u64) {
        self.space();
        self.put_number(number);
    }

    /// What something is called, and its number.
    pub fn named(&mut self, name: &str, number: u64) {
        self.word(name);
        self.number(number);
    }

    /// Whether something is so.
    pub fn truth(&mut self, is_so: bool) {
        self.word(if is_so { "true" } else { "false" });
    }

    /// Whether something was done.
    pub fn ok(&mut self, is_done: bool) {
        self.word(if is_done { "ok" } else { "failed" });
    }

    /// The bytes right behind the last character, as a word of text: `-` for none, a byte that is no graphic character of ASCII
    /// as `%` and two hex digits.
    pub fn put_shown(&mut self, bytes: &[u8]) {
        self.put(if bytes.is_empty() { "-" } else { "" });
        let done = percent_encode(bytes, escaped()).append_to(&mut self.text);
        self.done(done);
    }

    /// The same behind the other words.
    pub fn shown(&mut self, bytes: &[u8]) {
        self.space();
        self.put_shown(bytes);
    }

    /// The bytes behind the other words, as a word of hex digits: `-` for none, else `0x` and two digits a byte.
    pub fn hexed(&mut self, bytes: &[u8]) {
        self.word(if bytes.is_empty() { "-" } else { "0x" });
        match hex::encode(self.alloc, bytes) {
            Ok(digits) => self.put(digits.as_str()),
            Err(_) => self.lack(),
        }
    }

    /// The value as its `Debug` writes it, behind the other words.
    pub fn debug<T: Debug>(&mut self, value: &T) {
        self.space();
        match format!(in self.alloc; "{value:?}") {
            Ok(text) => self.put(text.as_str()),
            Err(_) => self.lack(),
        }
    }

    /// All of it, unless something was wrong.
    pub fn end(self) -> Result<String, RowError> {
        match self.wrong {
            None => Ok(self.text),
            Some(error) => Err(error),
        }
    }

    /// Writes the line for this row: all of it, or why there is no answer.
    pub fn print<R: Print>(self, rt: &R, line: &str) -> std::io::Result<()> {
        match self.end() {
            Ok(text) => println!(rt; "{text}"),
            Err(error) => println!(rt; "no answer to '{line}': {error}"),
        }
    }
}
