//! One row, as words.
ghost use Rattle.std.specs.Prelude.{◌≤◌};

use crate::{RowError, Words};
use jb_base::Bytes;
use std::alloc::Global;

/// The words of a line. What is asked of it and is not there, the answer takes note of.
#[derive(Debug, Drop)]
pub struct Row {
    words: Vec<String>,
}

// Puts the words of this line behind the others.
fn fill(alloc: Global, words: &mut Vec<String>, line: &str, answer: &mut Words) {
    for word in line.split(' ') {
        match String::from_str(alloc, word) {
            Ok(word) => answer.done(words.push(word)),
            Err(_) => answer.lack(),
        }
    }
}

impl Row {
    /// The words of this line. Two spaces in a row make a word of no characters.
    pub fn of(line: &str, answer: &mut Words) -> Row {
        let alloc = answer.alloc;
        let mut words = Vec::new(alloc);
        fill(alloc, &mut words, line, answer);
        Row { words }
    }

    /// How many words there are.
    pub fn len(&self) -> usize {
        self.words.len()
    }

    /// The word at this place; none of any characters where the row ends before.
    pub fn word(&self, place: usize) -> &str {
        match self.words.get(place) {
            Some(word) => word.as_str(),
            None => "",
        }
    }

    /// The number at this place.
    pub fn number(&self, place: usize, answer: &mut Words) -> u64 {
        match self.word(place).parse::<u64>() {
            Ok(number) => number,
            Err(_) => {
                answer.refuse(RowError::Number(place));
                0
            }
        }
    }

    /// The number of at most so much at this place.
    pub fn at_most(&self, most: u64, place: usize, answer: &mut Words) -> u64
        ensures { result ≤ most }
    {
        let number = self.number(place, answer);
        if number <= most {
            return number;
        }
        answer.refuse(RowError::Number(place));
        0
    }

    /// The number of at most 32 bits at this place.
    pub fn u32(&self, place: usize, answer: &mut Words) -> u32 {
        self.at_most(0xFFFF_FFFF, place, answer) as u32
    }

    /// The number of at most 16 bits at this place.
    pub fn u16(&self, place: usize, answer: &mut Words) -> u16 {
        self.at_most(0xFFFF, place, answer) as u16
    }

    /// The number of at most 8 bits at this place.
    pub fn u8(&self, place: usize, answer: &mut Words) -> u8 {
        self.at_most(0xFF, place, answer) as u8
    }

    /// The numbers from this place on, each raised by so many.
    pub fn numbers(&self, from: usize, by: u64, answer: &mut Words) -> Vec<u64> {
        let mut numbers = Vec::new(answer.alloc);
        for place in from..self.len() {
            let number = self.number(place, answer).saturating_add(by);
            answer.done(numbers.push(number));
        }
        numbers
    }

    // The bytes at this place, where they are some.
    fn read(&self, alloc: Global, place: usize) -> Result<Vec<u8>, RowError> {
        let Some(word) = self.words.get(place) else {
            return Err(RowError::Bytes(place));
        };
        if word.as_str() == "-" {
            return Ok(Vec::new(alloc));
        }
        match word.strip_prefix("0x") {
            Some(digits) => match hex::decode(alloc, digits) {
                Ok(bytes) => Ok(bytes),
                Err(_) => Err(RowError::Bytes(place)),
            },
            None => decoded(alloc, word.as_str()),
        }
    }

    /// The bytes at this place.
    pub fn bytes(&self, place: usize, answer: &mut Words) -> Bytes {
        let read = self.read(answer.alloc, place);
        answer.bytes(read)
    }
}

// The bytes of a text, in which `%` and two hex digits stand for one.
fn decoded(alloc: Global, text: &str) -> Result<Vec<u8>, RowError> {
    let mut bytes = Vec::new(alloc);
    let done = percent_encoding::percent_decode(text.as_bytes()).append_to(&mut bytes);
    match done {
        Ok(()) => Ok(bytes),
        Err(_) => Err(RowError::OutOfMemory),
    }
}

/// Whether the line is no row, and is written as it is.
pub fn is_heading(line: &str) -> bool {
    line.is_empty() || line.starts_with('#')
}
