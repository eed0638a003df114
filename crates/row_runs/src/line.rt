//! The line that is printed of a deed.

use itoa::Buffer;
use std::alloc::Global;

const DIGITS: &[u8; 16] = b"0123456789abcdef";

/// Words with a blank between each two.
#[derive(Drop)]
pub struct Line {
    text: Vec<u8>,
    /// Whether there was no memory for a word.
    lacks: bool,
}

impl Line {
    /// No words.
    pub fn new(alloc: Global) -> Line {
        Line {
            text: Vec::new(alloc),
            lacks: false,
        }
    }

    /// The line, where there was memory for it.
    pub fn text(&self) -> Option<&[u8]> {
        if self.lacks {
            return None;
        }
        Some(self.text.as_slice())
    }

    /// Whether it has no words.
    pub fn is_empty(&self) -> bool {
        self.text.is_empty()
    }

    /// No words again.
    pub fn clear(&mut self) {
        self.text.clear();
        self.lacks = false;
    }

    /// Adds bytes to the last word.
    fn put(&mut self, bytes: &[u8]) {
        if self.text.extend_from_slice(bytes).is_err() {
            self.lacks = true;
        }
    }

    /// Adds a word.
    pub fn word(&mut self, word: &str) {
        if !self.text.is_empty() {
            self.put(b" ");
        }
        self.put(word.as_bytes());
    }

    /// Adds the words of another line.
    pub fn add(&mut self, other: &Line) {
        if !self.text.is_empty() {
            self.put(b" ");
        }
        self.put(other.text.as_slice());
        self.lacks = self.lacks || other.lacks;
    }

    /// Adds a mark behind the last word.
    pub fn mark(&mut self, mark: &str) {
        self.put(mark.as_bytes());
    }

    /// Adds a number.
    pub fn number(&mut self, number: u64) {
        self.word(Buffer::new().format(number));
    }

    /// Adds a number that may be negative.
    pub fn signed(&mut self, number: i64) {
        self.word(Buffer::new().format(number));
    }

    /// Adds a name with a number in brackets.
    pub fn named(&mut self, name: &str, number: u32) {
        self.word(name);
        self.put(b"(");
        self.put(Buffer::new().format(number).as_bytes());
        self.put(b")");
    }

    /// Adds bytes in hexadecimal digits, or `-` for none.
    pub fn hex(&mut self, bytes: &[u8]) {
        if bytes.is_empty() {
            return self.word("-");
        }
        self.word("");
        for byte in bytes {
            self.put(&[digit(byte / 16), digit(byte % 16)]);
        }
    }

    /// Adds nine bits as three octal digits.
    pub fn mode(&mut self, mode: u16) {
        self.word("");
        for bits in &[mode / 64, mode / 8, mode] {
            self.put(&[digit((*bits % 8) as u8)]);
        }
    }
}

/// A hexadecimal digit.
fn digit(value: u8) -> u8 {
    DIGITS[usize::from(value % 16)]
}
