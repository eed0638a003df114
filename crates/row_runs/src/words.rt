//! The words of a line, up to a colon.

use crate::kinds::kind_named;
use bucket_page::RecordKey;
use memchr::memchr;
use page_locks::{LockKind, LockName};
use queue_model::Body;
use schedules::{Refusal, body, number, seat};
use std::alloc::Global;
use step_rules::Kind;
use thiserror::Error;

/// Why a line is not done.
#[derive(Clone, Copy, Debug, Error)]
pub enum Wrong {
    /// The grammar has something else here.
    #[error("{0} is wanted")]
    Wanted(&'static str),
    /// What stands there is of another kind.
    #[error("this is done only with {0}")]
    Elsewhere(&'static str),
    /// The rows are not read.
    #[error("standard input is not read")]
    Unread,
    /// What is printed is not taken.
    #[error("standard output is not written")]
    Unwritten,
    /// There is no memory.
    #[error("out of memory")]
    NoMemory,
}

/// The kinds of lock by their names.
const LOCK_KINDS: [(&[u8], LockKind); 3] = [
    (b"Read", LockKind::Read),
    (b"Selective", LockKind::Selective),
    (b"Exclusive", LockKind::Exclusive),
];

/// What a word names in a table.
pub fn named<T: Copy>(table: &[(&[u8], T)], word: &[u8]) -> Option<T> {
    for (name, it) in table {
        if *name == word {
            return Some(*it);
        }
    }
    None
}

/// What is left of a line.
#[derive(Clone, Copy)]
pub struct Words<'a> {
    rest: &'a [u8],
}

/// What stands before the first byte that is this one, and what follows it.
pub fn cut(text: &[u8], mark: u8) -> (&[u8], &[u8]) {
    match memchr(mark, text) {
        Some(end) => {
            let (before, after) = text.split_at(end);
            (before, &after[1..])
        }
        None => (text, b""),
    }
}

/// The key of the record that a word names.
fn key_named(word: &[u8]) -> Option<RecordKey> {
    if word == b"Counter".as_slice() {
        return Some(RecordKey {
            kind: 1,
            queue: 0,
            number: 0,
        });
    }
    let number = number(word)?;
    Some(RecordKey {
        kind: 5,
        queue: number,
        number: u64::from(number),
    })
}

/// The lock of this name.
fn lock_named(word: &[u8]) -> Option<LockName> {
    if word == b"Counter".as_slice() {
        return Some(LockName::Counter);
    }
    if word == b"Directory".as_slice() {
        return Some(LockName::Directory);
    }
    let (name, rest) = cut(word, b'(');
    numbered_lock(name, number(rest.strip_suffix(b")")?)?)
}

/// The lock of this name and number.
fn numbered_lock(name: &[u8], number: u32) -> Option<LockName> {
    if name == b"Key".as_slice() {
        Some(LockName::Key(number))
    } else if name == b"Queue".as_slice() {
        Some(LockName::Queue(number))
    } else if name == b"Page".as_slice() {
        Some(LockName::Page(number))
    } else {
        None
    }
}

/// A number of 64 bits.
fn long_number(word: &[u8]) -> Option<u64> {
    let mut number: u64 = 0;
    for byte in word {
        let digit = match byte {
            b'0'..=b'9' => *byte - b'0',
            _ => return None,
        };
        number = number.checked_mul(10)?.checked_add(u64::from(digit))?;
    }
    Some(number)
}

impl<'a> Words<'a> {
    /// The words of a line. What stands behind a colon is what is to come of it, and is not read.
    pub fn of(line: &'a [u8]) -> Words<'a> {
        Words {
            rest: cut(line, b':').0,
        }
    }

    /// The next word.
    pub fn next(&mut self) -> Option<&'a [u8]> {
        for _ in 0..self.rest.len() {
            let (word, rest) = cut(self.rest, b' ');
            self.rest = rest;
            if !word.is_empty() {
                return Some(word);
            }
        }
        None
    }

    /// The words up to the next comma, if there are any.
    pub fn part(&mut self) -> Option<Words<'a>> {
        if self.rest.is_empty() {
            return None;
        }
        let (part, rest) = cut(self.rest, b',');
        self.rest = rest;
        Some(Words { rest: part })
    }

    /// The next word, which is a number of 32 bits.
    pub fn number(&mut self, what: &'static str) -> Result<u32, Wrong> {
        let word = self.next().ok_or(Wrong::Wanted(what))?;
        number(word).ok_or(Wrong::Wanted(what))
    }

    /// The next word, which is a seat.
    pub fn seat(&mut self) -> Result<u8, Wrong> {
        let wrong = Wrong::Wanted("a seat, 1 to 64,");
        seat(self.next().ok_or(wrong)?).ok_or(wrong)
    }

    /// The next word, which is a kind of step.
    pub fn kind(&mut self) -> Result<Kind, Wrong> {
        self.next()
            .and_then(kind_named)
            .ok_or(Wrong::Wanted("a kind of step"))
    }

    /// The key of the record that the next word names: `Counter`, or the number of a record of the
    /// queue of that number.
    pub fn one_key(&mut self) -> Result<RecordKey, Wrong> {
        let wrong = Wrong::Wanted("Counter or the number of a record");
        self.next().and_then(key_named).ok_or(wrong)
    }

    /// The next three words, which are the kind, the queue and the number of a record's key.
    pub fn record_key(&mut self) -> Result<RecordKey, Wrong> {
        let wrong = Wrong::Wanted("the kind of a record, 1 to 5,");
        let Ok(kind) = u8::try_from(self.number("the kind of a record, 1 to 5,")?) else {
            return Err(wrong);
        };
        let queue = self.number("a queue")?;
        let number = self.next().and_then(long_number);
        Ok(RecordKey {
            kind,
            queue,
            number: number.ok_or(Wrong::Wanted("the number of a record"))?,
        })
    }

    /// The next word, which is one of a table's.
    pub fn one_of<T: Copy>(
        &mut self,
        table: &[(&[u8], T)],
        what: &'static str,
    ) -> Result<T, Wrong> {
        let word = self.next().ok_or(Wrong::Wanted(what))?;
        named(table, word).ok_or(Wrong::Wanted(what))
    }

    /// The next word, which is a kind of lock.
    pub fn lock_kind(&mut self) -> Result<LockKind, Wrong> {
        self.one_of(&LOCK_KINDS, "Read, Selective or Exclusive")
    }

    /// The next word, which is the name of a lock: `Counter`, `Directory`, or `Key(N)`, `Queue(N)`,
    /// `Page(N)`.
    pub fn lock_name(&mut self) -> Result<LockName, Wrong> {
        let wrong = Wrong::Wanted("Counter, Directory, Key(N), Queue(N) or Page(N)");
        self.next().and_then(lock_named).ok_or(wrong)
    }

    /// The bytes that the next word spells, or `-` for none.
    pub fn bytes(&mut self, alloc: Global) -> Result<Body, Wrong> {
        let wrong = Wrong::Wanted("bytes in hexadecimal digits");
        match body(alloc, self.next().ok_or(wrong)?) {
            Ok(bytes) => Ok(bytes),
            Err(Refusal::Wrong) => Err(wrong),
            Err(Refusal::NoMemory) => Err(Wrong::NoMemory),
        }
    }

    /// There is no other word.
    pub fn end(&mut self) -> Result<(), Wrong> {
        match self.next() {
            None => Ok(()),
            Some(_) => Err(Wrong::Wanted("the end of the line, or a colon,")),
        }
    }
}
