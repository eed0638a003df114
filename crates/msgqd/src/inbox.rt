//! What came from the relay, cut into records.

ghost use Rattle.std.specs.Prelude.{◌≤◌, vec_len};

use serving::frames::{Unread, whole};
use std::alloc::{AllocError, Global};
use std::io::{self, Read};

/// So many bytes are read at a time at most: many records, so that a group of calls is saved at once.
pub const INBOX_BYTES: usize = 262_144;

/// Bytes of the relay, of which records are taken.
#[derive(Drop)]
pub struct Inbox {
    bytes: Vec<u8>,
    start: usize,
    end: usize,
    ghost ordered: { start ≤ end },
    ghost within: { end ≤ vec_len bytes },
}

impl Inbox {
    /// None.
    pub fn new(alloc: Global) -> Result<Inbox, AllocError> {
        let bytes = vec![in alloc; 0; INBOX_BYTES]?;
        Ok(Inbox {
            bytes,
            start: 0,
            end: 0,
        })
    }

    /// Reads what is there, behind the part of a record that is left, and tells how many bytes came:
    /// none at the end of the input.
    pub fn fill<R: Read>(&mut self, input: &mut R) -> io::Result<usize> {
        self.bytes.copy_within(self.start..self.end, 0);
        self.end -= self.start;
        self.start = 0;
        let came = input.read(&mut self.bytes[self.end..])?;
        self.end += came;
        Ok(came)
    }

    /// Takes the next whole record; none where the rest of it is still to come.
    pub fn next(&mut self) -> Result<Option<&[u8]>, Unread> {
        let start = self.start;
        let Some(bytes) = whole(&self.bytes[start..self.end])? else {
            return Ok(None);
        };
        self.start = start + bytes;
        Ok(Some(&self.bytes[start..start + bytes]))
    }
}
