//! The head of a bucket: the sixteen bytes before its records.

ghost use Rattle.std.specs.Prelude.{◌≡◌, ◌≤◌, length};
ghost use Rattle.bucket_page.specs.Reading.{head_at};
ghost use Rattle.bucket_page.specs.Spelling.{head_bytes};
ghost use Rattle.bucket_page.specs.declared.head.Head.{Head};

use crate::layout::BUCKET;
use directory::HEAD_BYTES;
use directory::fields::{blank, four_at, two_at, write_four, write_two};

/// The numbers at the head of a bucket.
#[derive(Clone, Copy)]
pub struct Head {
    pub depth: u8,
    /// How many records there are.
    pub count: u16,
    pub pattern: u32,
    pub next: u32,
    /// The bytes of the records.
    pub used: u16,
}

impl Head {
    /// The head that the bytes begin with.
    pub fn read(bytes: &[u8]) -> Head
        requires { HEAD_BYTES ≤ length bytes.now }
        ensures { result ≡ head_at bytes.now }
    {
        Head {
            depth: bytes[1],
            count: two_at(bytes, 2),
            pattern: four_at(bytes, 4),
            next: four_at(bytes, 8),
            used: two_at(bytes, 12),
        }
    }

    /// Writes this head.
    pub fn write(self, bytes: &mut [u8])
        requires { length bytes.old ≡ HEAD_BYTES }
        ensures { bytes.new ≡ head_bytes self }
    {
        let (first, others) = bytes.split_at_mut(2);
        let (count, others) = others.split_at_mut(2);
        let (pattern, others) = others.split_at_mut(4);
        let (next, others) = others.split_at_mut(4);
        let (used, last) = others.split_at_mut(2);
        first[0] = BUCKET;
        first[1] = self.depth;
        write_two(count, self.count);
        write_four(pattern, self.pattern);
        write_four(next, self.next);
        write_two(used, self.used);
        blank(last);
    }
}

/// Sets how many records a bucket has, and their bytes, in its head.
pub fn set_counts(bytes: &mut [u8], count: u16, used: u16)
    requires { length bytes.old ≡ HEAD_BYTES }
    ensures { (h : Head) → bytes.old ≡ head_bytes h
        → bytes.new ≡ head_bytes (record h { count = count; used = used }) }
{
    let (_, others) = bytes.split_at_mut(2);
    let (records, others) = others.split_at_mut(2);
    let (_, others) = others.split_at_mut(8);
    let (room, _) = others.split_at_mut(2);
    write_two(records, count);
    write_two(room, used);
}
