//! The bytes of a record's value, in a buffer of fixed size.

ghost use Rattle.std.specs.Prelude.{◌≡◌, ◌≤◌, ◌+◌, [], ◌∷◌, ◌++◌, length};
ghost use Rattle.bucket_page.specs.numbers.Numbers.{two, four, eight};

use crate::layout::MAX_VALUE_BYTES;
use bucket_page::fields::{set_bytes, write_eight, write_four, write_two};
use std::marker::Model;

/// The bytes of a record's value, which contracts see as a list. It takes no memory beside itself.
/// Behind them the buffer holds what it held, so that nothing is written where they are taken out.
#[derive(Drop)]
pub struct Value {
    bytes: [u8; MAX_VALUE_BYTES],
    len: usize,
}

impl Model for Value {
    ghost use Rattle.std.specs.Prelude.{ℕ, ◌≤◌, List, take};
    ghost use Rattle.queue_records.specs.declared.layout.TheConstants.{MAX_VALUE_BYTES};

    ghost Value = { List ℕ };

    ghost view = { λ v. take v.len v.bytes };

    ghost invariant = { λ v. v.len ≤ MAX_VALUE_BYTES };
}

impl Value {
    /// No byte.
    pub fn new() -> Value
        ensures { result ≡ [] }
    {
        Value {
            bytes: [0; MAX_VALUE_BYTES],
            len: 0,
        }
    }

    /// The bytes in order.
    pub fn as_slice(&self) -> &[u8]
        ensures value { result.now ≡ self.now }
        ensures within { length self.now ≤ MAX_VALUE_BYTES }
    {
        &self.bytes[..self.len]
    }

    /// Becomes these bytes.
    pub fn set(&mut self, bytes: &[u8])
        requires { length bytes.now ≤ MAX_VALUE_BYTES }
        ensures { self.new ≡ bytes.now }
    {
        self.clear();
        self.put_all(bytes);
    }

    /// Takes out all bytes.
    pub fn clear(&mut self)
        ensures { self.new ≡ [] }
    {
        self.len = 0;
    }

    /// Puts a byte last.
    pub(crate) fn put_one(&mut self, number: u8)
        requires { length self.old + 1 ≤ MAX_VALUE_BYTES }
        ensures value { self.new ≡ self.old ++ number ∷ [] }
        ensures len { length self.new ≡ length self.old + 1 }
    {
        self.put_all(&[number]);
    }

    /// Puts the two bytes of a number last.
    pub(crate) fn put_two(&mut self, number: u16)
        requires { length self.old + 2 ≤ MAX_VALUE_BYTES }
        ensures value { self.new ≡ self.old ++ two number }
        ensures len { length self.new ≡ length self.old + 2 }
    {
        let mut bytes = [0; 2];
        write_two(&mut bytes, number);
        self.put_all(&bytes);
    }

    /// Puts the four bytes of a number last.
    pub(crate) fn put_four(&mut self, number: u32)
        requires { length self.old + 4 ≤ MAX_VALUE_BYTES }
        ensures value { self.new ≡ self.old ++ four number }
        ensures len { length self.new ≡ length self.old + 4 }
    {
        let mut bytes = [0; 4];
        write_four(&mut bytes, number);
        self.put_all(&bytes);
    }

    /// Puts the eight bytes of a number last.
    pub(crate) fn put_eight(&mut self, number: u64)
        requires { length self.old + 8 ≤ MAX_VALUE_BYTES }
        ensures value { self.new ≡ self.old ++ eight number }
        ensures len { length self.new ≡ length self.old + 8 }
    {
        let mut bytes = [0; 8];
        write_eight(&mut bytes, number);
        self.put_all(&bytes);
    }

    /// Puts these bytes last.
    pub(crate) fn put_all(&mut self, bytes: &[u8])
        requires { length self.old + length bytes.now ≤ MAX_VALUE_BYTES }
        ensures value { self.new ≡ self.old ++ bytes.now }
        ensures len { length self.new ≡ length self.old + length bytes.now }
    {
        set_bytes(&mut self.bytes, self.len, bytes);
        self.len += bytes.len();
    }
}
