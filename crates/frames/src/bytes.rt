//! Bytes of a record, lent by it.

ghost use Rattle.std.specs.Prelude.{◌≡◌, length};

use std::marker::Model;

/// Bytes that a record lends, which contracts see as a list.
#[derive(Drop)]
pub struct Bytes<'a> {
    items: &'a [u8],
}

impl<'a> Model for Bytes<'a> {
    ghost use Rattle.std.specs.Prelude.{ℕ, List};

    ghost Value = { List ℕ };

    ghost view = { λ b. b.items.now };
}

impl<'a> Bytes<'a> {
    /// These bytes.
    pub fn new(items: &'a [u8]) -> Bytes<'a>
        ensures { result ≡ items.now }
    {
        Bytes { items }
    }

    /// The bytes in order.
    pub fn as_slice(&self) -> &'a [u8]
        ensures { result.now ≡ self.now }
    {
        self.items
    }

    /// How many they are.
    pub fn len(&self) -> usize
        ensures { result ≡ length self.now }
    {
        self.items.len()
    }
}
