//! The body of a message, lent by the value that holds it.

ghost use Rattle.std.specs.Prelude.{◌≡◌, length};

use std::marker::Model;

/// The bytes of a message, which contracts see as a list.
#[derive(Drop)]
pub struct Body<'a> {
    bytes: &'a [u8],
}

impl<'a> Model for Body<'a> {
    ghost use Rattle.std.specs.Prelude.{ℕ, List};

    ghost Value = { List ℕ };

    ghost view = { λ b. b.bytes.now };
}

impl<'a> Body<'a> {
    /// The body with these bytes.
    pub fn new(bytes: &'a [u8]) -> Body<'a>
        ensures { result ≡ bytes.now }
    {
        Body { bytes }
    }

    /// The bytes in order.
    pub fn as_slice(&self) -> &'a [u8]
        ensures { result.now ≡ self.now }
    {
        self.bytes
    }

    /// The number of bytes.
    pub fn len(&self) -> usize
        ensures { result ≡ length self.now }
    {
        self.bytes.len()
    }
}

impl<'a> PartialEq for Body<'a> {
    ghost use Rattle.std.specs.Prelude.{nat_eq};
    ghost use Rattle.std.specs.Cmp.Lexicographic.{pointwise};
    ghost use Rattle.std.proofs.Common.{rules};

    ghost eq = { λ a b. pointwise nat_eq a b };

    ghost laws = { Prim.search (rules) };

    fn eq(&self, other: &Body<'a>) -> bool {
        self.bytes == other.bytes
    }
}
