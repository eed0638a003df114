//! The bytes of a message.

ghost use Rattle.std.specs.Prelude.{◌≡◌, ◌<◌, ◌^◌, length, take, IfOk};

use numbers::faults::NoMemory;
use std::alloc::Global;
use std::marker::Model;

/// The bytes of a message, which contracts see as a list. A call's body may be of any length; one
/// that is kept has at most `MAX_BODY` bytes.
#[derive(Debug, Drop)]
pub struct Body {
    bytes: Vec<u8>,
}

impl Model for Body {
    ghost use Rattle.std.specs.Prelude.{ℕ, List};

    ghost Value = { List ℕ };

    ghost view = { λ b. b.bytes.items };
}

impl Body {
    /// The body with these bytes.
    pub fn new(bytes: Vec<u8>) -> Body
        ensures { result ≡ bytes.items }
    {
        Body { bytes }
    }

    /// The bytes in order.
    pub fn as_slice(&self) -> &[u8]
        ensures { result.now ≡ self.now }
    {
        self.bytes.as_slice()
    }

    /// The number of bytes.
    pub fn len(&self) -> usize
        ensures { result ≡ length self.now }
    {
        self.bytes.len()
    }

    /// Drops what stands past `size` bytes.
    pub fn cut(&mut self, size: usize)
        ensures { self.new ≡ take size self.old }
    {
        self.bytes.truncate(size);
    }

    /// A body with the same bytes, where there is memory for it.
    pub fn try_copy(&self) -> Result<Body, NoMemory>
        ensures { IfOk result (λ copy. copy ≡ self.now) }
    {
        let alloc: Global = *self.bytes.allocator();
        let bytes = Vec::from_slice(alloc, self.bytes.as_slice())?;
        Ok(Body { bytes })
    }
}

impl PartialEq for Body {
    ghost use Rattle.std.specs.Prelude.{nat_eq};
    ghost use Rattle.std.specs.Cmp.Lexicographic.{pointwise};
    ghost use Rattle.std.proofs.Common.{rules};

    ghost eq = { λ a b. pointwise nat_eq a b };

    ghost laws = { Prim.search (rules) };

    fn eq(&self, other: &Body) -> bool {
        self.bytes == other.bytes
    }
}
