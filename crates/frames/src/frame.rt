//! The frame of a client, by the offsets of its parts (docs/PROTOCOL.md, "Requests").

ghost use Rattle.std.specs.Prelude.{◌≡◌, ◌≤◌, length, drop, nat_le};
ghost use Rattle.frames.specs.Reading.{frame_at, has, kept};

use crate::bytes::Bytes;
use crate::little::{four_at, two_at};

/// The bytes of a frame before the fields of its operation, from its number on.
pub const FRAME_BYTES: usize = 12;

/// A frame whose operation is not read yet.
#[derive(Drop)]
pub struct Frame<'a> {
    /// The client's own number of it.
    pub number: u32,
    /// The number of its operation.
    pub code: u8,
    /// The flags of its operation, each a power of 2.
    pub flags: u8,
    /// A mode, or 0.
    pub mode: u16,
    /// An id, a place or a number of a request, or 0.
    pub id: u32,
    /// The fields of its operation.
    pub fields: Bytes<'a>,
}

impl<'a> Frame<'a> {
    /// The frame that has these bytes from its number on, where there are enough.
    pub fn read(bytes: &'a [u8]) -> Option<Frame<'a>>
        ensures { result ≡ kept (nat_le FRAME_BYTES (length bytes.now)) (frame_at bytes.now) }
    {
        if bytes.len() < FRAME_BYTES {
            return None;
        }
        Some(frame_at(bytes))
    }

    /// Whether it has this flag.
    pub fn has(&self, flag: u8) -> bool
        ensures { result ≡ has flag self.now.flags }
    {
        self.flags & flag != 0
    }
}

/// The frame that has these bytes from its number on.
fn frame_at<'a>(bytes: &'a [u8]) -> Frame<'a>
    requires { FRAME_BYTES ≤ length bytes.now }
    ensures { result ≡ frame_at bytes.now }
{
    Frame {
        number: four_at(bytes, 0),
        code: bytes[4],
        flags: bytes[5],
        mode: two_at(bytes, 6),
        id: four_at(bytes, 8),
        fields: behind(bytes, FRAME_BYTES),
    }
}

/// The bytes from a place on.
pub fn behind(bytes: &[u8], at: usize) -> Bytes
    requires { at ≤ length bytes.now }
    ensures { result ≡ drop at bytes.now }
{
    let (_, items) = bytes.split_at(at);
    Bytes::new(items)
}
