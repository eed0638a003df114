//! The relay's own part of a record, by its offsets (docs/PROTOCOL.md, "Between the relay and the
//! core").

ghost use Rattle.std.specs.Prelude.{◌≡◌, ◌≤◌, length};
ghost use Rattle.frames.specs.Reading.{head_at, is_head, kept};

use crate::bytes::Bytes;
use crate::frame::behind;
use crate::little::four_at;
use queue_model::Caller;

/// The bytes of a record before the frame of a client, with its length.
pub const HEAD_BYTES: usize = 24;

/// A record whose kind is not read yet.
#[derive(Drop)]
pub struct Head<'a> {
    /// The relay's number of the connection.
    pub connection: u32,
    /// The number of its kind.
    pub kind: u32,
    /// The process at the other end of the connection.
    pub caller: Caller,
    /// What stands behind.
    pub rest: Bytes<'a>,
}

impl<'a> Head<'a> {
    /// The record that has these bytes, where they are as many as its length says.
    pub fn read(bytes: &'a [u8]) -> Option<Head<'a>>
        ensures { result ≡ kept (is_head bytes.now) (head_at bytes.now) }
    {
        if bytes.len() < HEAD_BYTES {
            return None;
        }
        if four_at(bytes, 0) as usize != bytes.len() - 4 {
            return None;
        }
        Some(head_at(bytes))
    }
}

/// The record that has these bytes.
fn head_at<'a>(bytes: &'a [u8]) -> Head<'a>
    requires { HEAD_BYTES ≤ length bytes.now }
    ensures { result ≡ head_at bytes.now }
{
    Head {
        connection: four_at(bytes, 4),
        kind: four_at(bytes, 8),
        caller: Caller {
            pid: four_at(bytes, 12),
            uid: four_at(bytes, 16),
            gid: four_at(bytes, 20),
        },
        rest: behind(bytes, HEAD_BYTES),
    }
}
