//! Room for the bytes of the message that a Receive takes.

ghost use Rattle.std.specs.Prelude.{◌≡◌, IfOk, OnErr, take};
ghost use Rattle.xsi_inquiry.specs.Rooms.{HasRoom, IsReceive};

use queue_model::{Body, Call, MAX_BODY, NoMemory};
use std::alloc::Global;
use std::marker::Model;

/// Room that is taken once, when a call begins, and moves into its answer. The bytes of a message
/// that is received are copied here, out of its page.
#[derive(Drop)]
pub struct Room {
    bytes: Vec<u8>,
    most: usize,
}

impl Model for Room {
    ghost use Rattle.std.specs.Prelude.{vec_capacity};
    ghost use Rattle.xsi_inquiry.specs.Rooms.{IsRoom, Roomful};

    ghost Value = { Roomful };

    ghost view = { λ r. record { bytes = r.bytes.items; most = r.most } };

    ghost invariant = { λ r. IsRoom r.bytes.items r.most (vec_capacity r.bytes) };
}

impl Room {
    /// Room for the answer to a call: for as many bytes as a Receive asks for and a message can
    /// have, and for none where the call is another. Only a Receive is refused.
    pub fn new(alloc: Global, call: &Call) -> Result<Room, NoMemory>
        ensures ok { IfOk result (λ room. HasRoom call.now room) }
        ensures err { OnErr result (IsReceive call.now) }
    {
        let most = match call {
            Call::Receive(arguments) => (arguments.size as usize).min(MAX_BODY),
            _ => 0,
        };
        let bytes = Vec::with_capacity(alloc, most)?;
        Ok(Room { bytes, most })
    }

    /// As many of the bytes as there is room for take the place of what was there.
    pub fn fill(&mut self, bytes: &[u8])
        ensures { self.new ≡ record self.old { bytes = take self.old.most bytes.now } }
    {
        let most = bytes.len().min(self.most);
        self.bytes.clear();
        self.bytes.extend_from_slice(&bytes[..most]).unwrap();
    }

    /// Room for as many bytes, in which there are none yet.
    pub fn try_twin(&self) -> Result<Room, NoMemory>
        ensures { IfOk result (λ twin. twin.most ≡ self.now.most) }
    {
        let alloc: Global = *self.bytes.allocator();
        let bytes = Vec::with_capacity(alloc, self.most)?;
        Ok(Room {
            bytes,
            most: self.most,
        })
    }

    /// Other room for as many bytes, with a copy of these in the place of what was there. No memory
    /// is taken.
    pub fn copied_to(&self, other: Room) -> Room
        requires { other.most ≡ self.now.most }
        ensures { result ≡ self.now }
    {
        let mut other = other;
        other.fill(self.bytes.as_slice());
        other
    }

    /// The room moves out, with its bytes. What stays has room for none.
    pub fn take(&mut self) -> Room
        ensures { result ≡ self.old }
    {
        let alloc: Global = *self.bytes.allocator();
        let nothing = Room {
            bytes: Vec::new(alloc),
            most: 0,
        };
        std::mem::replace(self, nothing)
    }

    /// The bytes, as the body of a message.
    pub fn into_body(self) -> Body
        ensures { result ≡ self.bytes }
    {
        Body::new(self.bytes)
    }
}
