//! What is kept for the entry of a call.

ghost use Rattle.std.specs.Prelude.{◌≡◌, ◌<◌, IfOk, OnOk, vec_capacity, vec_len};
ghost use Rattle.queue_model.specs.declared.entry.Entry.TheVariants.{Decided};

use queue_model::{Answer, Body, Call, Entry, MAX_BODY, Message, NoMemory};
use std::alloc::Global;
use std::sync::Wait;

/// A copy of a call, and room for the bytes of a copy of its answer.
#[derive(Drop)]
pub(crate) struct Draft {
    pub(crate) call: Call,
    room: Vec<u8>,
}

impl Draft {
    /// That of a call, and a place for its entry in this list. Only the answer to a Receive has
    /// bytes.
    pub(crate) fn of(list: &mut Vec<Entry>, call: &Call) -> Result<Draft, NoMemory>
        ensures call { IfOk result (λ d. d.call ≡ call.now) }
        ensures room { OnOk result (vec_len list.new < vec_capacity list.new) }
        ensures list { list.new.items ≡ list.old.items }
    {
        let alloc: Global = *list.allocator();
        list.reserve(1)?;
        let most = match call {
            Call::Receive(arguments) => (arguments.size as usize).min(MAX_BODY),
            _ => 0,
        };
        let room = Vec::with_capacity(alloc, most)?;
        Ok(Draft {
            call: call.try_copy()?,
            room,
        })
    }

    /// The call.
    pub(crate) fn into_call(self) -> Call
        ensures { result ≡ self.call }
    {
        let Draft { call, room: _ } = self;
        call
    }

    /// The entry of the call with this answer. The bytes that a kernel answers have room, and so it
    /// takes no memory; more of them would wait for it.
    pub(crate) fn entry<R: Wait>(self, rt: &R, seat: u8, answer: &Answer) -> Entry
        ensures { result ≡ Decided seat self.call answer.now }
    {
        let Draft { call, room } = self;
        let answer = match answer {
            Answer::Id(id) => Answer::Id(*id),
            Answer::Sent(serial) => Answer::Sent(*serial),
            Answer::Received(message) => Answer::Received(copied(rt, message, room)),
            Answer::Info(info) => Answer::Info(*info),
            Answer::Done => Answer::Done,
            Answer::Refused(errno) => Answer::Refused(*errno),
        };
        Entry::Decided { seat, call, answer }
    }
}

/// A copy of a message, with its bytes in this room.
fn copied<R: Wait>(rt: &R, message: &Message, room: Vec<u8>) -> Message
    ensures { result ≡ message.now }
{
    let mut bytes = room;
    for _ in rt.forever() {
        bytes.clear();
        if bytes.extend_from_slice(message.bytes.as_slice()).is_ok() {
            return Message {
                bytes: Body::new(bytes),
                ..*message
            };
        }
    }
    unreachable!()
}
