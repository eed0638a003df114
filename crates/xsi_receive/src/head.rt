//! What is kept of the message that a Receive takes.

ghost use Rattle.std.specs.Prelude.{◌≡◌};
ghost use Rattle.xsi_receive.specs.Heads.{head_of};

use queue_records::MessageEntry;

/// A Message but for its bytes, which are copied once, out of their page.
#[derive(Clone, Copy)]
pub struct MessageHead {
    /// Its serial.
    pub serial: u64,
    /// Its type.
    pub mtype: i64,
    /// The process that sent it.
    pub sender: u32,
    /// The serial of the message before it on the queue.
    pub previous: Option<u64>,
    /// The serial of the message behind it on the queue.
    pub next: Option<u64>,
    /// The serial of the next message of its type.
    pub next_of_type: Option<u64>,
    /// As many bytes it has.
    pub bytes: usize,
}

impl MessageHead {
    /// That of a Message.
    pub fn of(message: &MessageEntry<'_>) -> MessageHead
        ensures { result ≡ head_of message.now }
    {
        MessageHead {
            serial: message.serial,
            mtype: message.mtype,
            sender: message.sender,
            previous: message.previous,
            next: message.next,
            next_of_type: message.next_of_type,
            bytes: message.body.len(),
        }
    }
}
