//! What a command asks for, and when.

use crate::queue_name::QueueName;
use queue_model::Body;

/// A command, and when it is asked for.
#[derive(Drop)]
pub struct Request {
    /// The moment of each of its calls, in seconds.
    pub moment: u64,
    /// What is asked for.
    pub command: Command,
}

/// What is asked for.
#[derive(Drop)]
pub enum Command {
    /// Messages are sent.
    Send(Sending),
    /// Messages are received.
    Receive(Receiving),
    /// A queue is made, and its id printed.
    Make {
        /// Its key, or none for a private queue.
        key: Option<u32>,
        /// How it is made.
        new: NewQueue,
    },
    /// A queue is removed with all its messages.
    Remove {
        /// The queue.
        queue: QueueName,
    },
    /// A queue is set.
    Set(Setting),
}

/// Messages that are sent to a queue, all or none.
#[derive(Drop)]
pub struct Sending {
    /// The queue.
    pub queue: QueueName,
    /// How the queue is made where the key has none; none makes no queue.
    pub create: Option<NewQueue>,
    /// The type of each message.
    pub mtype: i64,
    /// The bytes of each, in the order in which they are sent.
    pub bodies: Vec<Body>,
    /// Whether the serial of each is printed.
    pub tells: bool,
}

/// Messages that are received from a queue, one after the other.
#[derive(Clone, Copy)]
pub struct Receiving {
    /// The queue.
    pub queue: QueueName,
    /// Which are received, as `msgrcv` selects them by a type.
    pub mtype: i64,
    /// As many bytes of each are taken at most.
    pub size: u32,
    /// Cut a message that is longer than `size` in place of refusing (`MSG_NOERROR`).
    pub noerror: bool,
    /// As many messages are received at most, where no serial is given.
    pub most: u32,
    /// The one message that is received, if it is the one that the type selects.
    pub serial: Option<u64>,
    /// Whether a line with serial, sender, type and length is printed before each.
    pub heads: bool,
}

/// How a queue is made.
#[derive(Clone, Copy)]
pub struct NewQueue {
    /// Its mode, of which the low nine bits count.
    pub mode: u16,
    /// What is set of it once it is made, if anything is.
    pub settings: Option<Settings>,
}

/// A queue is set.
#[derive(Clone, Copy)]
pub struct Setting {
    /// The queue.
    pub queue: QueueName,
    /// What is set of it.
    pub settings: Settings,
}

/// What is set of a queue; none keeps what it has.
#[derive(Clone, Copy)]
pub struct Settings {
    /// As many bytes may its messages have together.
    pub qbytes: Option<u32>,
    /// The owner's user id.
    pub uid: Option<u32>,
    /// The owner's group id.
    pub gid: Option<u32>,
    /// The mode, of which the low nine bits count.
    pub mode: Option<u16>,
}
