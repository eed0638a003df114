//! What a command line asks for.

use queue_commands::{Framing, NewQueue, QueueName, Receiving, Setting};
use std::time::Duration;

/// What a command line asks for.
#[derive(Drop)]
pub struct ShellTask<'a> {
    /// The file.
    pub file: &'a str,
    /// Who makes the calls, as far as it is said.
    pub ids: CallerIds,
    /// What is asked for.
    pub deed: Deed,
}

/// Who makes the calls, as far as it is said.
#[derive(Clone, Copy)]
pub struct CallerIds {
    /// The process.
    pub pid: Option<u32>,
    /// Its user.
    pub uid: Option<u32>,
    /// Its group.
    pub gid: Option<u32>,
}

/// What is asked for.
#[derive(Drop)]
pub enum Deed {
    /// Standard input is sent.
    Send(SendTask),
    /// Messages are received.
    Receive(ReceiveTask),
    /// The body that a receive would get is printed.
    Peek(Receiving),
    /// The queues are listed, or the messages of one.
    List {
        /// The one.
        queue: Option<QueueName>,
        /// Whether they are printed as JSON in place of a table.
        is_json: bool,
    },
    /// A queue is made.
    Make {
        /// Its key, or none for a private queue.
        key: Option<u32>,
        /// How.
        new: NewQueue,
    },
    /// A queue is removed.
    Remove(QueueName),
    /// A queue is set.
    Set(Setting),
}

/// How standard input is sent.
#[derive(Clone, Copy)]
pub struct SendTask {
    /// The queue.
    pub queue: QueueName,
    /// What is made where it is not there; none makes nothing.
    pub create: Option<Creation>,
    /// The type of each message.
    pub mtype: i64,
    /// Whether it is one message, or each of its lines is one.
    pub framing: Framing,
    /// Whether standard input is named, so that it may be a terminal.
    pub names_input: bool,
    /// Whether the serial of each message is printed.
    pub tells: bool,
    /// How long it looks again where there is no room.
    pub patience: Patience,
}

/// Which messages are received.
#[derive(Clone, Copy)]
pub struct ReceiveTask {
    /// Those.
    pub receiving: Receiving,
    /// What is made where it is not there; none makes nothing.
    pub create: Option<Creation>,
    /// How long it looks again where there is none.
    pub patience: Patience,
}

/// What a command makes where it is not there.
#[derive(Clone, Copy)]
pub struct Creation {
    /// The queue.
    pub queue: NewQueue,
    /// How many pages the file gets.
    pub pages: u32,
    /// The group with which the file is shared; none leaves it to its maker.
    pub group: Option<u32>,
}

/// How long a command looks again where what it asks for can't be done yet.
#[derive(Clone, Copy)]
pub enum Patience {
    /// It does not.
    None,
    /// For so long.
    For(Duration),
    /// For ever.
    Endless,
}

impl Deed {
    /// The queue that is named, if one is.
    pub fn queue(&self) -> Option<QueueName> {
        match self {
            Deed::Send(sending) => Some(sending.queue),
            Deed::Receive(task) => Some(task.receiving.queue),
            Deed::Peek(receiving) => Some(receiving.queue),
            Deed::List { queue, is_json: _ } => *queue,
            Deed::Make { key, new: _ } => key.map(QueueName::Key),
            Deed::Remove(queue) => Some(*queue),
            Deed::Set(setting) => Some(setting.queue),
        }
    }
}
