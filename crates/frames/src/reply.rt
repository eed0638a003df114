//! What the core answers.

use queue_model::{Answer, Message};

/// What a server tells of itself.
#[derive(Clone, Copy)]
pub struct Counts {
    /// Calls answered.
    pub calls: u64,
    /// Saves made.
    pub saves: u64,
    /// Tries of calls that wait.
    pub tries: u64,
    /// Queues alive.
    pub queues: u32,
    /// Calls that wait.
    pub waiting: u32,
    /// Pages of the file.
    pub pages: u32,
    /// The highest id that is alive.
    pub highest: u32,
}

/// What a request is answered.
#[derive(Drop)]
pub enum Reply<'a> {
    /// To a call, what it was answered.
    Answer(&'a Answer),
    /// To a reserve.
    Held {
        /// The holding queue.
        id: u32,
        /// The message in it.
        message: &'a Message,
    },
    /// To all others, and to a request that was not done.
    Number {
        /// `DONE`, or why it was not done.
        code: u32,
        /// The id of a queue, or 0.
        value: u32,
    },
    /// To an info.
    Info(&'a Counts),
}
