//! What a server says of its own.

use durable_desk::desk::session::Unanswered;
use durable_desk::desk::session::queue_model::{Errno, Message};
use frames::{Counts, FAILED, NO_MEMORY, NO_ROOM};

/// What a client is told that is not what the rules answer to its call.
#[derive(Drop)]
pub enum Note {
    /// How a request ended that is no call.
    Code {
        /// 0 where it is done, or why not (docs/PROTOCOL.md, "Answers").
        code: u32,
        /// The id of a queue, or 0.
        value: u32,
    },
    /// The message that was reserved.
    Held {
        /// The holding queue.
        queue: u32,
        /// The message in it.
        message: Message,
    },
    /// What the server tells of itself.
    Counts(Counts),
}

impl Note {
    /// That it is done, or why it is not.
    pub fn code(code: u32) -> Note {
        Note::Code { code, value: 0 }
    }
}

/// The code of why a call is not answered.
pub fn code_of(why: Unanswered) -> u32 {
    match why {
        // (what the server asks for itself does not wait)
        Unanswered::Waits => refusal_code(Errno::EAGAIN),
        Unanswered::NoRoom => NO_ROOM,
        Unanswered::NoMemory => NO_MEMORY,
        Unanswered::Failed => FAILED,
    }
}

/// The code of a refusal by the rules.
pub fn refusal_code(errno: Errno) -> u32 {
    errno.number() as u32
}
