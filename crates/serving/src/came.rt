//! What came of a call that the server makes for itself, in short.

use crate::note::{code_of, refusal_code};
use durable_desk::desk::session::Unanswered;
use durable_desk::desk::session::queue_model::{Answer, Errno};
use frames::{DONE, ENDS};

/// What of an answer it goes on by.
#[derive(Clone, Copy)]
pub enum Came {
    /// The id of a queue.
    Id(u32),
    Sent,
    Done,
    /// Something else, of which a client is told this code.
    Other(u32),
}

impl Came {
    /// What a client is told of the call.
    pub fn code(self) -> u32 {
        match self {
            Came::Other(code) => code,
            _ => DONE,
        }
    }
}

/// What came of a call.
pub fn came_of(reply: &Result<Answer, Unanswered>) -> Came {
    match reply {
        Ok(Answer::Id(id)) => Came::Id(*id),
        Ok(Answer::Sent(_)) => Came::Sent,
        Ok(Answer::Done) => Came::Done,
        // (the server has ended)
        Ok(Answer::Refused(Errno::EINTR)) => Came::Other(ENDS),
        Ok(Answer::Refused(errno)) => Came::Other(refusal_code(*errno)),
        Ok(_) => Came::Other(DONE),
        Err(unanswered) => Came::Other(code_of(*unanswered)),
    }
}
