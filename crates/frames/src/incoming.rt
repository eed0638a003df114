//! What the relay tells the core.

use queue_model::{Call, Caller};
use thiserror::Error;

/// A record of the relay's.
#[derive(Drop)]
pub struct Incoming {
    /// The relay's number of the connection, never used again.
    pub connection: u32,
    /// The process at its other end.
    pub caller: Caller,
    /// What is told.
    pub kind: Kind,
}

/// What a record tells.
#[derive(Drop)]
pub enum Kind {
    /// A frame of the client's.
    Request(Request),
    /// The connection is gone.
    Gone,
    /// It is time to save.
    Tick,
    /// The server ends.
    End,
}

/// A frame of a client's.
#[derive(Drop)]
pub struct Request {
    /// The client's own number of it.
    pub number: u32,
    /// What it asks for.
    pub operation: Operation,
}

/// What a client asks for.
#[derive(Drop)]
pub enum Operation {
    /// A call, at the moment at which the core heard it.
    Call(Call),
    /// The lowest id above one that has a queue.
    Next {
        /// The id.
        after: u32,
    },
    /// The id of the queue at a place among all that are alive, by their ids.
    Nth {
        /// The place, from 0 on.
        place: u32,
    },
    /// To be told once all that was decided before is on the disk.
    Save,
    /// The server's counts.
    Info,
    /// To end the wait of a request.
    Cancel {
        /// The number of that request.
        number: u32,
    },
    /// To take a message into a holding queue.
    Reserve {
        /// The queue.
        id: u32,
        /// Selects the message, as in a receive.
        mtype: i64,
        /// Refuse in place of waiting.
        nowait: bool,
    },
    /// To remove a holding queue, with its message.
    Acknowledge {
        /// The holding queue.
        id: u32,
    },
    /// To send the message of a holding queue to its queue again.
    Release {
        /// The holding queue.
        id: u32,
    },
}

/// Why a record was not read.
#[derive(Clone, Copy, Debug, PartialEq, Eq, Error)]
pub enum Unread {
    /// The relay's record is none: shorter than its head, not as long as it says, of no kind that
    /// there is, or with less or more behind its head than its kind has.
    #[error("the record of the relay is none")]
    Broken,
    /// The frame of the client is none.
    #[error("frame {number} of connection {connection} is wrong")]
    Wrong {
        /// Whose frame it is.
        connection: u32,
        /// The client's number of it.
        number: u32,
    },
    /// There is no memory for the body that the frame sends.
    #[error("no memory for frame {number} of connection {connection}")]
    NoMemory {
        /// Whose frame it is.
        connection: u32,
        /// The client's number of it.
        number: u32,
    },
}
