//! What the relay and the core of a server say to one another, as bytes (docs/PROTOCOL.md): each
//! record is read exactly where it is one, and each answer is put as it is told.

#![tactic(auto)]

mod bytes;
mod calls;
mod codes;
mod frame;
mod head;
mod incoming;
mod laws;
mod little;
mod operations;
mod reading;
mod reply;
mod spelling;
mod telling;

pub use codes::{CANCELLED, DONE, ENDS, FAILED, NO_MEMORY, NO_ROOM, WRONG};
pub use incoming::{Incoming, Kind, Operation, Request, Unread};
pub use laws::a_record_is_of_one_incoming;
pub use little::{eight_at, put_eight};
pub use numbers::faults::NoMemory;
pub use reading::{MAX_RECORD, read, whole};
pub use reply::{Counts, Reply};
pub use spelling::{Asker, has_short_body, put_call};
pub use telling::{MAX_TOLD, put};
