//! Message queues as plain lists: the system, the rules of its calls, and journals of what was
//! answered. `System::apply` is the plain reference: every other crate is measured against it.

#![tactic(auto)]

mod answer;
mod body;
mod call;
mod caller;
mod entry;
mod errno;
mod lawful;
mod laws;
mod message;
mod permissions;
mod queue;
mod system;

pub use answer::{Answer, QueueInfo};
pub use body::Body;
pub use call::{Call, GetArguments, ReceiveArguments, SendArguments, SetArguments};
pub use caller::Caller;
pub use entry::Entry;
pub use errno::Errno;
pub use laws::{
    a_journal_determines_its_system, a_journal_grows_by_an_entry, a_lowest_type_is_selected,
    journals_are_first_in_first_out, journals_keep_systems_lawful, refusals_leave_the_system,
};
pub use message::{Message, Messages};
pub use numbers::faults::NoMemory;
pub use numbers::limits::{
    DEFAULT_QBYTES, END_OF_IDS, END_OF_SERIALS, MAX_BODY, MAX_MESSAGES, MAX_QBYTES, MAX_QUEUES,
    MODES, SUPERUSER,
};
pub use permissions::{Access, Permissions};
pub use queue::Queue;
pub use system::{Applied, System};
