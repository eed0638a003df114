//! Locks on names, which seats hold in three kinds: a table of what each seat was granted.
//! Whatever two seats hold of one name goes together, and a lock is refused only for such a reason.

#![tactic(auto)]

mod grant;
mod holders;
mod laws;
mod lock;
mod lock_table;
mod row;
mod slot;
mod slots;

pub use grant::{Attempt, Grant};
pub use laws::{changes_are_local, names_differ};
pub use lock::{Lock, LockKind, LockName};
pub use lock_table::{LockTable, MAX_SEATS};
pub use numbers::faults;
pub use numbers::faults::NoMemory;
pub use row::MAX_LOCKS;
