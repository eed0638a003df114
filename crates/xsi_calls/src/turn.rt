//! What a call does with names.

use page_locks::Lock;

/// What a call does with names before it asks, inserts or writes.
#[derive(Clone, Copy)]
pub enum NameTurn {
    /// It holds the first of the names that it needs, or none: this is the next one.
    Take(Lock),
    /// What it holds does not begin the names that it needs: it gives the last one back.
    GiveBack,
    /// It holds exactly the names that it needs.
    Ready,
}
