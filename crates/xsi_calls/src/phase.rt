//! Where a call stands.

/// Where a call stands.
#[derive(Clone, Copy)]
pub(crate) enum Phase {
    /// It has not decided.
    Undecided,
    /// It has come to something, and pays what it owes.
    Paying,
    /// All is paid, and its names are given back.
    Releasing,
}
