//! What an insert comes to.

/// What an insert has come to.
#[derive(Clone, Copy, PartialEq, Eq)]
pub enum Tried {
    /// The record was put.
    IsPut,
    /// The key had a record.
    IsThere,
    /// Its bucket had no room.
    IsFull,
}
