//! What a seat is told that asks for a lock.

/// The answer to a seat that asks for a lock.
#[derive(Clone, Copy, PartialEq, Eq)]
pub enum Grant {
    /// The seat holds the lock now.
    Granted,
    /// Nothing changed: this other seat holds the name in a kind that does not go with that one.
    Blocked(u8),
}

/// The answer, and how many slots were looked at for it.
#[derive(Clone, Copy)]
pub struct Attempt {
    /// What the seat is told.
    pub grant: Grant,
    /// The slots from the name's home to where it stood or was put, both counted.
    pub looked: u32,
}
