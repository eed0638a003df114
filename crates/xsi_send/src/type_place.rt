//! Where the type of a message that is sent stands among the types of its queue.

/// What a Send read of the types of its queue.
#[derive(Clone, Copy)]
pub enum TypePlace {
    /// A message of the type stands on the queue; the last one of it has this serial.
    Standing(u64),
    /// None does: the next lower and the next higher type, where there are such.
    Between(Option<i64>, Option<i64>),
}
