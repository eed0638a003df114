//! What of a plan is due.

/// What of a plan is to be done next.
#[derive(Clone, Copy)]
pub enum Due {
    /// So many of the trials stand, and the next one is to be inserted.
    Trying(usize),
    /// So many of the trials stand, and the next one found no room.
    Full(usize),
    /// So many of the trials still stand, and are to be deleted, the last first.
    Undoing(usize),
    /// The writes of the slots from this one on are to be made.
    Writing(usize),
}
