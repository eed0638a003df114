//! What a call has come to at its Decide.

use call_writes::{Due, Settled};

/// What a call has come to at its Decide, and how far its trials are, which rest, and are carried
/// out further after it.
#[derive(Drop)]
pub struct Decided {
    /// What it comes to by the rules; none where a record that it was to insert on trial had no
    /// room, which is fault 50.
    pub settled: Option<Settled>,
    /// What of its trials is due: all stand, or those before the one that had no room, which are to
    /// go again.
    pub due: Due,
}
