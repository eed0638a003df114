//! A limit of time.

use std::time::{Clock, Duration, Instant};

/// A limit of time for a call, from the moment at which it was begun; none is known where the clock
/// can't be read.
#[derive(Clone, Copy, Drop)]
pub(crate) struct Limit {
    start: Option<Instant>,
    most: Duration,
}

impl Limit {
    /// So long from now on.
    pub(crate) fn new(clock: &impl Clock, most: Duration) -> Limit {
        Limit {
            start: Instant::now(clock).ok(),
            most,
        }
    }

    /// How much of it is left; none once it is over, or where the clock can't be read.
    pub(crate) fn left(&self, clock: &impl Clock) -> Option<Duration> {
        let left = self.most.checked_sub(self.start?.elapsed(clock).ok()?)?;
        if left.is_zero() { None } else { Some(left) }
    }
}
