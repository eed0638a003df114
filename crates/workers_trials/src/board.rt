//! What threads show one another, and the trial.

use std::sync::atomic::AtomicU64;
use std::sync::atomic::Ordering::SeqCst;
use std::thread;
use std::time::{Clock, Duration};

/// How often a flag is looked at until it is up, with a millisecond between.
pub const LOOKS: u32 = 20_000;

/// Flags, each a bit, and what calls were told beside answers.
#[derive(Drop)]
pub struct Board {
    up: AtomicU64,
    failed: AtomicU64,
    taken_back: AtomicU64,
}

impl Board {
    /// All flags are down, and nothing was told.
    pub fn new() -> Board {
        Board {
            up: AtomicU64::new(0),
            failed: AtomicU64::new(0),
            taken_back: AtomicU64::new(0),
        }
    }

    /// From now on these flags are up.
    pub fn raise(&self, flags: u64) {
        self.up.fetch_or(flags, SeqCst);
    }

    /// Whether all of these flags are up.
    pub fn is_up(&self, flags: u64) -> bool {
        self.up.load(SeqCst) & flags == flags
    }

    /// Whether they are up before so many looks, with a millisecond between.
    pub fn comes_up(&self, clock: &impl Clock, flags: u64, looks: u32) -> bool {
        for _ in 0..looks {
            if self.is_up(flags) {
                return true;
            }
            thread::sleep(clock, Duration::from_millis(1));
        }
        false
    }

    /// A seat was told that a step has failed.
    pub fn note_failure(&self, seat: u8) {
        self.failed.fetch_max(u64::from(seat), SeqCst);
    }

    /// The greatest seat that was told that a step has failed, or 0.
    pub fn last_failed(&self) -> u64 {
        self.failed.load(SeqCst)
    }

    /// A call was taken back, as it was, once its time was over.
    pub fn note_taken_back(&self) {
        self.taken_back.fetch_add(1, SeqCst);
    }

    /// How many calls were taken back.
    pub fn taken_back(&self) -> u64 {
        self.taken_back.load(SeqCst)
    }
}
