//! How long a command waits, and what tells that FILE was written meanwhile.

use command_runs::Patience;
use std::time::{Duration, Instant, SystemTime, UNIX_EPOCH};
use std::{fs, io, thread};

/// So many seconds a command waits for its turn where another process changes FILE.
pub const TURN: u64 = 10;

/// So many milliseconds lie between two looks whether FILE was written.
const TICK: u64 = 20;

/// FILE is read again after so many ticks also where nothing tells that it was written: not every
/// system of files tells the moment of a write exactly.
const MOST_TICKS: u32 = 250;

/// So many times FILE is read at most.
pub const MOST_LOOKS: u64 = u64::MAX;

/// How long a command looks again.
pub fn patience_of(patience: Patience) -> Duration {
    match patience {
        Patience::None => Duration::ZERO,
        Patience::For(time) => time,
        Patience::Endless => Duration::MAX,
    }
}

/// How much time went by since then; where the clock can't be read, more than is ever waited.
pub fn spent_since(rt: &HostRuntime, start: Instant) -> Duration {
    start.elapsed(rt).unwrap_or(Duration::MAX)
}

/// The seconds of the clock since the beginning of 1970.
pub fn moment(rt: &HostRuntime) -> io::Result<u64> {
    let now = SystemTime::now(rt)?;
    Ok(
        now.duration_since(UNIX_EPOCH)
            .map_or(0, |since| since.as_secs()),
    )
}

/// Sleeps between two looks whether FILE was written.
pub fn sleep_a_tick(rt: &HostRuntime) {
    thread::sleep(rt, Duration::from_millis(TICK));
}

/// Sleeps until FILE was written since this stamp, or for as long as is left; and not for long.
pub fn await_write(rt: &HostRuntime, file: &str, before: Option<Stamp>, left: Duration) {
    let mut left = left;
    for _ in 0..MOST_TICKS {
        let nap = left.min(Duration::from_millis(TICK));
        thread::sleep(rt, nap);
        left = left.saturating_sub(nap);
        if left.is_zero() || Stamp::of(rt, file) != before {
            return;
        }
    }
}

/// What tells that a file was written.
#[derive(Clone, Copy, PartialEq, Eq)]
pub struct Stamp {
    length: u64,
    written: SystemTime,
}

impl Stamp {
    /// That of a file, where there is one.
    pub fn of(rt: &HostRuntime, file: &str) -> Option<Stamp> {
        let found = fs::metadata(rt, file).ok()?;
        Some(Stamp {
            length: found.len(),
            written: found.modified().ok()?,
        })
    }
}
