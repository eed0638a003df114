//! Schedules.

ghost use Rattle.std.specs.Prelude.{◌≡◌, ℕ, IfOk, Ok, Err};
ghost use Rattle.schedules.specs.declared.schedule.ScheduleError.TheVariants.{WrongWord};
ghost use Rattle.schedules.specs.Schedules.{schedule_of, schedule_words};
ghost use Rattle.schedules.specs.Words.{texts};

use crate::event::{Event, event_in};
use std::alloc::{AllocError, AllocFailed, Global};
use thiserror::Error;

/// Why a schedule is not read.
#[derive(Clone, Copy, Debug, PartialEq, Eq, Error)]
pub enum ScheduleError {
    /// The grammar does not have this word, and has all words before it. Words count from 1.
    #[error("schedule word {word}")]
    WrongWord {
        /// Its number.
        word: u64,
    },
    /// A growth was refused (fault 60).
    #[error("no memory")]
    NoMemory,
}

impl From<AllocError> for ScheduleError {
    ghost use Rattle.std.specs.Prelude.{◌≡◌};
    ghost use Rattle.schedules.specs.declared.schedule.ScheduleError.TheVariants.{NoMemory};

    ghost from_gives = { λ _ fault. fault ≡ NoMemory };

    fn from(_: AllocError) -> ScheduleError {
        ScheduleError::NoMemory
    }
}

impl<T: Drop> From<AllocFailed<T>> for ScheduleError {
    ghost use Rattle.std.specs.Prelude.{◌≡◌};
    ghost use Rattle.schedules.specs.declared.schedule.ScheduleError.TheVariants.{NoMemory};

    ghost from_gives = { λ _ fault. fault ≡ NoMemory };

    fn from(_: AllocFailed<T>) -> ScheduleError {
        ScheduleError::NoMemory
    }
}

/// Reads a schedule: what the grammar gives, or the first wrong word.
pub fn read_schedule(alloc: Global, bytes: &[u8]) -> Result<Vec<Event>, ScheduleError>
    ensures ok { IfOk result (λ events. schedule_of bytes.now ≡ Ok events.items) }
    ensures wrong { (word : ℕ) → result ≡ Err (WrongWord word) → schedule_of bytes.now ≡ Err word }
{
    let words = schedule_words(alloc, bytes)?;
    let mut events = Vec::with_capacity(alloc, words.len())?;
    for (place, word) in words.iter().enumerate() {
        let Some(event) = event_in(word) else {
            return Err(ScheduleError::WrongWord {
                word: place as u64 + 1,
            });
        };
        events.push(event)?;
    }
    Ok(events)
}

/// The word of this number in a schedule; words count from 1.
pub fn word_at(alloc: Global, bytes: &[u8], number: u64) -> Option<&[u8]> {
    let words = schedule_words(alloc, bytes).ok()?;
    words
        .get(usize::try_from(number).ok()?.checked_sub(1)?)
        .copied()
}

/// What stands between spaces, tabs and line ends, in order.
fn schedule_words(alloc: Global, bytes: &[u8]) -> Result<Vec<&[u8]>, AllocError>
    ensures { IfOk result (λ words. texts words.items ≡ schedule_words bytes.now) }
{
    bytes
        .split(|&byte| matches!(byte, b' ' | b'\t' | b'\r' | b'\n'))
        .filter(|word| !word.is_empty())
        .collect(alloc)
}
