//! The words of a schedule.

ghost use Rattle.std.specs.Prelude.{◌≡◌};
ghost use Rattle.std.specs.List.{position};
ghost use Rattle.schedules.specs.Events.{count_of, digits_before, event_of, is_mark, seat_event_of};

use crate::kinds::{KINDS, kind_named};
use crate::split::is_word;
use crate::values::{number, seat};
use std::fmt;
use std::fmt::{Display, Formatter};
use step_rules::Kind;

/// The greatest number of events that one word asks for.
pub const MAX_COUNT: u32 = 1_000_000;

/// What one word of a schedule asks for.
#[derive(Clone, Copy)]
pub enum Event {
    /// `N` or `N:K`: so many times, one or K, the next line of the seat is begun where it is idle,
    /// and else one step of it is made.
    Steps {
        /// The seat, 1 to 64.
        seat: u8,
        /// How often, 1 to `MAX_COUNT`.
        count: u32,
    },
    /// `N!`: where the seat is idle its next line is begun; then it is driven for as long as it
    /// moves.
    Drive {
        /// The seat, 1 to 64.
        seat: u8,
    },
    /// `N@KIND`: the same step by step, up to the first step of this kind.
    Until {
        /// The seat, 1 to 64.
        seat: u8,
        /// The kind.
        kind: Kind,
    },
    /// `stop`: from here on no call waits.
    Stop,
}

/// What could stand in the place of a wrong word.
#[derive(Clone, Copy)]
pub enum Expected {
    /// Any word.
    Word,
    /// Behind a seat and `:`, how often.
    Count,
    /// Behind a seat and `@`, a kind of step.
    Kind,
}

impl Expected {
    /// What could stand in the place of this word.
    pub fn of(word: &[u8]) -> Expected {
        let (digits, rest) = word.split_at(digits_before(word));
        match rest {
            [b':', ..] if seat(digits).is_some() => Expected::Count,
            [b'@', ..] if seat(digits).is_some() => Expected::Kind,
            _ => Expected::Word,
        }
    }
}

impl Display for Expected {
    fn fmt<W: fmt::Write>(&self, f: &mut Formatter<W>) -> fmt::Result {
        match self {
            Expected::Word => f.write_str(
                "SEAT, a number from 1 to 64, with :K, !, @KIND or nothing behind it; or stop",
            ),
            Expected::Count => f.write_str("SEAT:K, where K is a number from 1 to 1000000"),
            Expected::Kind => {
                f.write_str("SEAT@KIND, where KIND is one of")?;
                for kind in &KINDS {
                    write!(f, " {}", kind.name())?;
                }
                Ok(())
            }
        }
    }
}

/// What a word asks for, if the grammar has it.
pub(crate) fn event_in(word: &[u8]) -> Option<Event>
    ensures { result ≡ event_of word.now }
{
    if is_word(word, b"stop") {
        return Some(Event::Stop);
    }
    let (digits, rest) = word.split_at(digits_before(word));
    seat_event(digits, rest)
}

/// How many decimal digits a word begins with.
fn digits_before(word: &[u8]) -> usize
    ensures { result ≡ digits_before word.now }
{
    first_mark(word).unwrap_or(word.len())
}

/// Where the first byte stands that is no decimal digit.
fn first_mark(word: &[u8]) -> Option<usize>
    ensures { result ≡ position is_mark word.now }
{
    word.iter().position(|byte| is_mark(*byte))
}

/// Whether a byte is no decimal digit.
fn is_mark(byte: u8) -> bool
    ensures { result ≡ is_mark byte }
{
    !byte.is_ascii_digit()
}

/// What is asked for of the seat that the digits spell, by what stands behind them.
fn seat_event(digits: &[u8], rest: &[u8]) -> Option<Event>
    ensures { result ≡ seat_event_of digits.now rest.now }
{
    let seat = seat(digits)?;
    match rest {
        [] => Some(Event::Steps { seat, count: 1 }),
        [b':', count_word @ ..] => Some(Event::Steps {
            seat,
            count: count(count_word)?,
        }),
        [b'!'] => Some(Event::Drive { seat }),
        [b'@', name @ ..] => Some(Event::Until {
            seat,
            kind: kind_named(name)?,
        }),
        _ => None,
    }
}

/// A number from 1 to `MAX_COUNT`.
fn count(word: &[u8]) -> Option<u32>
    ensures { result ≡ count_of word.now }
{
    let count = number(word)?;
    if 1 <= count && count <= MAX_COUNT {
        Some(count)
    } else {
        None
    }
}
