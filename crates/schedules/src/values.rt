//! Numbers, keys, modes and bodies as words.

ghost use Rattle.std.specs.Prelude.{◌≡◌, IfSome};
ghost use Rattle.std.specs.Char.{is_ascii_digit};
ghost use Rattle.std.specs.List.{list_all};
ghost use Rattle.schedules.specs.Numbers.{number_of, without_minus, signed_of, IsSeat, seat_of};
ghost use Rattle.schedules.specs.Numbers.{key_of, octal_of, mode_of, body_of};
ghost use Rattle.schedules.specs.Reading.{Gives};

use crate::hexadecimal::spelled;
use crate::refusal::Refusal;
use crate::split::is_word;
use queue_model::Body;
use std::alloc::Global;
use std::str;

/// Seats are the numbers from 1 to this one.
pub const SEATS: u32 = 64;

/// Whether decimal digits alone stand in a word.
fn is_digits(word: &[u8]) -> bool
    ensures { result ≡ list_all is_ascii_digit word.now }
{
    word.iter().all(|byte| byte.is_ascii_digit())
}

/// A number of 32 bits. It has no sign; zeros may lead it.
pub fn number(word: &[u8]) -> Option<u32>
    ensures { result ≡ number_of word.now }
{
    if !is_digits(word) {
        return None;
    }
    let Ok(text) = str::from_utf8(word) else {
        return None;
    };
    text.parse().ok()
}

/// A number of 64 bits, with a `-` in front where it is negative.
pub fn signed(word: &[u8]) -> Option<i64>
    ensures { result ≡ signed_of word.now }
{
    if !is_digits(without_minus(word)) {
        return None;
    }
    let Ok(text) = str::from_utf8(word) else {
        return None;
    };
    text.parse().ok()
}

/// What stands behind a `-`, or the word where none is in front.
fn without_minus(word: &[u8]) -> &[u8]
    ensures { result.now ≡ without_minus word.now }
{
    match word {
        [b'-', digits @ ..] => digits,
        _ => word,
    }
}

/// The number of a seat.
pub fn seat(word: &[u8]) -> Option<u8>
    ensures value { result ≡ seat_of word.now }
    ensures within { IfSome result IsSeat }
{
    let seat = number(word)?;
    if 1 <= seat && seat <= SEATS {
        Some(seat as u8)
    } else {
        None
    }
}

/// A key, or none for a private queue.
pub fn key(word: &[u8]) -> Option<Option<u32>>
    ensures { result ≡ key_of word.now }
{
    if is_word(word, b"private") {
        return Some(None);
    }
    Some(Some(number(word)?))
}

/// The value of an octal digit.
fn octal(digit: u8) -> Option<u16>
    ensures { result ≡ octal_of digit }
{
    match digit {
        b'0'..=b'7' => Some(u16::from(digit - b'0')),
        _ => None,
    }
}

/// A mode of three octal digits: the owner's, the group's and that of others.
pub fn mode(word: &[u8]) -> Option<u16>
    ensures { result ≡ mode_of word.now }
{
    let [owner, group, others] = word else {
        return None;
    };
    Some(64 * octal(*owner)? + 8 * octal(*group)? + octal(*others)?)
}

/// A body of any length: pairs of hexadecimal digits, or `-` for the empty one.
pub fn body(alloc: Global, word: &[u8]) -> Result<Body, Refusal>
    ensures { Gives result (body_of word.now) }
{
    if is_word(word, b"-") {
        return Ok(Body::new(Vec::new(alloc)));
    }
    if word.is_empty() {
        return Err(Refusal::Wrong);
    }
    spelled(alloc, word)
}
