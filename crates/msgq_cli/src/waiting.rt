//! How long a command waits, as its words say it.

ghost use Rattle.std.specs.Prelude.{◌≡◌, position};
ghost use Rattle.msgq_cli.specs.Waiting.{is_point, milliseconds_of, thousandths_of};

use schedules::number;
use std::alloc::{AllocError, Global};
use std::time::Duration;

/// What a word of seconds is.
pub const WRONG_SECONDS: &str =
    "number of seconds, decimal digits and at most three behind a point, as 5 or 0.5";

/// The time that a word of seconds says.
pub fn wait_of(word: &[u8]) -> Option<Duration> {
    Some(Duration::from_millis(milliseconds(word)?))
}

/// The words of a command line, in which the seconds of a wait are one word with its option: a
/// number of seconds behind `--wait` or `-w` belongs to it. Behind `--` no word is an option.
pub fn with_waits(alloc: Global, words: Vec<String>) -> Result<Vec<String>, AllocError> {
    let mut joined: Vec<String> = Vec::new(alloc);
    let mut waits = false;
    let mut has_ended = false;
    for word in words {
        let text = word.as_str();
        let is_value = waits && milliseconds(text.as_bytes()).is_some();
        has_ended |= text == "--";
        waits = !has_ended && (text == "--wait" || text == "-w");
        add_word(&mut joined, word, is_value)?;
    }
    Ok(joined)
}

/// Adds a word, or joins it to the last one where it is the value of that.
fn add_word(words: &mut Vec<String>, word: String, is_value: bool) -> Result<(), AllocError> {
    if !is_value {
        words.push(word)?;
        return Ok(());
    }
    let Some(option) = words.last_mut() else {
        return Ok(());
    };
    option.push_str("=")?;
    option.push_str(word.as_str())
}

/// The thousandths of a second that a word of seconds says.
fn milliseconds(word: &[u8]) -> Option<u64>
    ensures { result ≡ milliseconds_of word.now }
{
    match point_in(word) {
        Some(point) => {
            let whole = number(&word[..point])?;
            let part = thousandths(&word[point + 1..])?;
            Some(1000 * u64::from(whole) + u64::from(part))
        }
        None => Some(1000 * u64::from(number(word)?)),
    }
}

/// Where the point of a word stands.
fn point_in(word: &[u8]) -> Option<usize>
    ensures { result ≡ position is_point word.now }
{
    word.iter().position(|byte| *byte == b'.')
}

/// The thousandths that one to three digits behind a point are.
fn thousandths(digits: &[u8]) -> Option<u64>
    ensures { result ≡ thousandths_of digits.now }
{
    match digits {
        [_] => Some(100 * u64::from(number(digits)?)),
        [_, _] => Some(10 * u64::from(number(digits)?)),
        [_, _, _] => Some(u64::from(number(digits)?)),
        _ => None,
    }
}
