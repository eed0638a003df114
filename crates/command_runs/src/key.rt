//! How a queue is named on a command line.

ghost use Rattle.std.specs.Prelude.{◌≡◌};
ghost use Rattle.command_runs.specs.Keys.{digit_of, hexadecimal_of, queue_name_of, with_digit};

use queue_commands::QueueName;
use schedules::number;

/// The queue that a word names: its key, decimal or behind `0x` hexadecimal; or behind `@` its id.
pub fn queue_name(word: &[u8]) -> Option<QueueName>
    ensures { result ≡ queue_name_of word.now }
{
    match word {
        [b'@', id @ ..] => Some(QueueName::Id(number(id)?)),
        [b'0', b'x', digits @ ..] => Some(QueueName::Key(hexadecimal(digits)?)),
        _ => Some(QueueName::Key(number(word)?)),
    }
}

/// A number of 32 bits in hexadecimal digits of either case, at least one.
fn hexadecimal(word: &[u8]) -> Option<u32>
    ensures { result ≡ hexadecimal_of word.now }
{
    if word.is_empty() {
        return None;
    }
    let mut value = Some(0);
    for digit in word {
        value = with_digit(value, *digit);
    }
    value
}

/// The number with one digit more, where it still has 32 bits.
fn with_digit(value: Option<u32>, digit: u8) -> Option<u32>
    ensures { result ≡ with_digit value digit }
{
    let value = value?;
    let digit = digit_of(digit)?;
    if value < 1 << 28 {
        Some(16 * value + u32::from(digit))
    } else {
        None
    }
}

/// The value of a hexadecimal digit.
fn digit_of(digit: u8) -> Option<u8>
    ensures { result ≡ digit_of digit }
{
    match digit {
        b'0'..=b'9' => Some(digit - b'0'),
        b'a'..=b'f' => Some(digit - b'a' + 10),
        b'A'..=b'F' => Some(digit - b'A' + 10),
        _ => None,
    }
}
