//! Bytes as pairs of hexadecimal digits.

ghost use Rattle.std.specs.Result.{result_ok};
ghost use Rattle.hex.specs.Hex.{decode_of};
ghost use Rattle.schedules.specs.Reading.{Gives};

use crate::refusal::Refusal;
use hex::FromHexError;
use queue_model::Body;
use std::alloc::Global;

/// The bytes that a word of digits of either case spells.
pub(crate) fn spelled(alloc: Global, word: &[u8]) -> Result<Body, Refusal>
    ensures { Gives result (result_ok (decode_of word.now)) }
{
    match hex::decode(alloc, word) {
        Ok(bytes) => Ok(Body::new(bytes)),
        Err(FromHexError::OutOfMemory) => Err(Refusal::NoMemory),
        Err(_) => Err(Refusal::Wrong),
    }
}
