//! The writes of a call, in the order of their slots.

ghost use Rattle.std.specs.Prelude.{◌≡◌, MatchOption, []};
ghost use Rattle.xsi_inquiry.specs.Slots.{IsNextWrite, writes_left};

use crate::inquiry::Inquiry;
use crate::write::{MAX_WRITES, Write};

/// The next slot from this one on that is not empty, with its write; none where no write is left.
pub fn next_write<I: Inquiry>(
    inquiry: &I,
    arguments: &I::Arguments,
    from: usize,
) -> Option<(usize, Write)>
    ensures { MatchOption result
        (writes_left (I.plan arguments.now inquiry.now) from ≡ [])
        (λ next. IsNextWrite (I.plan arguments.now inquiry.now) from next.0 next.1) }
{
    for slot in from..MAX_WRITES {
        if let Some(write) = inquiry.write(arguments, slot) {
            return Some((slot, write));
        }
    }
    None
}
