//! A gate between two holds of the latch.

ghost use Rattle.std.specs.Prelude.{◌≤◌};

use step_rules::Kind;

/// How many steps a hold makes at most, whatever a gate says: a Send or a Receive is then of three
/// holds, and a call with one find is one.
pub const MOST_AT_ONCE: u32 = 32;

/// It is called after each hold in which a call moved, while the latch is free: what is done there
/// delays the seat of that call alone.
pub trait Gate {
    /// The call of this seat has moved, and its last step is of this kind.
    fn between(&self, seat: u8, kind: Kind);

    /// How many steps a hold makes at most: one, so that the calls of others come between any two.
    /// Where a gate says more, a hold ends from half as many on at the first step after which its
    /// seat holds neither the directory nor a page.
    fn steps_at_once(&self) -> u32
        ensures { (1 ≤ result) × (result ≤ MOST_AT_ONCE) }
    {
        1
    }
}

/// A gate that stands open.
#[derive(Clone, Copy, Drop, PartialEq, Eq)]
pub struct Open;

impl Gate for Open {
    fn between(&self, _seat: u8, _kind: Kind) {}
}
