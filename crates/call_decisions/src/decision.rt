//! The decision of a call.

ghost use Rattle.std.specs.Prelude.{◌≡◌, None};
ghost use Rattle.call_decisions.specs.Anything.{KnowsOf, asked_of, caller_of, decided_of, locked_of, plan_of};
ghost use Rattle.queue_model.specs.State.{State};
ghost use Rattle.xsi_inquiry.specs.Rooms.{Roomful};
ghost use Rattle.xsi_inquiry.specs.Telling.{Gives, IsFiled};
ghost use Rattle.call_decisions.specs.Settling.{IsRight};

use crate::any_inquiry::AnyInquiry;
use queue_model::Call;
use xsi_inquiry::{Decision, Inquiry, NotASystem};

/// What a call decides that asks for nothing more: for every system of which it was told the
/// records, what the rules say. It is known before the call inserts on trial, and stays so while it
/// does.
#[inline(always)]
pub fn decide(call: &Call, inquiry: &AnyInquiry) -> Result<Decision, NotASystem>
    requires { asked_of call.now inquiry.now ≡ None }
    ensures value { result ≡ decided_of call.now inquiry.now }
    ensures right { (room : Roomful) (s : State) → IsFiled s → KnowsOf call.now inquiry.now room s →
        Gives result (IsRight (caller_of inquiry.now) call.now (locked_of call.now inquiry.now)
        room.bytes s (plan_of call.now inquiry.now)) }
{
    inquiry.decide(call)
}
