//! What a call knows of all systems that it can't tell from one another.

ghost use Rattle.std.specs.Prelude.{◌≡◌, ◌≢◌, ℕ, List, OnErr, OnOk, Some, ◌<◌};
ghost use Rattle.type_chains.specs.page_locks.declared.lock.LockName.{LockName};
ghost use Rattle.queue_model.specs.declared.answer.Answer.{Answer};
ghost use Rattle.queue_model.specs.declared.call.Call.{Call};
ghost use Rattle.queue_model.specs.declared.caller.Caller.{Caller};
ghost use Rattle.queue_model.specs.Rules.{outcome};
ghost use Rattle.queue_model.specs.State.{State};
ghost use Rattle.type_chains.specs.Others.{queue_of};
ghost use Rattle.xsi_inquiry.specs.Agreeing.{AgreeOnId, IsCovered, IsSoNear};
ghost use Rattle.xsi_inquiry.specs.Rooms.{Roomful};
ghost use Rattle.xsi_inquiry.specs.Telling.{AsksGiven, AsksRecord, Gives, IsFiled, IsTold, IsToldGiven};

use crate::inquiry::{Inquiry, NotASystem};
use crate::room::Room;
use type_chains::queue_records::Record;

/// Tells a call the record that it asked for under names that it holds. What it knew of each system
/// that it could not tell from s it knows of each such system afterwards too. It stands in whoever
/// tells, where the kind of the record is known.
#[inline(always)]
pub fn tell<I: Inquiry>(
    inquiry: &mut I,
    arguments: &I::Arguments,
    found: Option<Record<'_>>,
    room: &mut Room,
) -> Result<(), NotASystem>
    requires { AsksRecord (I.wanted arguments.now inquiry.old) }
    ensures told { (names : List LockName) (s : State) → IsFiled s →
        IsCovered names (I.wanted arguments.now inquiry.old) →
        IsSoNear (I.call arguments.now) names (I.Knows arguments.now inquiry.old room.old) s →
        IsTold s (I.wanted arguments.now inquiry.old) found.entry →
        Gives result (λ _. IsSoNear (I.call arguments.now) names
        (I.Knows arguments.now inquiry.new room.new) s) }
    ensures fewer { OnOk result
        (I.left arguments.now inquiry.new < I.left arguments.now inquiry.old) }
    ensures follows { OnOk result (I.Follows arguments.now inquiry.old inquiry.new) }
    ensures err { OnErr result ((inquiry.new ≡ inquiry.old) × (room.new ≡ room.old)) }
    ensures caller { I.caller inquiry.new ≡ I.caller inquiry.old }
    ensures most { room.new.most ≡ room.old.most }
{
    inquiry.take(arguments, found, room)
}

/// Tells a call so whether the id that it asked for was given out.
pub fn tell_given<I: Inquiry>(
    inquiry: &mut I,
    arguments: &I::Arguments,
    given: bool,
) -> Result<(), NotASystem>
    ensures told { (names : List LockName) (room : Roomful) (s : State) → IsFiled s →
        IsSoNear (I.call arguments.now) names (I.Knows arguments.now inquiry.old room) s →
        AsksGiven (I.wanted arguments.now inquiry.old) →
        IsToldGiven s (I.wanted arguments.now inquiry.old) given →
        Gives result (λ _. IsSoNear (I.call arguments.now) names
        (I.Knows arguments.now inquiry.new room) s) }
    ensures fewer { OnOk result
        (I.left arguments.now inquiry.new < I.left arguments.now inquiry.old) }
    ensures follows { OnOk result (I.Follows arguments.now inquiry.old inquiry.new) }
    ensures err { OnErr result (inquiry.new ≡ inquiry.old) }
    ensures caller { I.caller inquiry.new ≡ I.caller inquiry.old }
{
    inquiry.take_given(arguments, given)
}

/// Others that are answered on other queues leave what a call on an id can tell.
pub fn others_leave_an_id()
    ensures { (id : ℕ) (c : Caller) (call : Call) (a : Answer) (s t : State) →
        id ≢ queue_of call s → outcome c call s ≡ Some (a, t) → AgreeOnId id s t }
{}
