//! How a call asks for records and decides on them.

ghost use Rattle.std.specs.Prelude.{◌≡◌, ◌<◌, ◌≤◌, ℕ, Bool, List, Option, None, Result, OnErr, OnOk, slice_get, slice_index_or};
ghost use Rattle.type_chains.specs.page_locks.declared.lock.LockName.{LockName};
ghost use Rattle.queue_model.specs.declared.call.Call.{Call};
ghost use Rattle.queue_model.specs.declared.caller.Caller.{Caller};
ghost use Rattle.queue_model.specs.State.{State};
ghost use Rattle.type_chains.specs.queue_records.declared.record.Record.{Record};
ghost use Rattle.xsi_inquiry.specs.declared.decision.Decision.{Decision};
ghost use Rattle.xsi_inquiry.specs.declared.inquiry.NotASystem.{NotASystem};
ghost use Rattle.xsi_inquiry.specs.declared.wanted.Wanted.{Wanted};
ghost use Rattle.xsi_inquiry.specs.Agreeing.{AgreesFor, IsCovered};
ghost use Rattle.xsi_inquiry.specs.Deciding.{Decides, InsertsOnlyFor};
ghost use Rattle.xsi_inquiry.specs.Rooms.{HasRoom, Roomful};
ghost use Rattle.xsi_inquiry.specs.Telling.{AsksGiven, AsksRecord, Gives, IsFiled, IsTold, IsToldGiven, most_asked};
ghost use Rattle.xsi_inquiry.specs.Writing.{IsSmall, Plan};

use crate::decision::Decision;
use crate::room::Room;
use crate::wanted::Wanted;
use crate::write::Write;
use queue_model::Caller;
use thiserror::Error;
use type_chains::queue_records::Record;

/// What was told are not the records of a system.
#[derive(Clone, Copy, Debug, PartialEq, Eq, Error)]
#[error("the records are not those of a system")]
pub struct NotASystem;

/// A call that asks for records, one at a time, and then decides. What the call was given, and
/// the room for what it receives, are lent to it each time: it borrows nothing, keeps no body,
/// and takes no memory.
pub trait Inquiry {
    /// What the call is given.
    type Arguments;

    /// Who calls.
    ghost caller: { Self → Caller };

    /// The call.
    ghost call: { Self.Arguments → Call };

    /// What it asks for next; none where it can decide.
    ghost wanted: { Self.Arguments → Self → Option Wanted };

    /// The names that it holds Exclusive where it decides.
    ghost locked: { Self.Arguments → Self → List LockName };

    /// What it was told, and holds in its room, is so of the records of a system.
    ghost Knows: { Self.Arguments → Self → Roomful → State → Type 0 };

    /// Where it may come to, from where it is, once it was told an answer.
    ghost Follows: { Self.Arguments → Self → Self → Type 0 };

    /// At most as many questions are still asked.
    ghost left: { Self.Arguments → Self → ℕ };

    /// What it decides where it asks for nothing more. The stop mark is no part of it.
    ghost decided: { Self.Arguments → Self → Result Decision NotASystem };

    /// What it writes then.
    ghost plan: { Self.Arguments → Self → Plan };

    /// Nothing is told yet.
    fn begin(by: Caller, arguments: &Self::Arguments) -> Self
        ensures caller { caller result ≡ by }
        ensures knows { (room : Roomful) (s : State) → HasRoom (call arguments.now) room →
            Knows arguments.now result room s }
        ensures few { left arguments.now result ≤ most_asked (call arguments.now) };

    /// What it asks for, or none where it can decide.
    fn wants(&self, arguments: &Self::Arguments) -> Option<Wanted>
        ensures { result ≡ wanted arguments.now self.now };

    /// Tells it the record at that key, or that there is none. The bytes of a message that it
    /// receives are copied into the room. After an error it stands where it stood.
    fn take(
        &mut self,
        arguments: &Self::Arguments,
        found: Option<Record<'_>>,
        room: &mut Room,
    ) -> Result<(), NotASystem>
        requires { AsksRecord (wanted arguments.now self.old) }
        ensures told { (s : State) → IsFiled s → Knows arguments.now self.old room.old s →
            IsTold s (wanted arguments.now self.old) found.entry →
            Gives result (λ _. Knows arguments.now self.new room.new s) }
        ensures fewer { OnOk result (left arguments.now self.new < left arguments.now self.old) }
        ensures follows { OnOk result (Follows arguments.now self.old self.new) }
        ensures err { OnErr result ((self.new ≡ self.old) × (room.new ≡ room.old)) }
        ensures caller { caller self.new ≡ caller self.old }
        ensures most { room.new.most ≡ room.old.most };

    /// Tells it whether that id is below the next id. After an error it stands where it stood.
    fn take_given(&mut self, arguments: &Self::Arguments, given: bool) -> Result<(), NotASystem>
        ensures told { (room : Roomful) (s : State) → IsFiled s →
            Knows arguments.now self.old room s →
            AsksGiven (wanted arguments.now self.old) →
            IsToldGiven s (wanted arguments.now self.old) given →
            Gives result (λ _. Knows arguments.now self.new room s) }
        ensures fewer { OnOk result (left arguments.now self.new < left arguments.now self.old) }
        ensures follows { OnOk result (Follows arguments.now self.old self.new) }
        ensures err { OnErr result (self.new ≡ self.old) }
        ensures caller { caller self.new ≡ caller self.old };

    /// The decision, where it asks for nothing more.
    fn decide(&self, arguments: &Self::Arguments) -> Result<Decision, NotASystem>
        requires { wanted arguments.now self.now ≡ None }
        ensures value { result ≡ decided arguments.now self.now }
        ensures right { (room : Roomful) (s : State) → IsFiled s →
            Knows arguments.now self.now room s →
            Gives result (λ decision. Decides (caller self.now) (call arguments.now)
            (locked arguments.now self.now) room.bytes s decision (plan arguments.now self.now)) };

    /// The record that is inserted on trial at this place, lent by the call; none behind the
    /// last. Where one does not fit its bucket, those before it are deleted again and the call
    /// is the fault 50.
    fn trial<'a>(&self, arguments: &'a Self::Arguments, place: usize) -> Option<Record<'a>>
        ensures { result ≡ slice_get (plan arguments.now self.now).trials place };

    /// The write in this slot, where there is one. They follow the decision in the
    /// order of their slots.
    fn write(&self, arguments: &Self::Arguments, slot: usize) -> Option<Write>
        ensures { result ≡ slice_index_or (plan arguments.now self.now).slots slot None };

    /// What it asks for under names that it holds is the same in systems that agree at them.
    ghost asks: { (a : Self.Arguments) (i : Self) (names : List LockName)
        (s t : State) (found : Option Record) →
        IsCovered names (wanted a i) → AgreesFor (call a) names s t →
        IsTold s (wanted a i) found → IsTold t (wanted a i) found };

    ghost asks_given: { (a : Self.Arguments) (i : Self) (names : List LockName)
        (s t : State) (given : Bool) → AgreesFor (call a) names s t →
        IsToldGiven s (wanted a i) given → IsToldGiven t (wanted a i) given };

    /// It writes little.
    ghost few: { (a : Self.Arguments) (i : Self) → IsSmall (plan a i) };

    /// What it inserts is a new queue's, or a message that is sent.
    ghost inserts: { (a : Self.Arguments) (i : Self) → InsertsOnlyFor (decided a i) (plan a i) };
}
