//! A Receive as it asks for records.

ghost use Rattle.std.specs.Prelude.{◌≡◌, ◌<◌, None, OnErr, OnOk, Some};
ghost use Rattle.queue_model.specs.declared.errno.Errno.TheVariants.{EINVAL};
ghost use Rattle.queue_model.specs.State.{State};
ghost use Rattle.queue_records.specs.declared.record.Record.TheVariants as records;
ghost use Rattle.xsi_inquiry.specs.Rooms.{Roomful};
ghost use Rattle.xsi_inquiry.specs.Telling.{AsksRecord, Gives, IsFiled, IsTold};
ghost use Rattle.xsi_inquiry.specs.declared.sought.Sought.TheVariants.{Unread};
ghost use Rattle.xsi_receive.specs.Asking.{asked, asks_left, received};
ghost use Rattle.xsi_receive.specs.Knowing.{KnowsAt};
ghost use Rattle.xsi_receive.specs.declared.stage.Stage.TheVariants.{Refused, Seeking};

use crate::removal::Removal;
use crate::stage::Stage;
use queue_model::{Caller, Errno, ReceiveArguments};
use queue_records::{MessageEntry, QueueEntry, Record, TypeEntry};
use xsi_inquiry::{Decision, Inquiry, NotASystem, Room, Sought, Taken, Verdict, Wanted, Write};

/// A Receive (POSIX.1-2017, `msgrcv()`) of a caller, as far as it has come with its reading: three
/// records at most, however many messages stand on the queue. It keeps no bytes: those of the
/// message go into the room.
#[derive(Clone, Copy)]
pub struct ReceiveInquiry {
    caller: Caller,
    stage: Stage,
}

const _: () = prove!(size_of::<ReceiveInquiry>() <= 400);

impl ReceiveInquiry {
    /// One that begins with its Queue. It stands in whoever begins, as `refused` does: where it is
    /// written in the place of another one, it is not moved through memory.
    #[inline(always)]
    pub fn unread(by: Caller) -> ReceiveInquiry
        ensures { result ≡ record { caller = by; stage = Seeking Unread } }
    {
        ReceiveInquiry {
            caller: by,
            stage: Stage::Seeking(Sought::Unread),
        }
    }

    /// One on the id 0, which is refused with EINVAL before anything is read.
    #[inline(always)]
    pub fn refused(by: Caller) -> ReceiveInquiry
        ensures { result ≡ record { caller = by; stage = Refused EINVAL } }
    {
        ReceiveInquiry {
            caller: by,
            stage: Stage::Refused(Errno::EINVAL),
        }
    }

    /// Tells that there is no record at the key that it asked for, as `take` does. It stands in whoever
    /// tells it, as those for each kind of record do.
    #[inline(always)]
    pub fn take_none(&mut self, arguments: &ReceiveArguments) -> Result<(), NotASystem>
        requires { AsksRecord (asked arguments.now.id self.old.stage) }
        ensures told { (room : Roomful) (s : State) → IsFiled s →
            KnowsAt self.old.caller arguments.now self.old.stage room s →
            IsTold s (asked arguments.now.id self.old.stage) None →
            Gives result (λ _. KnowsAt self.old.caller arguments.now self.new.stage room s) }
        ensures fewer { OnOk result (asks_left self.new.stage < asks_left self.old.stage) }
        ensures err { OnErr result (self.new ≡ self.old) }
        ensures caller { self.new.caller ≡ self.old.caller }
    {
        self.stage.take_none(self.caller, arguments)
    }

    /// Tells the Queue at that key, which is lent: a record is large, and would else be moved through
    /// memory.
    #[inline(always)]
    pub fn take_queue(
        &mut self,
        arguments: &ReceiveArguments,
        queue: &QueueEntry,
    ) -> Result<(), NotASystem>
        requires { AsksRecord (asked arguments.now.id self.old.stage) }
        ensures told { (room : Roomful) (s : State) → IsFiled s →
            KnowsAt self.old.caller arguments.now self.old.stage room s →
            IsTold s (asked arguments.now.id self.old.stage) (Some (records.Queue queue.now)) →
            Gives result (λ _. KnowsAt self.old.caller arguments.now self.new.stage room s) }
        ensures fewer { OnOk result (asks_left self.new.stage < asks_left self.old.stage) }
        ensures err { OnErr result (self.new ≡ self.old) }
        ensures caller { self.new.caller ≡ self.old.caller }
    {
        self.stage.take_queue(self.caller, arguments, queue)
    }

    /// Tells the Type at that key, which is lent.
    #[inline(always)]
    pub fn take_type(
        &mut self,
        arguments: &ReceiveArguments,
        entry: &TypeEntry,
    ) -> Result<(), NotASystem>
        requires { AsksRecord (asked arguments.now.id self.old.stage) }
        ensures told { (room : Roomful) (s : State) → IsFiled s →
            KnowsAt self.old.caller arguments.now self.old.stage room s →
            IsTold s (asked arguments.now.id self.old.stage) (Some (records.Type entry.now)) →
            Gives result (λ _. KnowsAt self.old.caller arguments.now self.new.stage room s) }
        ensures fewer { OnOk result (asks_left self.new.stage < asks_left self.old.stage) }
        ensures err { OnErr result (self.new ≡ self.old) }
        ensures caller { self.new.caller ≡ self.old.caller }
    {
        self.stage.take_type(self.caller, arguments, entry)
    }

    /// Tells the Message at that key, which is lent. Its bytes are copied into the room.
    #[inline(always)]
    pub fn take_message(
        &mut self,
        arguments: &ReceiveArguments,
        message: &MessageEntry<'_>,
        room: &mut Room,
    ) -> Result<(), NotASystem>
        requires { AsksRecord (asked arguments.now.id self.old.stage) }
        ensures told { (s : State) → IsFiled s →
            KnowsAt self.old.caller arguments.now self.old.stage room.old s →
            IsTold s (asked arguments.now.id self.old.stage) (Some (records.Message message.now)) →
            Gives result (λ _. KnowsAt self.old.caller arguments.now self.new.stage room.new s) }
        ensures fewer { OnOk result (asks_left self.new.stage < asks_left self.old.stage) }
        ensures err { OnErr result ((self.new ≡ self.old) × (room.new ≡ room.old)) }
        ensures caller { self.new.caller ≡ self.old.caller }
        ensures most { room.new.most ≡ room.old.most }
    {
        self.stage
            .take_message(self.caller, arguments, message, room)
    }
}

impl Inquiry for ReceiveInquiry {
    ghost use Rattle.std.specs.Prelude.{[], ◌∷◌, ⊤};
    ghost use Rattle.page_locks.specs.declared.lock.LockName.TheVariants as names;
    ghost use Rattle.queue_model.specs.declared.call.Call.TheVariants.{Receive};
    ghost use Rattle.xsi_receive.specs.Asking.{asked, asks_left, decided_at, plan_at};
    ghost use Rattle.xsi_receive.specs.Knowing.{KnowsAt};
    ghost use Rattle.xsi_receive.specs.Asked.{few_at, given_at, inserts_at, stage_asks};

    type Arguments = ReceiveArguments;

    ghost caller = { λ i. i.caller };

    ghost call = { λ a. Receive a };

    ghost wanted = { λ a i. asked a.id i.stage };

    ghost locked = { λ a i. names.Queue a.id ∷ [] };

    ghost Knows = { λ a i room s. KnowsAt i.caller a i.stage room s };

    ghost Follows = { λ a i j. ⊤ };

    ghost left = { λ a i. asks_left i.stage };

    ghost decided = { λ a i. decided_at i.stage };

    ghost plan = { λ a i. plan_at a.id i.stage };

    ghost asks = { λ a i names s t found covered agrees told.
        stage_asks a.id i.stage s t found agrees.asked told };

    ghost asks_given = { λ a i names s t given agrees told.
        given_at a.id i.stage s t given agrees.asked told };

    ghost few = { λ a i. few_at a.id i.stage };

    ghost inserts = { λ a i. inserts_at a.id i.stage };

    fn begin(by: Caller, arguments: &ReceiveArguments) -> ReceiveInquiry {
        ReceiveInquiry {
            caller: by,
            stage: Stage::begin(arguments),
        }
    }

    fn wants(&self, arguments: &ReceiveArguments) -> Option<Wanted> {
        self.stage.wants(arguments.id)
    }

    fn take(
        &mut self,
        arguments: &ReceiveArguments,
        found: Option<Record<'_>>,
        room: &mut Room,
    ) -> Result<(), NotASystem> {
        self.stage.take(self.caller, arguments, found, room)
    }

    fn take_given(&mut self, arguments: &ReceiveArguments, given: bool) -> Result<(), NotASystem> {
        self.stage.take_given(self.caller, arguments, given)
    }

    fn decide(&self, _arguments: &ReceiveArguments) -> Result<Decision, NotASystem> {
        match &self.stage {
            Stage::Refused(errno) => Ok(Decision::refuses(*errno)),
            Stage::PutOff => Ok(Decision::PutOff),
            Stage::Taken(removal) => Ok(Decision::Answers(received(removal))),
            Stage::Seeking(_) | Stage::AtType(..) | Stage::AtMessage(..) | Stage::AtTypeOf(..) => {
                Err(NotASystem)
            }
        }
    }

    fn trial<'a>(&self, _arguments: &'a ReceiveArguments, _place: usize) -> Option<Record<'a>> {
        None
    }

    fn write(&self, arguments: &ReceiveArguments, slot: usize) -> Option<Write> {
        match &self.stage {
            Stage::Taken(removal) => removal.write(arguments.id, slot),
            Stage::Seeking(_)
            | Stage::Refused(_)
            | Stage::PutOff
            | Stage::AtType(..)
            | Stage::AtMessage(..)
            | Stage::AtTypeOf(..) => None,
        }
    }
}

/// The message as it is given; its bytes are in the room.
fn received(removal: &Removal) -> Verdict
    ensures { result ≡ received removal.now }
{
    Verdict::Received(Taken {
        serial: removal.message.serial,
        sender: removal.message.sender,
        mtype: removal.message.mtype,
    })
}
