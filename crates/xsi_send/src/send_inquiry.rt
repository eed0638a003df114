//! A Send as it asks for records.

ghost use Rattle.std.specs.Prelude.{◌≡◌, ◌<◌, None, OnErr, OnOk, Some};
ghost use Rattle.queue_model.specs.declared.errno.Errno.TheVariants.{EINVAL};
ghost use Rattle.queue_model.specs.State.{State};
ghost use Rattle.queue_records.specs.declared.record.Record.TheVariants as records;
ghost use Rattle.xsi_inquiry.specs.Telling.{AsksRecord, Gives, IsFiled, IsTold};
ghost use Rattle.xsi_send.specs.Knowing.{KnowsAt, asked, asks_left};
ghost use Rattle.xsi_inquiry.specs.declared.sought.Sought.TheVariants.{Unread};
ghost use Rattle.xsi_send.specs.declared.stage.Stage.TheVariants.{Refused, Seeking};

use crate::plan::{sent_trial, sent_write, takes_more};
use crate::stage::Stage;
use queue_model::{Caller, Errno, SendArguments};
use queue_records::{QueueEntry, Record, TypeEntry};
use xsi_inquiry::{Decision, Inquiry, NotASystem, Room, Sought, Verdict, Wanted, Write};

/// A Send (POSIX.1-2017, `msgsnd()`) of a caller, as far as it has come with its reading: the
/// Queue, then the Type of the message's type; where there is none, the Types from the lowest on up
/// to the first that is greater.
#[derive(Clone, Copy)]
pub struct SendInquiry {
    caller: Caller,
    stage: Stage,
}

const _: () = prove!(size_of::<SendInquiry>() <= 400);

impl SendInquiry {
    /// One that begins with its Queue. It stands in whoever begins, as `refused` does: where it is
    /// written in the place of another one, it is not moved through memory.
    #[inline(always)]
    pub fn unread(by: Caller) -> SendInquiry
        ensures { result ≡ record { caller = by; stage = Seeking Unread } }
    {
        SendInquiry {
            caller: by,
            stage: Stage::Seeking(Sought::Unread),
        }
    }

    /// One that is refused with EINVAL before anything is read.
    #[inline(always)]
    pub fn refused(by: Caller) -> SendInquiry
        ensures { result ≡ record { caller = by; stage = Refused EINVAL } }
    {
        SendInquiry {
            caller: by,
            stage: Stage::Refused(Errno::EINVAL),
        }
    }

    /// Tells that there is no record at the key that it asked for, as `take` does. It stands in whoever
    /// tells it, as `take_queue` and `take_type` do.
    #[inline(always)]
    pub fn take_none(&mut self, arguments: &SendArguments) -> Result<(), NotASystem>
        requires { AsksRecord (asked arguments.now self.old.stage) }
        ensures told { (s : State) → IsFiled s →
            KnowsAt self.old.caller arguments.now self.old.stage s →
            IsTold s (asked arguments.now self.old.stage) None →
            Gives result (λ _. KnowsAt self.old.caller arguments.now self.new.stage s) }
        ensures fewer { OnOk result (asks_left self.new.stage < asks_left self.old.stage) }
        ensures err { OnErr result (self.new ≡ self.old) }
        ensures caller { self.new.caller ≡ self.old.caller }
    {
        self.stage.take_none(self.caller, arguments)
    }

    /// Tells the Queue at that key, which is lent: a record is large, and would else be moved through
    /// memory.
    #[inline(always)]
    pub fn take_queue(
        &mut self,
        arguments: &SendArguments,
        queue: &QueueEntry,
    ) -> Result<(), NotASystem>
        requires { AsksRecord (asked arguments.now self.old.stage) }
        ensures told { (s : State) → IsFiled s →
            KnowsAt self.old.caller arguments.now self.old.stage s →
            IsTold s (asked arguments.now self.old.stage) (Some (records.Queue queue.now)) →
            Gives result (λ _. KnowsAt self.old.caller arguments.now self.new.stage s) }
        ensures fewer { OnOk result (asks_left self.new.stage < asks_left self.old.stage) }
        ensures err { OnErr result (self.new ≡ self.old) }
        ensures caller { self.new.caller ≡ self.old.caller }
    {
        self.stage.take_queue(self.caller, arguments, queue)
    }

    /// Tells the Type at that key, which is lent.
    #[inline(always)]
    pub fn take_type(
        &mut self,
        arguments: &SendArguments,
        entry: &TypeEntry,
    ) -> Result<(), NotASystem>
        requires { AsksRecord (asked arguments.now self.old.stage) }
        ensures told { (s : State) → IsFiled s →
            KnowsAt self.old.caller arguments.now self.old.stage s →
            IsTold s (asked arguments.now self.old.stage) (Some (records.Type entry.now)) →
            Gives result (λ _. KnowsAt self.old.caller arguments.now self.new.stage s) }
        ensures fewer { OnOk result (asks_left self.new.stage < asks_left self.old.stage) }
        ensures err { OnErr result (self.new ≡ self.old) }
        ensures caller { self.new.caller ≡ self.old.caller }
    {
        self.stage.take_type(self.caller, arguments, entry)
    }
}

impl Inquiry for SendInquiry {
    ghost use Rattle.std.specs.Prelude.{[], ◌∷◌, ⊤};
    ghost use Rattle.page_locks.specs.declared.lock.LockName.TheVariants as names;
    ghost use Rattle.queue_model.specs.declared.call.Call.TheVariants.{Send};
    ghost use Rattle.xsi_send.specs.Knowing.{KnowsAt, asked, asks_left};
    ghost use Rattle.xsi_send.specs.Planning.{decided_at, plan_at};
    ghost use Rattle.xsi_send.specs.Asked.{few_at, given_at, inserts_at, stage_asks};

    type Arguments = SendArguments;

    ghost caller = { λ i. i.caller };

    ghost call = { λ a. Send a };

    ghost wanted = { λ a i. asked a i.stage };

    ghost locked = { λ a i. names.Queue a.id ∷ [] };

    ghost Knows = { λ a i room s. KnowsAt i.caller a i.stage s };

    ghost Follows = { λ a i j. ⊤ };

    ghost left = { λ a i. asks_left i.stage };

    ghost decided = { λ a i. decided_at a i.stage };

    ghost plan = { λ a i. plan_at i.caller.pid a i.stage };

    ghost asks = { λ a i names s t found covered agrees told.
        stage_asks a i.stage s t found agrees.asked told };

    ghost asks_given = { λ a i names s t given agrees told.
        given_at a i.stage s t given agrees.asked told };

    ghost few = { λ a i. few_at i.caller.pid a i.stage };

    ghost inserts = { λ a i. inserts_at i.caller.pid a i.stage };

    fn begin(by: Caller, arguments: &SendArguments) -> SendInquiry {
        SendInquiry {
            caller: by,
            stage: Stage::begin(by, arguments),
        }
    }

    fn wants(&self, arguments: &SendArguments) -> Option<Wanted> {
        self.stage.wants(arguments)
    }

    fn take(
        &mut self,
        arguments: &SendArguments,
        found: Option<Record<'_>>,
        _room: &mut Room,
    ) -> Result<(), NotASystem> {
        self.stage.take(self.caller, arguments, found)
    }

    fn take_given(&mut self, arguments: &SendArguments, given: bool) -> Result<(), NotASystem> {
        self.stage.take_given(self.caller, arguments, given)
    }

    fn decide(&self, arguments: &SendArguments) -> Result<Decision, NotASystem> {
        match &self.stage {
            Stage::Refused(errno) => Ok(Decision::refuses(*errno)),
            Stage::Full if arguments.nowait => Ok(Decision::refuses(Errno::EAGAIN)),
            Stage::Full => Ok(Decision::PutOff),
            Stage::Done(queue, _types) => {
                if takes_more(arguments.body.len(), queue) {
                    return Ok(Decision::Answers(Verdict::Sent(queue.next_serial)));
                }
                Err(NotASystem)
            }
            Stage::Seeking(_) | Stage::AtType(_) | Stage::AtNeighbour(_) => Err(NotASystem),
        }
    }

    fn trial<'a>(&self, arguments: &'a SendArguments, place: usize) -> Option<Record<'a>> {
        match &self.stage {
            Stage::Done(queue, types) => {
                sent_trial(self.caller.pid, arguments, queue, *types, place)
            }
            Stage::Seeking(_)
            | Stage::Refused(_)
            | Stage::Full
            | Stage::AtType(_)
            | Stage::AtNeighbour(_) => None,
        }
    }

    fn write(&self, arguments: &SendArguments, slot: usize) -> Option<Write> {
        match &self.stage {
            Stage::Done(queue, types) => {
                sent_write(self.caller.pid, arguments, queue, *types, slot)
            }
            Stage::Seeking(_)
            | Stage::Refused(_)
            | Stage::Full
            | Stage::AtType(_)
            | Stage::AtNeighbour(_) => None,
        }
    }
}
