//! The inquiry of any call.

ghost use Rattle.std.specs.Prelude.{◌≡◌, ◌≤◌, MatchOption, [], slice_get};
ghost use Rattle.std.specs.Option.{is_some};
ghost use Rattle.queue_model.specs.State.{State};
ghost use Rattle.xsi_inquiry.specs.Rooms.{HasRoom, Roomful};
ghost use Rattle.xsi_inquiry.specs.Slots.{IsNextWrite, writes_left};
ghost use Rattle.xsi_inquiry.specs.Telling.{most_asked};
ghost use Rattle.call_decisions.specs.Anything.{KnowsOf, caller_of, left_of, plan_of};

use queue_model::{Call, Caller};
use xsi_control::queue_records::Record;
use xsi_control::xsi_inquiry::{Decision, Inquiry, NotASystem, Room, Wanted, Write, next_write};
use xsi_control::{GetInquiry, RemoveInquiry, SetInquiry, StatInquiry};
use xsi_receive::ReceiveInquiry;
use xsi_send::{SendInquiry, is_refused_unread};

/// The inquiry of a call, by the call's kind. It is lent the call that it began with. Of a call of
/// another kind it asks nothing, and decides nothing.
#[derive(Clone, Copy)]
pub enum AnyInquiry {
    /// Of a Get.
    Get(GetInquiry),
    /// Of a Send.
    Send(SendInquiry),
    /// Of a Receive.
    Receive(ReceiveInquiry),
    /// Of a Stat.
    Stat(StatInquiry),
    /// Of a Set.
    Set(SetInquiry),
    /// Of a Remove.
    Remove(RemoveInquiry),
}

const _: () = prove!(size_of::<AnyInquiry>() <= 400);

impl AnyInquiry {
    /// Begins as `begin` does, in the place of another one: each kind is written there by itself, since
    /// an inquiry is large, and would else be moved through memory.
    #[inline(always)]
    pub fn begin_anew(&mut self, by: Caller, call: &Call)
        ensures caller { caller_of self.new ≡ by }
        ensures knows { (room : Roomful) (s : State) → HasRoom call.now room →
            KnowsOf call.now self.new room s }
        ensures few { left_of call.now self.new ≤ most_asked call.now }
    {
        match call {
            Call::Get(arguments) => *self = AnyInquiry::Get(GetInquiry::begin(by, arguments)),
            Call::Send(arguments) => {
                if is_refused_unread(arguments) {
                    *self = AnyInquiry::Send(SendInquiry::refused(by));
                    return;
                }
                *self = AnyInquiry::Send(SendInquiry::unread(by));
            }
            Call::Receive(arguments) => {
                if arguments.id == 0 {
                    *self = AnyInquiry::Receive(ReceiveInquiry::refused(by));
                    return;
                }
                *self = AnyInquiry::Receive(ReceiveInquiry::unread(by));
            }
            Call::Stat { id } => *self = AnyInquiry::Stat(StatInquiry::begin(by, id)),
            Call::Set(arguments) => *self = AnyInquiry::Set(SetInquiry::begin(by, arguments)),
            Call::Remove { id } => *self = AnyInquiry::Remove(RemoveInquiry::begin(by, id)),
        }
    }

    /// The next slot from this one on that is not empty, with its write; none where no write is
    /// left. The kind of the call is told once, and not for each slot. It stands in whoever asks, since
    /// a write is large, and would else be moved through memory.
    #[inline(always)]
    pub fn next_write(&self, call: &Call, from: usize) -> Option<(usize, Write)>
        ensures { MatchOption result
            (writes_left (plan_of call.now self.now) from ≡ [])
            (λ next. IsNextWrite (plan_of call.now self.now) from next.0 next.1) }
    {
        match (self, call) {
            (AnyInquiry::Get(inquiry), Call::Get(arguments)) => {
                next_write(inquiry, arguments, from)
            }
            (AnyInquiry::Send(inquiry), Call::Send(arguments)) => {
                next_write(inquiry, arguments, from)
            }
            (AnyInquiry::Receive(inquiry), Call::Receive(arguments)) => {
                next_write(inquiry, arguments, from)
            }
            (AnyInquiry::Stat(inquiry), Call::Stat { id }) => next_write(inquiry, id, from),
            (AnyInquiry::Set(inquiry), Call::Set(arguments)) => {
                next_write(inquiry, arguments, from)
            }
            (AnyInquiry::Remove(inquiry), Call::Remove { id }) => next_write(inquiry, id, from),
            (_, _) => None,
        }
    }

    /// Whether a record is inserted on trial.
    pub fn inserts(&self, call: &Call) -> bool
        ensures { result ≡ is_some (slice_get (plan_of call.now self.now).trials 0) }
    {
        match (self, call) {
            (AnyInquiry::Get(inquiry), Call::Get(arguments)) => {
                inquiry.trial(arguments, 0).is_some()
            }
            (AnyInquiry::Send(inquiry), Call::Send(arguments)) => {
                inquiry.trial(arguments, 0).is_some()
            }
            (_, _) => false,
        }
    }
}

impl Inquiry for AnyInquiry {
    ghost use Rattle.call_decisions.specs.Anything.{FollowsOf, KnowsOf, asked_of, caller_of, decided_of, left_of, locked_of, plan_of};
    ghost use Rattle.call_decisions.specs.Asked.{any_asks, any_asks_given, any_inserts, few_of};

    type Arguments = Call;

    ghost caller = { λ i. caller_of i };

    ghost call = { λ call. call };

    ghost wanted = { λ call i. asked_of call i };

    ghost locked = { λ call i. locked_of call i };

    ghost Knows = { λ call i room s. KnowsOf call i room s };

    ghost Follows = { λ call i j. FollowsOf call i j };

    ghost left = { λ call i. left_of call i };

    ghost decided = { λ call i. decided_of call i };

    ghost plan = { λ call i. plan_of call i };

    ghost asks = { λ call i names s t found covered agrees told.
        any_asks call i names s t found covered agrees told };

    ghost asks_given = { λ call i names s t given agrees told.
        any_asks_given call i names s t given agrees told };

    ghost few = { λ call i. few_of call i };

    ghost inserts = { λ call i. any_inserts call i };

    // It stands in whoever begins, and so do `wants` and `trial`: what they tell would else be moved
    // through memory.
    #[inline(always)]
    fn begin(by: Caller, call: &Call) -> AnyInquiry {
        match call {
            Call::Get(arguments) => AnyInquiry::Get(GetInquiry::begin(by, arguments)),
            Call::Send(arguments) => AnyInquiry::Send(SendInquiry::begin(by, arguments)),
            Call::Receive(arguments) => AnyInquiry::Receive(ReceiveInquiry::begin(by, arguments)),
            Call::Stat { id } => AnyInquiry::Stat(StatInquiry::begin(by, id)),
            Call::Set(arguments) => AnyInquiry::Set(SetInquiry::begin(by, arguments)),
            Call::Remove { id } => AnyInquiry::Remove(RemoveInquiry::begin(by, id)),
        }
    }

    #[inline(always)]
    fn wants(&self, call: &Call) -> Option<Wanted> {
        match (self, call) {
            (AnyInquiry::Get(inquiry), Call::Get(arguments)) => inquiry.wants(arguments),
            (AnyInquiry::Send(inquiry), Call::Send(arguments)) => inquiry.wants(arguments),
            (AnyInquiry::Receive(inquiry), Call::Receive(arguments)) => inquiry.wants(arguments),
            (AnyInquiry::Stat(inquiry), Call::Stat { id }) => inquiry.wants(id),
            (AnyInquiry::Set(inquiry), Call::Set(arguments)) => inquiry.wants(arguments),
            (AnyInquiry::Remove(inquiry), Call::Remove { id }) => inquiry.wants(id),
            (_, _) => None,
        }
    }

    // By the kind of the record, where it is known.
    #[inline(always)]
    fn take(
        &mut self,
        call: &Call,
        found: Option<Record<'_>>,
        room: &mut Room,
    ) -> Result<(), NotASystem> {
        let Some(record) = &found else {
            return self.take_none(call, room);
        };
        match record {
            Record::Counter(counter) => self.take_counter(call, *counter, room),
            Record::Key(key) => self.take_key(call, *key, room),
            Record::Queue(queue) => self.take_queue(call, queue, room),
            Record::Type(entry) => self.take_type(call, entry, room),
            Record::Message(message) => self.take_message(call, message, room),
        }
    }

    fn take_given(&mut self, call: &Call, given: bool) -> Result<(), NotASystem> {
        match (self, call) {
            (AnyInquiry::Get(inquiry), Call::Get(arguments)) => inquiry.take_given(
                arguments, given,
            ),
            (AnyInquiry::Send(inquiry), Call::Send(arguments)) => inquiry.take_given(
                arguments, given,
            ),
            (AnyInquiry::Receive(inquiry), Call::Receive(arguments)) => inquiry.take_given(
                arguments, given,
            ),
            (AnyInquiry::Stat(inquiry), Call::Stat { id }) => inquiry.take_given(id, given),
            (AnyInquiry::Set(inquiry), Call::Set(arguments)) => inquiry.take_given(
                arguments, given,
            ),
            (AnyInquiry::Remove(inquiry), Call::Remove { id }) => inquiry.take_given(id, given),
            (_, _) => Err(NotASystem),
        }
    }

    #[inline(always)]
    fn decide(&self, call: &Call) -> Result<Decision, NotASystem> {
        match (self, call) {
            (AnyInquiry::Get(inquiry), Call::Get(arguments)) => inquiry.decide(arguments),
            (AnyInquiry::Send(inquiry), Call::Send(arguments)) => inquiry.decide(arguments),
            (AnyInquiry::Receive(inquiry), Call::Receive(arguments)) => inquiry.decide(arguments),
            (AnyInquiry::Stat(inquiry), Call::Stat { id }) => inquiry.decide(id),
            (AnyInquiry::Set(inquiry), Call::Set(arguments)) => inquiry.decide(arguments),
            (AnyInquiry::Remove(inquiry), Call::Remove { id }) => inquiry.decide(id),
            (_, _) => Err(NotASystem),
        }
    }

    #[inline(always)]
    fn trial<'a>(&self, call: &'a Call, place: usize) -> Option<Record<'a>> {
        match (self, call) {
            (AnyInquiry::Get(inquiry), Call::Get(arguments)) => inquiry.trial(arguments, place),
            (AnyInquiry::Send(inquiry), Call::Send(arguments)) => inquiry.trial(arguments, place),
            (AnyInquiry::Receive(inquiry), Call::Receive(arguments)) => inquiry.trial(
                arguments, place,
            ),
            (AnyInquiry::Stat(inquiry), Call::Stat { id }) => inquiry.trial(id, place),
            (AnyInquiry::Set(inquiry), Call::Set(arguments)) => inquiry.trial(arguments, place),
            (AnyInquiry::Remove(inquiry), Call::Remove { id }) => inquiry.trial(id, place),
            (_, _) => None,
        }
    }

    fn write(&self, call: &Call, slot: usize) -> Option<Write> {
        match (self, call) {
            (AnyInquiry::Get(inquiry), Call::Get(arguments)) => inquiry.write(arguments, slot),
            (AnyInquiry::Send(inquiry), Call::Send(arguments)) => inquiry.write(arguments, slot),
            (AnyInquiry::Receive(inquiry), Call::Receive(arguments)) => inquiry.write(
                arguments, slot,
            ),
            (AnyInquiry::Stat(inquiry), Call::Stat { id }) => inquiry.write(id, slot),
            (AnyInquiry::Set(inquiry), Call::Set(arguments)) => inquiry.write(arguments, slot),
            (AnyInquiry::Remove(inquiry), Call::Remove { id }) => inquiry.write(id, slot),
            (_, _) => None,
        }
    }
}
