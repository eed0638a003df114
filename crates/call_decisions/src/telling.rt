//! What an inquiry is told, by the kind of the record. A record is large, and would be moved through
//! memory from one function to the next; so each kind is lent, and only what a kind has is written.

ghost use Rattle.std.specs.Prelude.{◌≡◌, None, Some};
ghost use Rattle.call_decisions.specs.Anything.{asked_of};
ghost use Rattle.call_decisions.specs.Taking.{Takes};
ghost use Rattle.xsi_control.specs.queue_records.declared.record.Record.TheVariants as records;
ghost use Rattle.xsi_inquiry.specs.Telling.{AsksRecord};

use crate::any_inquiry::AnyInquiry;
use queue_model::Call;
use xsi_control::queue_records::{
    Body, Counter, KeyEntry, MessageEntry, QueueEntry, Record, TypeEntry,
};
use xsi_control::xsi_inquiry::{Inquiry, NotASystem, Room};

impl AnyInquiry {
    /// Tells that there is none.
    #[inline(never)]
    pub(crate) fn take_none(&mut self, call: &Call, room: &mut Room) -> Result<(), NotASystem>
        requires { AsksRecord (asked_of call.now self.old) }
        ensures { Takes call.now None result self.old self.new
            room.old room.new }
    {
        match self {
            AnyInquiry::Send(inquiry) => match call {
                Call::Send(arguments) => inquiry.take_none(arguments),
                _ => Err(NotASystem),
            },
            AnyInquiry::Receive(inquiry) => match call {
                Call::Receive(arguments) => inquiry.take_none(arguments),
                _ => Err(NotASystem),
            },
            AnyInquiry::Get(_) | AnyInquiry::Stat(_) | AnyInquiry::Set(_) | AnyInquiry::Remove(_) =>
                self.take_any(call, None, room),
        }
    }

    /// Tells a Queue. It is put together here, where it was read.
    #[inline(always)]
    pub(crate) fn take_queue(
        &mut self,
        call: &Call,
        queue: &QueueEntry,
        room: &mut Room,
    ) -> Result<(), NotASystem>
        requires { AsksRecord (asked_of call.now self.old) }
        ensures { Takes call.now (Some (records.Queue queue.now)) result self.old self.new
            room.old room.new }
    {
        let queue = *queue;
        self.take_lent_queue(call, &queue, room)
    }

    /// Tells a Type. The way of a Send up the types goes on in whoever tells it.
    #[inline(always)]
    pub(crate) fn take_type(
        &mut self,
        call: &Call,
        entry: &TypeEntry,
        room: &mut Room,
    ) -> Result<(), NotASystem>
        requires { AsksRecord (asked_of call.now self.old) }
        ensures { Takes call.now (Some (records.Type entry.now)) result self.old self.new
            room.old room.new }
    {
        match self {
            AnyInquiry::Send(inquiry) => match call {
                Call::Send(arguments) => inquiry.take_type(arguments, entry),
                _ => Err(NotASystem),
            },
            AnyInquiry::Receive(_)
            | AnyInquiry::Get(_)
            | AnyInquiry::Stat(_)
            | AnyInquiry::Set(_)
            | AnyInquiry::Remove(_) => self.take_other_type(call, *entry, room),
        }
    }

    /// Tells a Message. It is put together here, as a Queue is.
    #[inline(always)]
    pub(crate) fn take_message(
        &mut self,
        call: &Call,
        message: &MessageEntry<'_>,
        room: &mut Room,
    ) -> Result<(), NotASystem>
        requires { AsksRecord (asked_of call.now self.old) }
        ensures { Takes call.now (Some (records.Message message.now)) result self.old self.new
            room.old room.new }
    {
        let message = twin(message);
        self.take_lent_message(call, &message, room)
    }

    /// Tells the Counter.
    #[inline(never)]
    pub(crate) fn take_counter(
        &mut self,
        call: &Call,
        counter: Counter,
        room: &mut Room,
    ) -> Result<(), NotASystem>
        requires { AsksRecord (asked_of call.now self.old) }
        ensures { Takes call.now (Some (records.Counter counter)) result self.old self.new
            room.old room.new }
    {
        self.take_any(call, Some(Record::Counter(counter)), room)
    }

    /// Tells a Key.
    #[inline(never)]
    pub(crate) fn take_key(
        &mut self,
        call: &Call,
        key: KeyEntry,
        room: &mut Room,
    ) -> Result<(), NotASystem>
        requires { AsksRecord (asked_of call.now self.old) }
        ensures { Takes call.now (Some (records.Key key)) result self.old self.new
            room.old room.new }
    {
        self.take_any(call, Some(Record::Key(key)), room)
    }

    #[inline(always)]
    fn take_lent_queue(
        &mut self,
        call: &Call,
        queue: &QueueEntry,
        room: &mut Room,
    ) -> Result<(), NotASystem>
        requires { AsksRecord (asked_of call.now self.old) }
        ensures { Takes call.now (Some (records.Queue queue.now)) result self.old self.new
            room.old room.new }
    {
        match self {
            AnyInquiry::Send(inquiry) => match call {
                Call::Send(arguments) => inquiry.take_queue(arguments, queue),
                _ => Err(NotASystem),
            },
            AnyInquiry::Receive(inquiry) => match call {
                Call::Receive(arguments) => inquiry.take_queue(arguments, queue),
                _ => Err(NotASystem),
            },
            AnyInquiry::Get(_) | AnyInquiry::Stat(_) | AnyInquiry::Set(_) | AnyInquiry::Remove(_) =>
                self.take_other_queue(call, queue, room),
        }
    }

    #[inline(always)]
    fn take_lent_message(
        &mut self,
        call: &Call,
        message: &MessageEntry<'_>,
        room: &mut Room,
    ) -> Result<(), NotASystem>
        requires { AsksRecord (asked_of call.now self.old) }
        ensures { Takes call.now (Some (records.Message message.now)) result self.old self.new
            room.old room.new }
    {
        match self {
            AnyInquiry::Receive(inquiry) => match call {
                Call::Receive(arguments) => inquiry.take_message(arguments, message, room),
                _ => Err(NotASystem),
            },
            AnyInquiry::Send(_)
            | AnyInquiry::Get(_)
            | AnyInquiry::Stat(_)
            | AnyInquiry::Set(_)
            | AnyInquiry::Remove(_) => self.take_other_message(call, message, room),
        }
    }

    /// A Queue, told to an inquiry that is no Send and no Receive. It stands apart, as all that is rare.
    #[inline(never)]
    fn take_other_queue(
        &mut self,
        call: &Call,
        queue: &QueueEntry,
        room: &mut Room,
    ) -> Result<(), NotASystem>
        requires { AsksRecord (asked_of call.now self.old) }
        ensures { Takes call.now (Some (records.Queue queue.now)) result self.old self.new
            room.old room.new }
    {
        self.take_any(call, Some(Record::Queue(*queue)), room)
    }

    /// A Type, told to an inquiry that is no Send.
    #[inline(never)]
    fn take_other_type(
        &mut self,
        call: &Call,
        entry: TypeEntry,
        room: &mut Room,
    ) -> Result<(), NotASystem>
        requires { AsksRecord (asked_of call.now self.old) }
        ensures { Takes call.now (Some (records.Type entry)) result self.old self.new
            room.old room.new }
    {
        match self {
            AnyInquiry::Receive(inquiry) => match call {
                Call::Receive(arguments) => inquiry.take_type(arguments, &entry),
                _ => Err(NotASystem),
            },
            AnyInquiry::Send(_)
            | AnyInquiry::Get(_)
            | AnyInquiry::Stat(_)
            | AnyInquiry::Set(_)
            | AnyInquiry::Remove(_) => self.take_any(call, Some(Record::Type(entry)), room),
        }
    }

    /// A Message, told to an inquiry that is no Receive.
    #[inline(never)]
    fn take_other_message(
        &mut self,
        call: &Call,
        message: &MessageEntry<'_>,
        room: &mut Room,
    ) -> Result<(), NotASystem>
        requires { AsksRecord (asked_of call.now self.old) }
        ensures { Takes call.now (Some (records.Message message.now)) result self.old self.new
            room.old room.new }
    {
        self.take_any(call, Some(Record::Message(twin(message))), room)
    }

    /// Any record, or none.
    #[inline(never)]
    fn take_any(
        &mut self,
        call: &Call,
        found: Option<Record<'_>>,
        room: &mut Room,
    ) -> Result<(), NotASystem>
        requires { AsksRecord (asked_of call.now self.old) }
        ensures { Takes call.now found.entry result self.old self.new
            room.old room.new }
    {
        match (self, call) {
            (AnyInquiry::Get(inquiry), Call::Get(arguments)) => inquiry.take(
                arguments, found, room,
            ),
            (AnyInquiry::Send(inquiry), Call::Send(arguments)) => inquiry.take(
                arguments, found, room,
            ),
            (AnyInquiry::Receive(inquiry), Call::Receive(arguments)) => inquiry.take(
                arguments, found, room,
            ),
            (AnyInquiry::Stat(inquiry), Call::Stat { id }) => inquiry.take(id, found, room),
            (AnyInquiry::Set(inquiry), Call::Set(arguments)) => inquiry.take(
                arguments, found, room,
            ),
            (AnyInquiry::Remove(inquiry), Call::Remove { id }) => inquiry.take(id, found, room),
            (_, _) => Err(NotASystem),
        }
    }
}

/// A message as one that is lent, with the same bytes.
#[inline(always)]
fn twin<'a>(message: &MessageEntry<'a>) -> MessageEntry<'a>
    ensures { result ≡ message.now }
{
    MessageEntry {
        id: message.id,
        serial: message.serial,
        mtype: message.mtype,
        sender: message.sender,
        previous: message.previous,
        next: message.next,
        next_of_type: message.next_of_type,
        body: Body::new(message.body.as_slice()),
    }
}
