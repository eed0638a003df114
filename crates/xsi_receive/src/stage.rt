//! How far a Receive has come with its reading.

ghost use Rattle.std.specs.Prelude.{◌≡◌, ◌≤◌, ◌<◌, None, OnErr, OnOk, Some, int_lt, length, pos, take};
ghost use Rattle.queue_model.specs.declared.caller.Caller.{Caller};
ghost use Rattle.queue_model.specs.State.{State};
ghost use Rattle.queue_records.specs.declared.record.Record.TheVariants as records;
ghost use Rattle.xsi_inquiry.specs.Rooms.{Roomful};
ghost use Rattle.xsi_inquiry.specs.Seeking.{IsEntryOf, Tells, asks_of_sought};
ghost use Rattle.xsi_inquiry.specs.Telling.{AsksGiven, AsksRecord, Gives, IsFiled, IsTold, IsToldGiven};
ghost use Rattle.xsi_receive.specs.Asking.{asked, asks_left, is_long, put_off_at};
ghost use Rattle.xsi_receive.specs.Knowing.{HasRoomFor, IsStage, KnowsAt, KnowsHead};

use crate::head::MessageHead;
use crate::removal::{Removal, TypeLeft, is_counted};
use queue_model::{Access, Caller, Errno, ReceiveArguments};
use queue_records::{MessageEntry, QueueEntry, Record, TypeEntry, message_key, type_key};
use type_chains::permissions_in;
use xsi_inquiry::{NotASystem, Room, Sought, Wanted};

/// What is known, and with it what is asked next.
#[derive(Clone, Copy)]
pub enum Stage {
    /// The queue is sought.
    Seeking(Sought),
    /// The call is refused.
    Refused(Errno),
    /// No message is selected, so the call is put off.
    PutOff,
    /// The first message of this type is taken, if there is one: its Type is next.
    AtType(QueueEntry, i64),
    /// The Message of this serial is taken: it is next. Its Type was read, or any type is taken.
    AtMessage(QueueEntry, Option<TypeEntry>, u64),
    /// This Message is taken, and is the last of its type: its Type is next.
    AtTypeOf(QueueEntry, MessageHead),
    /// Nothing is.
    Taken(Removal),
}

impl Stage {
    /// Nothing is read yet.
    pub fn begin(arguments: &ReceiveArguments) -> Stage
        ensures knows { (c : Caller) (room : Roomful) (s : State) → HasRoomFor arguments.now room →
            KnowsAt c arguments.now result room s }
        ensures few { asks_left result ≤ 3 }
    {
        match Sought::new(arguments.id) {
            Sought::Refused(errno) => Stage::Refused(errno),
            sought => Stage::Seeking(sought),
        }
    }

    /// What is asked next, where there is something to ask.
    pub fn wants(&self, id: u32) -> Option<Wanted>
        ensures { result ≡ asked id self.now }
    {
        match self {
            Stage::Seeking(sought) => sought.wants(id),
            Stage::AtType(_, mtype) => Some(Wanted::At(type_key(id, *mtype))),
            Stage::AtMessage(_, _, serial) => Some(Wanted::At(message_key(id, *serial))),
            Stage::AtTypeOf(_, message) => Some(Wanted::At(type_key(id, message.mtype))),
            Stage::Refused(_) | Stage::PutOff | Stage::Taken(_) => None,
        }
    }

    /// It goes on by what is known of the queue, in place: a stage is large, and would else be moved
    /// through memory. So do `at_queue` and `at_head`, and all three stand in whoever goes on.
    #[inline(always)]
    fn at_sought(&mut self, caller: Caller, arguments: &ReceiveArguments, sought: &Sought)
        ensures knows { (room : Roomful) (s : State) → IsFiled s → HasRoomFor arguments.now room →
            Tells arguments.now.id sought.now s → KnowsAt caller arguments.now self.new room s }
        ensures left { asks_left self.new ≤ asks_of_sought sought.now }
    {
        match sought {
            Sought::Unread => *self = Stage::Seeking(Sought::Unread),
            Sought::Absent => *self = Stage::Seeking(Sought::Absent),
            Sought::Found(queue) => self.at_queue(caller, arguments, queue),
            Sought::Refused(errno) => *self = Stage::Refused(*errno),
        }
    }

    /// It goes on once the Queue is read: who may not read is refused, and the type selects.
    #[inline(always)]
    fn at_queue(&mut self, caller: Caller, arguments: &ReceiveArguments, queue: &QueueEntry)
        ensures knows { (room : Roomful) (s : State) → IsFiled s → HasRoomFor arguments.now room →
            IsEntryOf arguments.now.id queue.now s → KnowsAt caller arguments.now self.new room s }
        ensures left { asks_left self.new ≤ 2 }
    {
        if permissions_in(queue).keeps_out(Access::Read, caller) {
            *self = Stage::Refused(Errno::EACCES);
            return;
        }
        let Some(serial) = queue.first else {
            *self = put_off(arguments);
            return;
        };
        if arguments.mtype > 0 {
            *self = Stage::AtType(*queue, arguments.mtype);
            return;
        }
        if arguments.mtype < 0 {
            let Some(lowest) = queue.lowest else {
                *self = put_off(arguments);
                return;
            };
            if lowest.unsigned_abs() > arguments.mtype.unsigned_abs() {
                *self = put_off(arguments);
                return;
            }
            *self = Stage::AtType(*queue, lowest);
            return;
        }
        *self = Stage::AtMessage(*queue, None, serial);
    }

    /// Tells the record at that key, or that there is none; it goes on in place. After an error it
    /// stands where it stood.
    #[inline(always)]
    pub fn take(
        &mut self,
        caller: Caller,
        arguments: &ReceiveArguments,
        found: Option<Record<'_>>,
        room: &mut Room,
    ) -> Result<(), NotASystem>
        requires { AsksRecord (asked arguments.now.id self.old) }
        ensures told { (s : State) → IsFiled s → KnowsAt caller arguments.now self.old room.old s →
            IsTold s (asked arguments.now.id self.old) found.entry →
            Gives result (λ _. KnowsAt caller arguments.now self.new room.new s) }
        ensures fewer { OnOk result (asks_left self.new < asks_left self.old) }
        ensures err { OnErr result ((self.new ≡ self.old) × (room.new ≡ room.old)) }
        ensures most { room.new.most ≡ room.old.most }
    {
        let Some(found) = found else {
            return self.take_none(caller, arguments);
        };
        match found {
            Record::Queue(queue) => self.take_queue(caller, arguments, &queue),
            Record::Type(entry) => self.take_type(caller, arguments, &entry),
            Record::Message(message) => self.take_message(caller, arguments, &message, room),
            Record::Counter(_) => Err(NotASystem),
            Record::Key(_) => Err(NotASystem),
        }
    }

    /// Tells that there is no record at that key.
    #[inline(always)]
    pub fn take_none(
        &mut self,
        caller: Caller,
        arguments: &ReceiveArguments,
    ) -> Result<(), NotASystem>
        requires { AsksRecord (asked arguments.now.id self.old) }
        ensures told { (room : Roomful) (s : State) → IsFiled s →
            KnowsAt caller arguments.now self.old room s →
            IsTold s (asked arguments.now.id self.old) None →
            Gives result (λ _. KnowsAt caller arguments.now self.new room s) }
        ensures fewer { OnOk result (asks_left self.new < asks_left self.old) }
        ensures err { OnErr result (self.new ≡ self.old) }
    {
        match self {
            Stage::Seeking(sought) => match sought {
                Sought::Unread => {
                    *self = Stage::Seeking(Sought::Absent);
                    Ok(())
                }
                Sought::Absent | Sought::Found(_) | Sought::Refused(_) => Err(NotASystem),
            },
            Stage::AtType(..) => {
                if may_lack(arguments) {
                    *self = put_off(arguments);
                    return Ok(());
                }
                Err(NotASystem)
            }
            Stage::AtMessage(..) => Err(NotASystem),
            Stage::AtTypeOf(..) => Err(NotASystem),
            Stage::Refused(_) | Stage::PutOff | Stage::Taken(_) => Err(NotASystem),
        }
    }

    /// Tells the Queue at that key, which is lent: it is copied once.
    #[inline(always)]
    pub fn take_queue(
        &mut self,
        caller: Caller,
        arguments: &ReceiveArguments,
        queue: &QueueEntry,
    ) -> Result<(), NotASystem>
        requires { AsksRecord (asked arguments.now.id self.old) }
        ensures told { (room : Roomful) (s : State) → IsFiled s →
            KnowsAt caller arguments.now self.old room s →
            IsTold s (asked arguments.now.id self.old) (Some (records.Queue queue.now)) →
            Gives result (λ _. KnowsAt caller arguments.now self.new room s) }
        ensures fewer { OnOk result (asks_left self.new < asks_left self.old) }
        ensures err { OnErr result (self.new ≡ self.old) }
    {
        match self {
            Stage::Seeking(sought) => match sought {
                Sought::Unread => {
                    self.at_queue(caller, arguments, queue);
                    Ok(())
                }
                Sought::Absent | Sought::Found(_) | Sought::Refused(_) => Err(NotASystem),
            },
            Stage::AtType(..) => Err(NotASystem),
            Stage::AtMessage(..) => Err(NotASystem),
            Stage::AtTypeOf(..) => Err(NotASystem),
            Stage::Refused(_) | Stage::PutOff | Stage::Taken(_) => Err(NotASystem),
        }
    }

    /// Tells the Type at that key: that of the type asked for, or that of the message.
    #[inline(always)]
    pub fn take_type(
        &mut self,
        caller: Caller,
        arguments: &ReceiveArguments,
        entry: &TypeEntry,
    ) -> Result<(), NotASystem>
        requires { AsksRecord (asked arguments.now.id self.old) }
        ensures told { (room : Roomful) (s : State) → IsFiled s →
            KnowsAt caller arguments.now self.old room s →
            IsTold s (asked arguments.now.id self.old) (Some (records.Type entry.now)) →
            Gives result (λ _. KnowsAt caller arguments.now self.new room s) }
        ensures fewer { OnOk result (asks_left self.new < asks_left self.old) }
        ensures err { OnErr result (self.new ≡ self.old) }
    {
        match self {
            Stage::AtType(queue, _) => {
                *self = Stage::AtMessage(*queue, Some(*entry), entry.first);
                Ok(())
            }
            Stage::AtTypeOf(queue, head) => {
                let queue = *queue;
                let head = *head;
                self.at_head(caller.pid, arguments, queue, head, Some(*entry))
            }
            Stage::Seeking(_) => Err(NotASystem),
            Stage::AtMessage(..) => Err(NotASystem),
            Stage::Refused(_) | Stage::PutOff | Stage::Taken(_) => Err(NotASystem),
        }
    }

    /// Tells the Message at that key. Its bytes are copied into the room.
    #[inline(always)]
    pub fn take_message(
        &mut self,
        caller: Caller,
        arguments: &ReceiveArguments,
        message: &MessageEntry<'_>,
        room: &mut Room,
    ) -> Result<(), NotASystem>
        requires { AsksRecord (asked arguments.now.id self.old) }
        ensures told { (s : State) → IsFiled s → KnowsAt caller arguments.now self.old room.old s →
            IsTold s (asked arguments.now.id self.old) (Some (records.Message message.now)) →
            Gives result (λ _. KnowsAt caller arguments.now self.new room.new s) }
        ensures fewer { OnOk result (asks_left self.new < asks_left self.old) }
        ensures err { OnErr result ((self.new ≡ self.old) × (room.new ≡ room.old)) }
        ensures most { room.new.most ≡ room.old.most }
    {
        match self {
            Stage::AtMessage(queue, entry, _) => {
                if is_long(arguments, message) {
                    *self = Stage::Refused(Errno::E2BIG);
                    return Ok(());
                }
                let head = MessageHead::of(message);
                let queue = *queue;
                let entry = *entry;
                self.at_head(caller.pid, arguments, queue, head, entry)?;
                room.fill(cut(message.body.as_slice(), arguments.size as usize));
                Ok(())
            }
            Stage::Seeking(_) => Err(NotASystem),
            Stage::AtType(..) => Err(NotASystem),
            Stage::AtTypeOf(..) => Err(NotASystem),
            Stage::Refused(_) | Stage::PutOff | Stage::Taken(_) => Err(NotASystem),
        }
    }

    /// It goes on once the message is read: where it is the last of its type, its Type is needed too.
    #[inline(always)]
    fn at_head(
        &mut self,
        pid: u32,
        arguments: &ReceiveArguments,
        queue: QueueEntry,
        head: MessageHead,
        entry: Option<TypeEntry>,
    ) -> Result<(), NotASystem>
        ensures knows { (c : Caller) (room : Roomful) (s : State) → IsFiled s → c.pid ≡ pid →
            KnowsHead c arguments.now queue head entry room s →
            Gives result (λ _. KnowsAt c arguments.now self.new room s) }
        ensures left { OnOk result (IsStage entry self.new) }
        ensures err { OnErr result (self.new ≡ self.old) }
    {
        if let Some(first) = head.next_of_type {
            if !is_counted(&queue, &head) {
                return Err(NotASystem);
            }
            let left = TypeLeft::Begins(first);
            *self = Stage::Taken(Removal::new(pid, arguments, &queue, head, left));
            return Ok(());
        }
        let Some(entry) = entry else {
            *self = Stage::AtTypeOf(queue, head);
            return Ok(());
        };
        if !is_counted(&queue, &head) {
            return Err(NotASystem);
        }
        let left = TypeLeft::Goes(entry.lower, entry.higher);
        *self = Stage::Taken(Removal::new(pid, arguments, &queue, head, left));
        Ok(())
    }

    /// Tells whether the id is below the next id. After an error it stands where it stood.
    pub fn take_given(
        &mut self,
        caller: Caller,
        arguments: &ReceiveArguments,
        given: bool,
    ) -> Result<(), NotASystem>
        ensures told { (room : Roomful) (s : State) → IsFiled s →
            KnowsAt caller arguments.now self.old room s →
            AsksGiven (asked arguments.now.id self.old) →
            IsToldGiven s (asked arguments.now.id self.old) given →
            Gives result (λ _. KnowsAt caller arguments.now self.new room s) }
        ensures fewer { OnOk result (asks_left self.new < asks_left self.old) }
        ensures err { OnErr result (self.new ≡ self.old) }
    {
        match self {
            Stage::Seeking(sought) => {
                let mut sought = *sought;
                sought.take_given(arguments.id, given)?;
                self.at_sought(caller, arguments, &sought);
                Ok(())
            }
            Stage::Refused(_)
            | Stage::PutOff
            | Stage::AtType(..)
            | Stage::AtMessage(..)
            | Stage::AtTypeOf(..)
            | Stage::Taken(_) => Err(NotASystem),
        }
    }
}

/// Where no message is selected.
fn put_off(arguments: &ReceiveArguments) -> Stage
    ensures { result ≡ put_off_at arguments.now.nowait }
{
    if arguments.nowait {
        return Stage::Refused(Errno::ENOMSG);
    }
    Stage::PutOff
}

/// Whether there may be no Type of the type asked for, which is so of one above 0.
fn may_lack(arguments: &ReceiveArguments) -> bool
    ensures { result ≡ int_lt (pos 0) arguments.now.mtype }
{
    arguments.mtype > 0
}

/// Whether a message is longer than asked for, and may not be cut.
fn is_long(arguments: &ReceiveArguments, message: &MessageEntry<'_>) -> bool
    ensures { result ≡ is_long arguments.now message.now }
{
    message.body.len() > arguments.size as usize && !arguments.noerror
}

/// The bytes without those that stand past the size.
fn cut(bytes: &[u8], size: usize) -> &[u8]
    ensures { result.now ≡ take size bytes.now }
{
    if bytes.len() <= size {
        return bytes;
    }
    let (front, _) = bytes.split_at(size);
    front
}
