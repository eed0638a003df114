//! How far a Send has come with its reading.

ghost use Rattle.std.specs.Prelude.{◌≡◌, ◌<◌, ◌≤◌, ◌+◌, None, OnErr, OnOk, Some, false, true};
ghost use Rattle.queue_model.specs.declared.caller.Caller.{Caller};
ghost use Rattle.queue_model.specs.declared.errno.Errno.TheVariants.{EINVAL};
ghost use Rattle.queue_model.specs.State.{State};
ghost use Rattle.queue_records.specs.declared.record.Record.TheVariants as records;
ghost use Rattle.xsi_inquiry.specs.declared.sought.Sought.TheVariants.{Unread};
ghost use Rattle.xsi_inquiry.specs.Seeking.{IsEntryOf, Tells, reads_left};
ghost use Rattle.xsi_inquiry.specs.Telling.{AsksGiven, AsksRecord, Gives, IsFiled, IsTold, IsToldGiven};
ghost use Rattle.xsi_send.specs.declared.stage.Stage.TheVariants.{Refused, Seeking};
ghost use Rattle.xsi_send.specs.Knowing.{IsAllowed, KnowsAt, asked, asks_left};

use crate::reading::{take_neighbour, walk};
use crate::type_place::TypePlace;
use queue_model::{Access, Caller, Errno, MAX_BODY, SendArguments};
use queue_records::{QueueEntry, Record, TypeEntry, type_key};
use type_chains::{lacks_room_in, permissions_in};
use xsi_inquiry::{NotASystem, Sought, Wanted};

/// What is known, and with it which record is read next.
#[derive(Clone, Copy)]
pub enum Stage {
    /// The queue is sought.
    Seeking(Sought),
    /// The call is refused.
    Refused(Errno),
    /// The queue has no room.
    Full,
    /// The Type of the message's type is next.
    AtType(QueueEntry),
    /// The type does not stand. The Types are read on the way up.
    AtNeighbour(Walk),
    /// Nothing is.
    Done(QueueEntry, TypePlace),
}

/// A way up the types of a queue, from the lowest on.
#[derive(Clone, Copy)]
pub struct Walk {
    /// The Queue.
    pub queue: QueueEntry,
    /// The type that was read last, which is lower than the message's.
    pub lower: Option<i64>,
    /// The type of which the Type is next.
    pub next: i64,
    /// As many Types are read at most.
    pub left: u32,
}

/// Where a way up leads from the Type that was read.
#[derive(Clone, Copy)]
pub enum Ahead {
    /// To the place of the message's type.
    Ends(TypePlace),
    /// To the Type of this type, and as many Types are read at most.
    Goes(i64, u32),
}

impl Stage {
    /// Nothing is read yet.
    pub fn begin(caller: Caller, arguments: &SendArguments) -> Stage
        ensures knows { (s : State) → KnowsAt caller arguments.now result s }
        ensures few { asks_left result ≤ 1027 }
    {
        if is_refused_unread(arguments) {
            return Stage::Refused(Errno::EINVAL);
        }
        Stage::Seeking(Sought::Unread)
    }

    /// What is asked next, where there is something to ask.
    pub fn wants(&self, arguments: &SendArguments) -> Option<Wanted>
        ensures { result ≡ asked arguments.now self.now }
    {
        match self {
            Stage::Seeking(sought) => sought.wants(arguments.id),
            Stage::AtType(_) => Some(Wanted::At(type_key(arguments.id, arguments.mtype))),
            Stage::AtNeighbour(walk) => Some(Wanted::At(type_key(arguments.id, walk.next))),
            Stage::Refused(_) | Stage::Full | Stage::Done(..) => None,
        }
    }

    /// It goes on by what is known of the queue, in place: it is still sought, or it is found, or calls
    /// on it are refused. It stands in whoever goes on.
    #[inline(always)]
    fn at_sought(&mut self, caller: Caller, arguments: &SendArguments, sought: &Sought)
        ensures told { (s : State) → IsAllowed arguments.now → Tells arguments.now.id sought.now s →
            KnowsAt caller arguments.now self.new s }
        ensures fewer { asks_left self.new ≤ reads_left sought.now + 1025 }
    {
        match sought {
            Sought::Unread => *self = Stage::Seeking(Sought::Unread),
            Sought::Absent => *self = Stage::Seeking(Sought::Absent),
            Sought::Found(queue) => self.at_queue(caller, arguments, queue),
            Sought::Refused(errno) => *self = Stage::Refused(*errno),
        }
    }

    /// It goes on by what the Queue says: no permission, no room, or more is to be read.
    #[inline(always)]
    fn at_queue(&mut self, caller: Caller, arguments: &SendArguments, queue: &QueueEntry)
        ensures told { (s : State) → IsAllowed arguments.now →
            IsEntryOf arguments.now.id queue.now s → KnowsAt caller arguments.now self.new s }
        ensures fewer { asks_left self.new ≤ 1025 }
    {
        if permissions_in(queue).keeps_out(Access::Write, caller) {
            *self = Stage::Refused(Errno::EACCES);
            return;
        }
        if lacks_room_in(arguments.body.len(), queue) {
            *self = Stage::Full;
            return;
        }
        *self = Stage::AtType(*queue);
    }

    /// Tells the record at that key, or that there is none. It goes on in place, since a stage is
    /// large. After an error it stands where it stood.
    #[inline(always)]
    pub fn take(
        &mut self,
        caller: Caller,
        arguments: &SendArguments,
        found: Option<Record<'_>>,
    ) -> Result<(), NotASystem>
        requires { AsksRecord (asked arguments.now self.old) }
        ensures told { (s : State) → IsFiled s → KnowsAt caller arguments.now self.old s →
            IsTold s (asked arguments.now self.old) found.entry →
            Gives result (λ _. KnowsAt caller arguments.now self.new s) }
        ensures fewer { OnOk result (asks_left self.new < asks_left self.old) }
        ensures err { OnErr result (self.new ≡ self.old) }
    {
        let Some(found) = found else {
            return self.take_none(caller, arguments);
        };
        match found {
            Record::Queue(queue) => self.take_queue(caller, arguments, &queue),
            Record::Type(entry) => self.take_type(caller, arguments, &entry),
            Record::Counter(_) => Err(NotASystem),
            Record::Key(_) => Err(NotASystem),
            Record::Message(_) => Err(NotASystem),
        }
    }

    /// Tells that there is no record at that key.
    #[inline(always)]
    pub fn take_none(&mut self, caller: Caller, arguments: &SendArguments) -> Result<(), NotASystem>
        requires { AsksRecord (asked arguments.now self.old) }
        ensures told { (s : State) → IsFiled s → KnowsAt caller arguments.now self.old s →
            IsTold s (asked arguments.now self.old) None →
            Gives result (λ _. KnowsAt caller arguments.now self.new s) }
        ensures fewer { OnOk result (asks_left self.new < asks_left self.old) }
        ensures err { OnErr result (self.new ≡ self.old) }
    {
        match self {
            Stage::Seeking(sought) => match sought {
                Sought::Unread => {
                    *self = Stage::Seeking(Sought::Absent);
                    Ok(())
                }
                Sought::Absent | Sought::Found(_) | Sought::Refused(_) => Err(NotASystem),
            },
            Stage::AtType(queue) => {
                match walk(caller, arguments, queue) {
                    Ahead::Ends(place) => *self = Stage::Done(*queue, place),
                    Ahead::Goes(next, left) => {
                        *self = Stage::AtNeighbour(Walk {
                            queue: *queue,
                            lower: None,
                            next,
                            left,
                        });
                    }
                }
                Ok(())
            }
            Stage::AtNeighbour(_) => Err(NotASystem),
            Stage::Refused(_) | Stage::Full | Stage::Done(..) => Err(NotASystem),
        }
    }

    /// Tells the Queue at that key, which is lent: it is copied once.
    #[inline(always)]
    pub fn take_queue(
        &mut self,
        caller: Caller,
        arguments: &SendArguments,
        queue: &QueueEntry,
    ) -> Result<(), NotASystem>
        requires { AsksRecord (asked arguments.now self.old) }
        ensures told { (s : State) → IsFiled s → KnowsAt caller arguments.now self.old s →
            IsTold s (asked arguments.now self.old) (Some (records.Queue queue.now)) →
            Gives result (λ _. KnowsAt caller arguments.now self.new s) }
        ensures fewer { OnOk result (asks_left self.new < asks_left self.old) }
        ensures err { OnErr result (self.new ≡ self.old) }
    {
        match self {
            Stage::Seeking(sought) => match sought {
                Sought::Unread => {
                    self.at_queue(caller, arguments, queue);
                    Ok(())
                }
                Sought::Absent | Sought::Found(_) | Sought::Refused(_) => Err(NotASystem),
            },
            Stage::AtType(_) => Err(NotASystem),
            Stage::AtNeighbour(_) => Err(NotASystem),
            Stage::Refused(_) | Stage::Full | Stage::Done(..) => Err(NotASystem),
        }
    }

    /// Tells the Type at that key: that of the message's type, or one on the way up.
    #[inline(always)]
    pub fn take_type(
        &mut self,
        caller: Caller,
        arguments: &SendArguments,
        entry: &TypeEntry,
    ) -> Result<(), NotASystem>
        requires { AsksRecord (asked arguments.now self.old) }
        ensures told { (s : State) → IsFiled s → KnowsAt caller arguments.now self.old s →
            IsTold s (asked arguments.now self.old) (Some (records.Type entry.now)) →
            Gives result (λ _. KnowsAt caller arguments.now self.new s) }
        ensures fewer { OnOk result (asks_left self.new < asks_left self.old) }
        ensures err { OnErr result (self.new ≡ self.old) }
    {
        match self {
            Stage::AtNeighbour(walk) => {
                match take_neighbour(caller, arguments, walk, entry)? {
                    Ahead::Ends(place) => *self = Stage::Done(walk.queue, place),
                    Ahead::Goes(next, left) => {
                        walk.lower = Some(walk.next);
                        walk.next = next;
                        walk.left = left;
                    }
                }
                Ok(())
            }
            Stage::AtType(queue) => {
                *self = Stage::Done(*queue, TypePlace::Standing(entry.last));
                Ok(())
            }
            Stage::Seeking(_) => Err(NotASystem),
            Stage::Refused(_) | Stage::Full | Stage::Done(..) => Err(NotASystem),
        }
    }

    /// Tells whether the id is below the next id. After an error it stands where it stood.
    pub fn take_given(
        &mut self,
        caller: Caller,
        arguments: &SendArguments,
        given: bool,
    ) -> Result<(), NotASystem>
        ensures told { (s : State) → IsFiled s → KnowsAt caller arguments.now self.old s →
            AsksGiven (asked arguments.now self.old) →
            IsToldGiven s (asked arguments.now self.old) given →
            Gives result (λ _. KnowsAt caller arguments.now self.new s) }
        ensures fewer { OnOk result (asks_left self.new < asks_left self.old) }
        ensures err { OnErr result (self.new ≡ self.old) }
    {
        match self {
            Stage::Seeking(sought) => {
                let mut sought = *sought;
                sought.take_given(arguments.id, given)?;
                self.at_sought(caller, arguments, &sought);
                Ok(())
            }
            Stage::Refused(_)
            | Stage::Full
            | Stage::AtType(_)
            | Stage::AtNeighbour(_)
            | Stage::Done(..) => Err(NotASystem),
        }
    }
}

/// Whether it is refused with EINVAL before anything is read, as one without a type, too long, or on the
/// id 0 is.
pub fn is_refused_unread(arguments: &SendArguments) -> bool
    ensures refused { result ≡ true → (c : Caller) (s : State) →
        KnowsAt c arguments.now (Refused EINVAL) s }
    ensures begun { result ≡ false → (c : Caller) (s : State) →
        KnowsAt c arguments.now (Seeking Unread) s }
{
    arguments.mtype < 1 || arguments.body.len() > MAX_BODY || arguments.id == 0
}
