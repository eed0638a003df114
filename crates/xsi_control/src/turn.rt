//! A turn of a Remove's sweep.

ghost use Rattle.std.specs.Prelude.{◌≡◌, ℕ, None, OnErr, OnOk, slice_index_or};
ghost use Rattle.queue_model.specs.declared.queue.Queue.{Queue};
ghost use Rattle.queue_model.specs.State.{State};
ghost use Rattle.queue_records.specs.Keys.{key_of_message};
ghost use Rattle.xsi_inquiry.specs.Sweeping.{IsTurn, swept};
ghost use Rattle.xsi_inquiry.specs.Telling.{Gives, IsFiled};
ghost use Rattle.xsi_control.specs.Turns.{IsAtTurn, begun_turn, read_of, turn_next, turn_plan, turn_wanted, type_deletion};

use queue_records::{MessageEntry, Record, message_key, type_key};
use xsi_inquiry::{NotASystem, Wanted, Write, message_in};

/// A turn of a sweep: of the queue's messages it takes away the first that is left. It
/// reads that Message alone.
#[derive(Clone, Copy)]
pub struct Turn {
    /// The queue.
    pub id: u32,
    /// The message.
    pub serial: u64,
    /// What was read of it.
    pub read: Option<MessageRead>,
}

/// What a turn keeps of its Message.
#[derive(Clone, Copy)]
pub struct MessageRead {
    /// The serial of the next turn; none behind the last message.
    pub next: Option<u64>,
    /// The type of which it is the last message, if it is.
    pub last_of: Option<i64>,
}

impl MessageRead {
    /// Of a Message.
    pub fn of(message: &MessageEntry<'_>) -> MessageRead
        ensures { result ≡ read_of message.now }
    {
        MessageRead {
            next: message.next,
            last_of: match message.next_of_type {
                Some(_) => None,
                None => Some(message.mtype),
            },
        }
    }
}

impl Turn {
    /// Nothing is read yet.
    pub fn new(id: u32, serial: u64) -> Turn
        ensures { result ≡ begun_turn id serial }
    {
        Turn {
            id,
            serial,
            read: None,
        }
    }

    /// What is asked next: the Message, until it is read.
    pub fn wants(&self) -> Option<Wanted>
        ensures { result ≡ turn_wanted self.now }
    {
        match self.read {
            None => Some(Wanted::At(message_key(self.id, self.serial))),
            Some(_) => None,
        }
    }

    /// Tells it the Message. For every lawful system of whose queue the messages before this
    /// one were swept, what is written then takes this one away too. After an error it
    /// stands where it stood.
    pub fn take(&mut self, found: Option<Record<'_>>) -> Result<(), NotASystem>
        ensures told { (count : ℕ) (q : Queue) (s : State) → IsFiled s →
            IsAtTurn count q s self.old →
            found.entry ≡ swept self.old.id count s (key_of_message self.old.id self.old.serial) →
            Gives result (λ _. IsTurn self.old.id count q s (turn_next self.new)
            (turn_plan self.new)) }
        ensures ended { OnOk result (turn_wanted self.new ≡ None) }
        ensures err { OnErr result (self.new ≡ self.old) }
    {
        let Some(entry) = found else {
            return Err(NotASystem);
        };
        let message = message_in(entry)?;
        self.read = Some(MessageRead::of(&message));
        Ok(())
    }

    /// The write in this slot, where there is one: the Message goes, and its Type with the
    /// last message of it.
    pub fn write(&self, slot: usize) -> Option<Write>
        ensures { result ≡ slice_index_or (turn_plan self.now).slots slot None }
    {
        let read = self.read?;
        match slot {
            0 => Some(Write::Delete(message_key(self.id, self.serial))),
            1 => type_deletion(self.id, read.last_of),
            _ => None,
        }
    }

    /// The serial of the next turn; none behind the last message.
    pub fn next(&self) -> Option<u64>
        ensures { result ≡ turn_next self.now }
    {
        self.read?.next
    }
}

/// The Type goes with the last message of it.
fn type_deletion(id: u32, last_of: Option<i64>) -> Option<Write>
    ensures { result ≡ type_deletion id last_of }
{
    let mtype = last_of?;
    Some(Write::Delete(type_key(id, mtype)))
}
