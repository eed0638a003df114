//! The records of message queues.

ghost use Rattle.std.specs.Prelude.{◌≡◌, ◌↔◌, IsTrue, IfOk, Ok};
ghost use Rattle.queue_records.specs.Range.{IsInRange};
ghost use Rattle.queue_records.specs.Records.{FitsFields, SpellsRecord};
ghost use Rattle.queue_records.specs.Spelling.{key_of, value_of};

use crate::bad_record::BadRecord;
use crate::counter::Counter;
use crate::key_entry::KeyEntry;
use crate::layout::{COUNTER, KEY, MESSAGE, QUEUE, TYPE};
use crate::message_entry::MessageEntry;
use crate::queue_entry::QueueEntry;
use crate::type_entry::TypeEntry;
use crate::value::Value;
use bucket_page::RecordKey;

/// A record: what its key and its value say together.
#[derive(Drop, PartialEq)]
pub enum Record<'a> {
    /// Counts queues.
    Counter(Counter),
    /// Gives a key its queue.
    Key(KeyEntry),
    /// A queue.
    Queue(QueueEntry),
    /// A message type that stands on a queue.
    Type(TypeEntry),
    /// A message.
    Message(MessageEntry<'a>),
}

impl<'a> Record<'a> {
    /// Its key.
    pub fn key(&self) -> RecordKey
        ensures { result ≡ key_of self.now }
    {
        match self {
            Record::Counter(counter) => counter.key(),
            Record::Key(entry) => entry.key(),
            Record::Queue(queue) => queue.key(),
            Record::Type(entry) => entry.key(),
            Record::Message(message) => message.key(),
        }
    }

    /// Whether it keeps the limits that one record has to keep by itself.
    pub fn is_in_range(&self) -> bool
        ensures { IsTrue result ↔ IsInRange self.now }
    {
        match self {
            Record::Counter(counter) => counter.is_in_range(),
            Record::Key(entry) => entry.is_in_range(),
            Record::Queue(queue) => queue.is_in_range(),
            Record::Type(entry) => entry.is_in_range(),
            Record::Message(message) => message.is_in_range(),
        }
    }

    /// The numbers of each record fit their fields.
    pub fn fits(&self)
        ensures { FitsFields self.now }
    {
        match self {
            Record::Counter(counter) => counter.fits(),
            Record::Key(entry) => entry.fits(),
            Record::Queue(queue) => queue.fits(),
            Record::Type(entry) => entry.fits(),
            Record::Message(message) => message.fits(),
        }
    }

    /// The record that a key and a value spell; 43 exactly where they spell none. It stands in whoever
    /// reads one, and `encode` in whoever writes one, since a record is moved through memory else.
    #[inline(always)]
    pub fn decode(key: &RecordKey, value: &'a [u8]) -> Result<Record<'a>, BadRecord>
        ensures ok { IfOk result (λ entry. SpellsRecord entry key.now value.now) }
        ensures only { (entry : Record) → SpellsRecord entry key.now value.now → result ≡ Ok entry }
    {
        match key.kind {
            COUNTER => Ok(Record::Counter(Counter::decode(key, value)?)),
            KEY => Ok(Record::Key(KeyEntry::decode(key, value)?)),
            QUEUE => Ok(Record::Queue(QueueEntry::decode(key, value)?)),
            TYPE => Ok(Record::Type(TypeEntry::decode(key, value)?)),
            MESSAGE => Ok(Record::Message(MessageEntry::decode(key, value)?)),
            _ => Err(BadRecord),
        }
    }

    /// Makes the value that of this record. Its key and this value decode to it.
    #[inline(always)]
    pub fn encode(&self, value: &mut Value)
        requires { IsInRange self.now }
        ensures value { value.new ≡ value_of self.now }
        ensures spells { SpellsRecord self.now (key_of self.now) value.new }
    {
        self.fits();
        match self {
            Record::Counter(counter) => counter.encode(value),
            Record::Key(entry) => entry.encode(value),
            Record::Queue(queue) => queue.encode(value),
            Record::Type(entry) => entry.encode(value),
            Record::Message(message) => message.encode(value),
        }
    }
}
