//! Records of version 1, whose Queues have no owners and no mode (docs/FORMAT.md, "Version 1").

ghost use Rattle.std.specs.Prelude.{◌≡◌, ◌↔◌, ◌++◌, length, IfOk, IsTrue, Ok};
ghost use Rattle.queue_records.specs.declared.record.Record.TheVariants as records;
ghost use Rattle.queue_records.specs.Older.{IsOlder, SpellsOlder, older_end, older_value_of};
ghost use Rattle.queue_records.specs.Range.{IsInRange};
ghost use Rattle.queue_records.specs.Records.{SpellsRecord};
ghost use Rattle.queue_records.specs.Spelling.{key_of};

use crate::bad_record::BadRecord;
use crate::layout::{OLDER_MODE, OLDER_QUEUE_BYTES, QUEUE};
use crate::queue_entry::QueueEntry;
use crate::record::Record;
use crate::value::Value;
use bucket_page::RecordKey;

impl<'a> Record<'a> {
    /// The record that a key and a value of version 1 spell; 43 exactly where they spell none. A
    /// queue's owner and creator are user 0 of group 0, and its mode is 0666.
    pub fn decode_older(key: &RecordKey, value: &'a [u8]) -> Result<Record<'a>, BadRecord>
        ensures ok { IfOk result (λ entry. SpellsOlder entry key.now value.now) }
        ensures only { (entry : Record) →
            SpellsOlder entry key.now value.now → result ≡ Ok entry }
    {
        match key.kind {
            QUEUE => Ok(Record::Queue(QueueEntry::decode_older(key, value)?)),
            _ => Record::decode(key, value),
        }
    }

    /// Makes the value that of this record in version 1. What that version lacks is not told.
    pub fn encode_older(&self, value: &mut Value)
        requires { IsInRange self.now }
        ensures value { value.new ≡ older_value_of self.now }
        // Its key and this value decode to it.
        ensures spells { IsOlder self.now → SpellsOlder self.now (key_of self.now) value.new }
    {
        match self {
            Record::Queue(queue) => {
                self.fits();
                queue.encode_older(value);
            }
            _ => self.encode(value),
        }
    }

    /// Whether this is its value in version 1.
    pub fn is_spelled_older(&self, value: &[u8]) -> bool
        ensures { IsTrue result ↔ SpellsOlder self.now (key_of self.now) value.now }
    {
        if !self.is_in_range() {
            return false;
        }
        let mut spelled = Value::new();
        self.encode(&mut spelled);
        match self {
            Record::Queue(_) => {
                value.len() == OLDER_QUEUE_BYTES
                    && completed(value).as_slice() == spelled.as_slice()
            }
            _ => value == spelled.as_slice(),
        }
    }
}

impl QueueEntry {
    /// The Queue that a key and a value of version 1 spell; it is refused exactly where they spell
    /// none.
    pub fn decode_older(key: &RecordKey, value: &[u8]) -> Result<QueueEntry, BadRecord>
        ensures ok { IfOk result (λ queue.
            SpellsRecord (records.Queue queue) key.now (value.now ++ older_end)) }
        ensures only { (queue : QueueEntry) →
            SpellsRecord (records.Queue queue) key.now (value.now ++ older_end)
            → result ≡ Ok queue }
    {
        if value.len() != OLDER_QUEUE_BYTES {
            return Err(BadRecord);
        }
        QueueEntry::decode(key, completed(value).as_slice())
    }
}

/// An older value with what it lacks.
fn completed(value: &[u8]) -> Value
    requires { length value.now ≡ OLDER_QUEUE_BYTES }
    ensures { result ≡ value.now ++ older_end }
{
    let mut whole = Value::new();
    whole.put_all(value);
    whole.put_four(0);
    whole.put_four(0);
    whole.put_four(0);
    whole.put_four(0);
    whole.put_two(OLDER_MODE);
    whole
}
