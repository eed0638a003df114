//! The record of a message type that stands on a queue.

ghost use Rattle.std.specs.Prelude.{◌≡◌, ◌<◌, ◌^◌, length, IfOk, OnOk, Ok};
ghost use Rattle.queue_records.specs.declared.record.Record.TheVariants as records;
ghost use Rattle.queue_records.specs.Range.{IsTypeInRange};
ghost use Rattle.queue_records.specs.Reading.{Gives, is_type_entry, reads_type, type_at};
ghost use Rattle.queue_records.specs.Records.{FitsType, SpellsRecord};
ghost use Rattle.queue_records.specs.Spelling.{type_bytes, type_key};

use crate::bad_record::BadRecord;
use crate::field::{
    eight_fits, is_id, is_type_link, type_fits, type_link_at, type_link_fits, type_link_number,
    type_number, type_of,
};
use crate::layout::{TYPE, TYPE_BYTES};
use crate::value::Value;
use bucket_page::RecordKey;
use bucket_page::fields::eight_at;

/// A type of which a message stands on a queue. The messages of a type are a list, and so are the
/// types of a queue, in ascending order.
#[derive(Clone, Copy, PartialEq, Eq)]
pub struct TypeEntry {
    /// The id of the queue.
    pub id: u32,
    /// The type, at least 1.
    pub mtype: i64,
    /// The serial of the first message of it.
    pub first: u64,
    /// The serial of the last message of it.
    pub last: u64,
    /// The next lower type on the queue.
    pub lower: Option<i64>,
    /// The next higher type on the queue.
    pub higher: Option<i64>,
}

impl TypeEntry {
    /// The key of its record.
    pub fn key(&self) -> RecordKey
        ensures { result ≡ type_key self.now }
    {
        RecordKey {
            kind: TYPE,
            queue: self.id,
            number: type_number(self.mtype),
        }
    }

    /// The Type that a key and a value spell; it is refused exactly where they spell none.
    pub fn decode(key: &RecordKey, value: &[u8]) -> Result<TypeEntry, BadRecord>
        ensures ok { IfOk result (λ entry. SpellsRecord (records.Type entry) key.now value.now) }
        ensures only { (entry : TypeEntry) →
            SpellsRecord (records.Type entry) key.now value.now → result ≡ Ok entry }
    {
        read(key, value)
    }

    /// Its numbers fit their fields.
    pub(crate) fn fits(&self)
        ensures { FitsType self.now }
    {
        type_fits(self.mtype);
        eight_fits(self.first);
        eight_fits(self.last);
        type_link_fits(self.lower);
        type_link_fits(self.higher);
    }

    /// Whether it keeps its limits.
    pub(crate) fn is_in_range(&self) -> bool
        ensures { result ≡ is_type_entry self.now }
    {
        is_id(self.id)
            && self.mtype >= 1
            && self.first >= 1
            && self.last >= 1
            && is_type_link(self.lower)
            && is_type_link(self.higher)
    }

    /// Makes the value that of this record.
    pub fn encode(&self, value: &mut Value)
        requires { IsTypeInRange self.now }
        ensures { value.new ≡ type_bytes self.now }
    {
        value.clear();
        value.put_eight(self.first);
        value.put_eight(self.last);
        value.put_eight(type_link_number(self.lower));
        value.put_eight(type_link_number(self.higher));
    }
}

fn read(key: &RecordKey, value: &[u8]) -> Result<TypeEntry, BadRecord>
    ensures value { Gives result (reads_type key.now value.now) (type_at key.now value.now) }
    ensures fits { OnOk result (key.now.number < 2 ^ 64) }
{
    if value.len() != TYPE_BYTES {
        return Err(BadRecord);
    }
    let entry = type_at(key, value);
    if *key != entry.key() {
        return Err(BadRecord);
    }
    if !entry.is_in_range() {
        return Err(BadRecord);
    }
    Ok(entry)
}

/// What the key and the fields of the value say.
fn type_at(key: &RecordKey, value: &[u8]) -> TypeEntry
    requires { length value.now ≡ TYPE_BYTES }
    ensures { result ≡ type_at key.now value.now }
{
    TypeEntry {
        id: key.queue,
        mtype: type_of(key.number),
        first: eight_at(value, 0),
        last: eight_at(value, 8),
        lower: type_link_at(value, 16),
        higher: type_link_at(value, 24),
    }
}
