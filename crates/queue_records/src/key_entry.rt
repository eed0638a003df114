//! The record of a queue's key.

ghost use Rattle.std.specs.Prelude.{◌≡◌, length, IfOk, Ok};
ghost use Rattle.queue_records.specs.declared.record.Record.TheVariants as records;
ghost use Rattle.queue_records.specs.Range.{IsKeyInRange};
ghost use Rattle.queue_records.specs.Reading.{Gives, is_key, key_at, reads_key};
ghost use Rattle.queue_records.specs.Records.{FitsKey, SpellsRecord};
ghost use Rattle.queue_records.specs.Spelling.{key_entry_bytes, key_key};

use crate::bad_record::BadRecord;
use crate::field::{four_fits, is_id};
use crate::layout::{KEY, KEY_BYTES};
use crate::value::Value;
use bucket_page::RecordKey;
use bucket_page::fields::four_at;

/// Which queue a key has. A private queue has no such record.
#[derive(Clone, Copy, PartialEq, Eq)]
pub struct KeyEntry {
    /// The key.
    pub key: u32,
    /// The id of its queue.
    pub id: u32,
}

impl KeyEntry {
    /// The key of its record.
    pub fn key(&self) -> RecordKey
        ensures { result ≡ key_key self.now }
    {
        RecordKey {
            kind: KEY,
            queue: 0,
            number: self.key as u64,
        }
    }

    /// The Key that a key and a value spell; it is refused exactly where they spell none.
    pub fn decode(key: &RecordKey, value: &[u8]) -> Result<KeyEntry, BadRecord>
        ensures ok { IfOk result (λ entry. SpellsRecord (records.Key entry) key.now value.now) }
        ensures only { (entry : KeyEntry) →
            SpellsRecord (records.Key entry) key.now value.now → result ≡ Ok entry }
    {
        read(key, value)
    }

    /// Its numbers fit their fields.
    pub(crate) fn fits(&self)
        ensures { FitsKey self.now }
    {
        four_fits(self.key);
    }

    /// Whether it keeps its limits.
    pub(crate) fn is_in_range(&self) -> bool
        ensures { result ≡ is_key self.now }
    {
        is_id(self.id)
    }

    /// Makes the value that of this record.
    pub fn encode(&self, value: &mut Value)
        requires { IsKeyInRange self.now }
        ensures { value.new ≡ key_entry_bytes self.now }
    {
        value.clear();
        value.put_four(self.id);
    }
}

fn read(key: &RecordKey, value: &[u8]) -> Result<KeyEntry, BadRecord>
    ensures { Gives result (reads_key key.now value.now) (key_at key.now value.now) }
{
    if value.len() != KEY_BYTES {
        return Err(BadRecord);
    }
    if key.number > u32::MAX as u64 {
        return Err(BadRecord);
    }
    let entry = KeyEntry {
        key: key.number as u32,
        id: four_at(value, 0),
    };
    if *key != entry.key() {
        return Err(BadRecord);
    }
    if !entry.is_in_range() {
        return Err(BadRecord);
    }
    Ok(entry)
}
