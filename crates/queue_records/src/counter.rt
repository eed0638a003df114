//! The record that counts queues.

ghost use Rattle.std.specs.Prelude.{◌≡◌, length, IfOk, Ok};
ghost use Rattle.queue_records.specs.declared.record.Record.TheVariants as records;
ghost use Rattle.queue_records.specs.Range.{IsCounterInRange};
ghost use Rattle.queue_records.specs.Reading.{Gives, counter_at, is_counter, reads_counter};
ghost use Rattle.queue_records.specs.Records.{FitsCounter, SpellsRecord};
ghost use Rattle.queue_records.specs.Spelling.{counter_bytes, counter_key};

use crate::bad_record::BadRecord;
use crate::field::four_fits;
use crate::layout::{COUNTER, COUNTER_BYTES};
use crate::value::Value;
use bucket_page::RecordKey;
use bucket_page::fields::four_at;
use numbers::limits::MAX_QUEUES;

/// Which ids were given out, and how many queues are alive. A file has one such record.
#[derive(Clone, Copy, PartialEq, Eq)]
pub struct Counter {
    /// The id that the next new queue gets, at least 1; `END_OF_IDS` where none is left.
    pub next_id: u32,
    /// Queues alive, at most `MAX_QUEUES`.
    pub queues_alive: u32,
}

impl Counter {
    /// The key of its record.
    pub fn key(&self) -> RecordKey
        ensures { result ≡ counter_key }
    {
        RecordKey {
            kind: COUNTER,
            queue: 0,
            number: 0,
        }
    }

    /// The Counter that a key and a value spell; it is refused exactly where they spell none.
    pub fn decode(key: &RecordKey, value: &[u8]) -> Result<Counter, BadRecord>
        ensures ok { IfOk result (λ counter.
            SpellsRecord (records.Counter counter) key.now value.now) }
        ensures only { (counter : Counter) →
            SpellsRecord (records.Counter counter) key.now value.now → result ≡ Ok counter }
    {
        read(key, value)
    }

    /// Its numbers fit their fields.
    pub(crate) fn fits(&self)
        ensures { FitsCounter self.now }
    {
        four_fits(self.next_id);
    }

    /// Whether it keeps its limits.
    pub(crate) fn is_in_range(&self) -> bool
        ensures { result ≡ is_counter self.now }
    {
        self.next_id >= 1 && self.queues_alive <= MAX_QUEUES
    }

    /// Makes the value that of this record.
    pub fn encode(&self, value: &mut Value)
        requires { IsCounterInRange self.now }
        ensures { value.new ≡ counter_bytes self.now }
    {
        value.clear();
        value.put_four(self.next_id);
        value.put_four(self.queues_alive);
    }
}

fn read(key: &RecordKey, value: &[u8]) -> Result<Counter, BadRecord>
    ensures { Gives result (reads_counter key.now value.now) (counter_at value.now) }
{
    if value.len() != COUNTER_BYTES {
        return Err(BadRecord);
    }
    let counter = counter_at(value);
    if *key != counter.key() {
        return Err(BadRecord);
    }
    if !counter.is_in_range() {
        return Err(BadRecord);
    }
    Ok(counter)
}

/// What the fields of the value say.
fn counter_at(value: &[u8]) -> Counter
    requires { length value.now ≡ COUNTER_BYTES }
    ensures { result ≡ counter_at value.now }
{
    Counter {
        next_id: four_at(value, 0),
        queues_alive: four_at(value, 4),
    }
}
