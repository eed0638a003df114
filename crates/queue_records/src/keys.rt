//! The keys of records (docs/FORMAT.md, "Records").

ghost use Rattle.std.specs.Prelude.{◌≡◌};
ghost use Rattle.queue_records.specs.Keys.{key_of_key, key_of_message, key_of_queue, key_of_type};
ghost use Rattle.queue_records.specs.Spelling.{counter_key};

use crate::field::type_number;
use crate::layout::{COUNTER, KEY, MESSAGE, QUEUE, TYPE};
use bucket_page::RecordKey;

/// Of the Counter.
pub fn counter_key() -> RecordKey
    ensures { result ≡ counter_key }
{
    RecordKey {
        kind: COUNTER,
        queue: 0,
        number: 0,
    }
}

/// Of the Key of a key.
pub fn key_key(key: u32) -> RecordKey
    ensures { result ≡ key_of_key key }
{
    RecordKey {
        kind: KEY,
        queue: 0,
        number: key as u64,
    }
}

/// Of the Queue of an id.
pub fn queue_key(id: u32) -> RecordKey
    ensures { result ≡ key_of_queue id }
{
    RecordKey {
        kind: QUEUE,
        queue: id,
        number: 0,
    }
}

/// Of the Type of a type on the queue of an id.
pub fn type_key(id: u32, mtype: i64) -> RecordKey
    ensures { result ≡ key_of_type id mtype }
{
    RecordKey {
        kind: TYPE,
        queue: id,
        number: type_number(mtype),
    }
}

/// Of the Message of a serial on the queue of an id.
pub fn message_key(id: u32, serial: u64) -> RecordKey
    ensures { result ≡ key_of_message id serial }
{
    RecordKey {
        kind: MESSAGE,
        queue: id,
        number: serial,
    }
}
