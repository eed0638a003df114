//! Whether a system has a record at a key.

ghost use Rattle.std.specs.Prelude.{◌≡◌, ◌<◌, true, Option, None, IsTrue, IfSome, IfNone};
ghost use Rattle.std.specs.Option.{is_some};
ghost use Rattle.std.specs.List.{AllPairs, find};
ghost use Rattle.queue_model.specs.declared.message.Message.{Message};
ghost use Rattle.queue_model.specs.Found.{IsFoundAt};
ghost use Rattle.queue_model.specs.Rules.{has_id, has_key, is_key};
ghost use Rattle.type_chains.specs.Lists.{types};
ghost use Rattle.type_chains.specs.RecordOf.{at_queue_of, has_number, has_serial, message_record, record_of, type_record};

use bucket_page::RecordKey;
use queue_model::{Messages, System};
use queue_records::{COUNTER, KEY, MESSAGE, QUEUE, TYPE, TypeEntry};

/// Whether a system has a record at a key. The value that stands there tells of a Type where to
/// look first.
pub(crate) fn needs(system: &System, key: &RecordKey, value: &[u8]) -> bool
    ensures { result ≡ is_some (record_of system.now key.now) }
{
    match key.kind {
        COUNTER => key.queue == 0 && key.number == 0,
        KEY => key.queue == 0 && has_key(system, key.number),
        QUEUE => key.number == 0 && has_queue(system, key.queue),
        TYPE => needs_type(system, key, value),
        MESSAGE => needs_message(system, key),
        _ => false,
    }
}

/// Whether the queue of a key holds the type that the key's number says.
fn needs_type(system: &System, key: &RecordKey, value: &[u8]) -> bool
    ensures { result ≡ is_some (at_queue_of type_record system.now key.now) }
{
    let Some(place) = place_of(system, key.queue) else {
        return false;
    };
    system.keeps_limits();
    let messages = &system.queue(place).messages;
    names_message(messages, key, value) || has_type(messages, key.number)
}

/// Whether the value of a Type names a message of that type. Where the value is right, all messages
/// need not be looked at.
fn names_message(messages: &Messages, key: &RecordKey, value: &[u8]) -> bool
    requires { AllPairs (λ (m n : Message). m.serial < n.serial) messages.now }
    ensures { IsTrue result →
        true ≡ is_some (find (has_number key.now.number) (types messages.now)) }
{
    let Ok(entry) = TypeEntry::decode(key, value) else {
        return false;
    };
    let Some(place) = place_of_message(messages, entry.first) else {
        return false;
    };
    has_number(messages.get(place).mtype, key.number)
}

/// Whether the queue of a key holds the message whose serial is the key's number.
fn needs_message(system: &System, key: &RecordKey) -> bool
    ensures { result ≡ is_some (at_queue_of message_record system.now key.now) }
{
    let Some(place) = place_of(system, key.queue) else {
        return false;
    };
    system.keeps_limits();
    has_message(&system.queue(place).messages, key.number)
}

/// The place of the queue of an id. Ids ascend, so each look halves the places that are left.
pub(crate) fn place_of(system: &System, id: u32) -> Option<usize>
    ensures some { IfSome result (IsFoundAt (has_id id) system.now.queues) }
    ensures none { IfNone result (find (has_id id) system.now.queues ≡ None) }
{
    system.keeps_limits();
    let mut low = 0;
    let mut high = system.queues();
    'search: while low < high {
        let middle = low + (high - low) / 2;
        let other = system.queue(middle).id;
        if other == id {
            return Some(middle);
        }
        if other < id {
            low = middle + 1;
        } else {
            high = middle;
        }
    }
    None
}

/// Whether a queue has this id.
fn has_queue(system: &System, id: u32) -> bool
    ensures { result ≡ is_some (find (has_id id) system.now.queues) }
{
    place_of(system, id).is_some()
}

/// Whether a queue has this key.
fn has_key(system: &System, number: u64) -> bool
    ensures { result ≡ is_some (find (has_key number) system.now.queues) }
{
    for place in 0..system.queues() {
        if is_key(system.queue(place).key, number) {
            return true;
        }
    }
    false
}

/// Whether a key is this one.
fn is_key(key: Option<u32>, number: u64) -> bool
    ensures { result ≡ is_key number key }
{
    match key {
        Some(key) => key as u64 == number,
        None => false,
    }
}

/// Whether one of these messages has the type of a number.
fn has_type(messages: &Messages, number: u64) -> bool
    ensures { result ≡ is_some (find (has_number number) (types messages.now)) }
{
    for place in 0..messages.len() {
        if has_number(messages.get(place).mtype, number) {
            return true;
        }
    }
    false
}

/// Whether a type is the one of this number.
fn has_number(mtype: i64, number: u64) -> bool
    ensures { result ≡ has_number number mtype }
{
    mtype.cast_unsigned() == number
}

/// Whether one of these messages has this serial.
fn has_message(messages: &Messages, serial: u64) -> bool
    requires { AllPairs (λ (m n : Message). m.serial < n.serial) messages.now }
    ensures { result ≡ is_some (find (has_serial serial) messages.now) }
{
    place_of_message(messages, serial).is_some()
}

/// The place of the message of a serial. Serials ascend, so where some are missing each look halves
/// the places that are left.
pub(crate) fn place_of_message(messages: &Messages, serial: u64) -> Option<usize>
    requires { AllPairs (λ (m n : Message). m.serial < n.serial) messages.now }
    ensures some { IfSome result (IsFoundAt (has_serial serial) messages.now) }
    ensures none { IfNone result (find (has_serial serial) messages.now ≡ None) }
{
    if let Some(place) = place_without_gaps(messages, serial) {
        return Some(place);
    }
    let mut low = 0;
    let mut high = messages.len();
    'search: while low < high {
        let middle = low + (high - low) / 2;
        let other = messages.get(middle).serial;
        if other == serial {
            return Some(middle);
        }
        if other < serial {
            low = middle + 1;
        } else {
            high = middle;
        }
    }
    None
}

/// The place of the message of a serial, where no message before it is missing.
fn place_without_gaps(messages: &Messages, serial: u64) -> Option<usize>
    requires { AllPairs (λ (m n : Message). m.serial < n.serial) messages.now }
    ensures { IfSome result (IsFoundAt (has_serial serial) messages.now) }
{
    if messages.len() == 0 {
        return None;
    }
    let first = messages.get(0).serial;
    if serial < first {
        return None;
    }
    let place = (serial - first) as usize;
    if place < messages.len() && messages.get(place).serial == serial {
        return Some(place);
    }
    None
}
