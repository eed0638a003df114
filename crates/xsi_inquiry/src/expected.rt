//! The record that a key's kind lets expect.

ghost use Rattle.std.specs.Prelude.{◌≡◌, IfOk, Ok};
ghost use Rattle.type_chains.specs.queue_records.declared.message_entry.MessageEntry.{MessageEntry};
ghost use Rattle.type_chains.specs.queue_records.declared.record.Record.TheVariants as records;

use crate::inquiry::NotASystem;
use type_chains::queue_records::{Counter, KeyEntry, MessageEntry, QueueEntry, Record, TypeEntry};

/// The Counter.
pub fn counter_in(found: Record<'_>) -> Result<Counter, NotASystem>
    ensures ok { IfOk result (λ counter. found.entry ≡ records.Counter counter) }
    ensures only { (counter : Counter) →
        found.entry ≡ records.Counter counter → result ≡ Ok counter }
{
    match found {
        Record::Counter(counter) => Ok(counter),
        _ => Err(NotASystem),
    }
}

/// A Key.
pub fn key_in(found: Record<'_>) -> Result<KeyEntry, NotASystem>
    ensures ok { IfOk result (λ key. found.entry ≡ records.Key key) }
    ensures only { (key : KeyEntry) → found.entry ≡ records.Key key → result ≡ Ok key }
{
    match found {
        Record::Key(key) => Ok(key),
        _ => Err(NotASystem),
    }
}

/// A Queue.
pub fn queue_in(found: Record<'_>) -> Result<QueueEntry, NotASystem>
    ensures ok { IfOk result (λ queue. found.entry ≡ records.Queue queue) }
    ensures only { (queue : QueueEntry) → found.entry ≡ records.Queue queue → result ≡ Ok queue }
{
    match found {
        Record::Queue(queue) => Ok(queue),
        _ => Err(NotASystem),
    }
}

/// A Type.
pub fn type_in(found: Record<'_>) -> Result<TypeEntry, NotASystem>
    ensures ok { IfOk result (λ entry. found.entry ≡ records.Type entry) }
    ensures only { (entry : TypeEntry) → found.entry ≡ records.Type entry → result ≡ Ok entry }
{
    match found {
        Record::Type(entry) => Ok(entry),
        _ => Err(NotASystem),
    }
}

/// A Message.
pub fn message_in<'a>(found: Record<'a>) -> Result<MessageEntry<'a>, NotASystem>
    ensures ok { IfOk result (λ message. found.entry ≡ records.Message message) }
    ensures only { (message : MessageEntry) →
        found.entry ≡ records.Message message → result ≡ Ok message }
{
    match found {
        Record::Message(message) => Ok(message),
        _ => Err(NotASystem),
    }
}
