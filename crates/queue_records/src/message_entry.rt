//! The record of a message.

ghost use Rattle.std.specs.Prelude.{◌≡◌, ◌≤◌, ◌<◌, ◌^◌, length, drop, IfOk, OnOk, Ok};
ghost use Rattle.queue_records.specs.declared.record.Record.TheVariants as records;
ghost use Rattle.queue_records.specs.Range.{IsMessageInRange};
ghost use Rattle.queue_records.specs.Reading.{Gives, is_message, message_at, reads_message};
ghost use Rattle.queue_records.specs.Records.{FitsMessage, SpellsRecord};
ghost use Rattle.queue_records.specs.Spelling.{message_bytes, message_key};

use crate::bad_record::BadRecord;
use crate::body::Body;
use crate::field::{
    eight_fits, four_fits, is_id, is_serial_link, serial_at, serial_fits, serial_number, type_fits,
    type_number, type_of,
};
use crate::layout::{MESSAGE, MESSAGE_BYTES};
use crate::value::Value;
use bucket_page::RecordKey;
use bucket_page::fields::{eight_at, four_at};
use numbers::limits::MAX_BODY;

/// A message on a queue. The messages of a queue are a list, and so are those of each of its types.
#[derive(Drop, PartialEq)]
pub struct MessageEntry<'a> {
    /// The id of its queue.
    pub id: u32,
    /// Its serial, at least 1.
    pub serial: u64,
    /// Its type, at least 1.
    pub mtype: i64,
    /// The process that sent it.
    pub sender: u32,
    /// The serial of the message before it on the queue.
    pub previous: Option<u64>,
    /// The serial of the message behind it on the queue.
    pub next: Option<u64>,
    /// The serial of the next message of its type.
    pub next_of_type: Option<u64>,
    /// Its bytes, at most `MAX_BODY`.
    pub body: Body<'a>,
}

impl<'a> MessageEntry<'a> {
    /// The key of its record.
    pub fn key(&self) -> RecordKey
        ensures { result ≡ message_key self.now }
    {
        RecordKey {
            kind: MESSAGE,
            queue: self.id,
            number: self.serial,
        }
    }

    /// The Message that a key and a value spell; it is refused exactly where they spell none. Its
    /// body is lent by the value.
    pub fn decode(key: &RecordKey, value: &'a [u8]) -> Result<MessageEntry<'a>, BadRecord>
        ensures ok { IfOk result (λ message.
            SpellsRecord (records.Message message) key.now value.now) }
        ensures only { (message : MessageEntry) →
            SpellsRecord (records.Message message) key.now value.now → result ≡ Ok message }
    {
        read(key, value)
    }

    /// Its numbers fit their fields.
    pub(crate) fn fits(&self)
        ensures { FitsMessage self.now }
    {
        eight_fits(self.serial);
        type_fits(self.mtype);
        four_fits(self.sender);
        serial_fits(self.previous);
        serial_fits(self.next);
        serial_fits(self.next_of_type);
    }

    /// Whether it keeps its limits.
    pub(crate) fn is_in_range(&self) -> bool
        ensures { result ≡ is_message self.now }
    {
        is_id(self.id)
            && self.serial >= 1
            && self.mtype >= 1
            && is_serial_link(self.previous)
            && is_serial_link(self.next)
            && is_serial_link(self.next_of_type)
            && self.body.len() <= MAX_BODY
    }

    /// Makes the value that of this record.
    pub fn encode(&self, value: &mut Value)
        requires { IsMessageInRange self.now }
        ensures { value.new ≡ message_bytes self.now }
    {
        value.clear();
        value.put_eight(type_number(self.mtype));
        value.put_four(self.sender);
        value.put_eight(serial_number(self.previous));
        value.put_eight(serial_number(self.next));
        value.put_eight(serial_number(self.next_of_type));
        value.put_all(self.body.as_slice());
    }
}

fn read<'a>(key: &RecordKey, value: &'a [u8]) -> Result<MessageEntry<'a>, BadRecord>
    ensures value { Gives result (reads_message key.now value.now) (message_at key.now value.now) }
    ensures fits { OnOk result (key.now.number < 2 ^ 64) }
{
    if value.len() < MESSAGE_BYTES {
        return Err(BadRecord);
    }
    let message = message_at(key, value);
    if *key != message.key() {
        return Err(BadRecord);
    }
    if !message.is_in_range() {
        return Err(BadRecord);
    }
    Ok(message)
}

/// What the key and the fields of the value say.
fn message_at<'a>(key: &RecordKey, value: &'a [u8]) -> MessageEntry<'a>
    requires { MESSAGE_BYTES ≤ length value.now }
    ensures { result ≡ message_at key.now value.now }
{
    MessageEntry {
        id: key.queue,
        serial: key.number,
        mtype: type_of(eight_at(value, 0)),
        sender: four_at(value, 8),
        previous: serial_at(value, 12),
        next: serial_at(value, 20),
        next_of_type: serial_at(value, 28),
        body: body_at(value),
    }
}

/// The bytes behind the other fields.
fn body_at(value: &[u8]) -> Body
    requires { MESSAGE_BYTES ≤ length value.now }
    ensures { result ≡ drop MESSAGE_BYTES value.now }
{
    let (_, body) = value.split_at(MESSAGE_BYTES);
    Body::new(body)
}
