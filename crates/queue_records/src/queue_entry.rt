//! The record of a queue.

ghost use Rattle.std.specs.Prelude.{◌≡◌, length, slice_index, IfSome, IfOk, Ok};
ghost use Rattle.bucket_page.specs.numbers.Numbers.{four_at};
ghost use Rattle.queue_records.specs.declared.layout.TheConstants.{OLDER_QUEUE_BYTES};
ghost use Rattle.queue_records.specs.declared.record.Record.TheVariants as records;
ghost use Rattle.queue_records.specs.Fields.{given_key, key_flag, key_number};
ghost use Rattle.queue_records.specs.Range.{IsQueueInRange};
ghost use Rattle.queue_records.specs.Reading.{Gives, has_flag, has_limits, is_queue, queue_at, reads_queue};
ghost use Rattle.queue_records.specs.Records.{FitsFour, FitsQueue, SpellsRecord};
ghost use Rattle.queue_records.specs.Older.{older_queue_bytes};
ghost use Rattle.queue_records.specs.Spelling.{queue_bytes, queue_key};

use crate::bad_record::BadRecord;
use crate::field::{
    eight_fits, four_fits, is_id, is_serial_link, is_type_link, serial_at, serial_fits,
    serial_number, type_link_at, type_link_fits, type_link_number,
};
use crate::layout::{QUEUE, QUEUE_BYTES};
use crate::value::Value;
use bucket_page::RecordKey;
use bucket_page::fields::{eight_at, four_at, two_at};
use numbers::limits::{MAX_MESSAGES, MAX_QBYTES, MODES};

/// A queue, without its messages. What it has in common with the model's `Queue` and `QueueInfo`
/// goes by the same names, since all three are named as POSIX names them.
#[derive(Clone, Copy, PartialEq, Eq)]
pub struct QueueEntry {
    /// Its id.
    pub id: u32,
    /// Its key; none for a private queue.
    pub key: Option<u32>,
    /// The most bytes that may stand on it.
    pub qbytes: u32,
    /// Bytes that stand on it.
    pub cbytes: u32,
    /// Messages that stand on it.
    pub qnum: u32,
    /// The process that sent last, 0 for none.
    pub lspid: u32,
    /// The process that received last, 0 for none.
    pub lrpid: u32,
    /// The moment of the last send, 0 for none.
    pub stime: u64,
    /// The moment of the last receive, 0 for none.
    pub rtime: u64,
    /// The moment of the last change by a caller.
    pub ctime: u64,
    /// The serial of the next message, at least 1.
    pub next_serial: u64,
    /// The serial of the first message.
    pub first: Option<u64>,
    /// The serial of the last message.
    pub last: Option<u64>,
    /// The lowest type of a message.
    pub lowest: Option<i64>,
    /// The owner's user.
    pub uid: u32,
    /// The owner's group.
    pub gid: u32,
    /// The creator's user.
    pub cuid: u32,
    /// The creator's group.
    pub cgid: u32,
    /// Who may read and write, nine bits.
    pub mode: u16,
}

impl QueueEntry {
    /// The key of its record.
    pub fn key(&self) -> RecordKey
        ensures { result ≡ queue_key self.now }
    {
        RecordKey {
            kind: QUEUE,
            queue: self.id,
            number: 0,
        }
    }

    /// The Queue that a key and a value spell; it is refused exactly where they spell none. It stands in
    /// whoever reads one, as `Record::decode` does.
    #[inline(always)]
    pub fn decode(key: &RecordKey, value: &[u8]) -> Result<QueueEntry, BadRecord>
        ensures ok { IfOk result (λ queue. SpellsRecord (records.Queue queue) key.now value.now) }
        ensures only { (queue : QueueEntry) →
            SpellsRecord (records.Queue queue) key.now value.now → result ≡ Ok queue }
    {
        read(key, value)
    }

    /// Its numbers fit their fields.
    pub(crate) fn fits(&self)
        ensures { FitsQueue self.now }
    {
        key_fits(self.key);
        four_fits(self.lspid);
        four_fits(self.lrpid);
        eight_fits(self.stime);
        eight_fits(self.rtime);
        eight_fits(self.ctime);
        eight_fits(self.next_serial);
        serial_fits(self.first);
        serial_fits(self.last);
        type_link_fits(self.lowest);
        four_fits(self.uid);
        four_fits(self.gid);
        four_fits(self.cuid);
        four_fits(self.cgid);
    }

    /// Whether it keeps its limits.
    pub(crate) fn is_in_range(&self) -> bool
        ensures { result ≡ is_queue self.now }
    {
        is_id(self.id)
            && self.has_limits()
            && self.next_serial >= 1
            && is_serial_link(self.first)
            && is_serial_link(self.last)
            && is_type_link(self.lowest)
    }

    /// Whether its counts and its mode keep their limits.
    fn has_limits(&self) -> bool
        ensures { result ≡ has_limits self.now }
    {
        self.qbytes <= MAX_QBYTES
            && self.cbytes <= MAX_QBYTES
            && self.qnum <= MAX_MESSAGES
            && self.mode < MODES
    }

    /// Makes the value that of this record.
    pub fn encode(&self, value: &mut Value)
        requires { IsQueueInRange self.now }
        ensures { value.new ≡ queue_bytes self.now }
    {
        // All is read before anything is written: the value might be where the entry is, for all that
        // the compiler knows.
        let queue = *self;
        queue.encode_older(value);
        value.put_four(queue.uid);
        value.put_four(queue.gid);
        value.put_four(queue.cuid);
        value.put_four(queue.cgid);
        value.put_two(queue.mode);
    }

    /// Makes the value that of this record in version 1, which has no owners and no mode.
    pub fn encode_older(&self, value: &mut Value)
        requires { IsQueueInRange self.now }
        ensures value { value.new ≡ older_queue_bytes self.now }
        ensures len { length value.new ≡ OLDER_QUEUE_BYTES }
    {
        value.clear();
        value.put_one(key_flag(self.key));
        value.put_four(key_number(self.key));
        value.put_four(self.qbytes);
        value.put_four(self.cbytes);
        value.put_four(self.qnum);
        value.put_four(self.lspid);
        value.put_four(self.lrpid);
        value.put_eight(self.stime);
        value.put_eight(self.rtime);
        value.put_eight(self.ctime);
        value.put_eight(self.next_serial);
        value.put_eight(serial_number(self.first));
        value.put_eight(serial_number(self.last));
        value.put_eight(type_link_number(self.lowest));
    }
}

fn read(key: &RecordKey, value: &[u8]) -> Result<QueueEntry, BadRecord>
    ensures { Gives result (reads_queue key.now value.now) (queue_at key.now value.now) }
{
    if value.len() != QUEUE_BYTES {
        return Err(BadRecord);
    }
    if !has_flag(value) {
        return Err(BadRecord);
    }
    let queue = queue_at(key, value);
    if *key != queue.key() {
        return Err(BadRecord);
    }
    if !queue.is_in_range() {
        return Err(BadRecord);
    }
    Ok(queue)
}

/// What the key and the fields of the value say.
fn queue_at(key: &RecordKey, value: &[u8]) -> QueueEntry
    requires { length value.now ≡ QUEUE_BYTES }
    ensures { result ≡ queue_at key.now value.now }
{
    QueueEntry {
        id: key.queue,
        key: given_key(value[0], four_at(value, 1)),
        qbytes: four_at(value, 5),
        cbytes: four_at(value, 9),
        qnum: four_at(value, 13),
        lspid: four_at(value, 17),
        lrpid: four_at(value, 21),
        stime: eight_at(value, 25),
        rtime: eight_at(value, 33),
        ctime: eight_at(value, 41),
        next_serial: eight_at(value, 49),
        first: serial_at(value, 57),
        last: serial_at(value, 65),
        lowest: type_link_at(value, 73),
        uid: four_at(value, 81),
        gid: four_at(value, 85),
        cuid: four_at(value, 89),
        cgid: four_at(value, 93),
        mode: two_at(value, 97),
    }
}

/// Whether the key's flag is 1, or 0 and no key stands there.
fn has_flag(value: &[u8]) -> bool
    requires { length value.now ≡ QUEUE_BYTES }
    ensures { result ≡ has_flag value.now }
{
    value[0] == 1 || value[0] == 0 && four_at(value, 1) == 0
}

/// The key, where the flag says that one is given.
fn given_key(flag: u8, key: u32) -> Option<u32>
    ensures { result ≡ given_key flag key }
{
    match flag {
        0 => None,
        _ => Some(key),
    }
}

/// 1 where a key is given, else 0.
fn key_flag(key: Option<u32>) -> u8
    ensures { result ≡ key_flag key }
{
    match key {
        None => 0,
        Some(_) => 1,
    }
}

/// The key, 0 where none is given.
fn key_number(key: Option<u32>) -> u32
    ensures { result ≡ key_number key }
{
    key.unwrap_or(0)
}

/// A key, where one is given, fits its field.
fn key_fits(key: Option<u32>)
    ensures { IfSome key FitsFour }
{
    if let Some(key) = key {
        four_fits(key);
    }
}
