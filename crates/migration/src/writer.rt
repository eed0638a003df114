//! The records of a system are written into a new file, through the machines of the file.

ghost use Rattle.std.specs.Prelude.{◌≡◌, ◌+◌, ◌*◌, ℕ, [], None, IfErr, OnOk, length};
ghost use Rattle.std.specs.List.{Contains};
ghost use Rattle.buffer_pool.specs.Pool.{PoolState};
ghost use Rattle.queue_model.specs.Lawful.{IsLawful, IsLawfulQueue};
ghost use Rattle.queue_model.specs.State.{State};
ghost use Rattle.queue_model.specs.declared.queue.Queue.{Queue};
ghost use Rattle.queue_records.specs.Keys.{guard_of};
ghost use Rattle.queue_records.specs.Range.{IsInRange};
ghost use Rattle.queue_records.specs.Spelling.{key_of};
ghost use Rattle.queue_records.specs.declared.record.Record.TheVariants as records;
ghost use Rattle.lone_access.specs.Alone.{IsAlone};
ghost use Rattle.lone_access.specs.OneAccess.{IsAtRest};
ghost use Rattle.migration.specs.Filling.{HasCounter, HoldsOnly, IsFilling, IsNew, IsOpen, IsToPut, MayNotFill, MayNotPut, MayNotWrite, Puts, held_in};
ghost use Rattle.migration.specs.Writing.{KeepsDevice};

use crate::fault::MakingFault;
use bucket_page::PseudoKey;
use buffer_pool::Pool;
use lone_access::carry_out;
use page_device::PageDevice;
use page_locks::{LockName, LockTable};
use queue_model::{Queue, System};
use queue_records::{Counter, KeyEntry, Record, TypeEntry};
use record_file::Access;
use record_walk::QueueLinks;
use std::alloc::Global;
use xsi_inquiry::Write;

/// Writes the records of a system into a new file, which one seat alone uses.
pub(crate) fn write<D: PageDevice, K: PseudoKey>(
    alloc: Global,
    pool: &mut Pool<D>,
    locks: &mut LockTable,
    keys: &K,
    system: &System,
) -> Result<(), MakingFault>
    requires { IsAlone [] pool.old locks.old }
    ensures alone { OnOk result (IsAlone [] pool.new locks.new) }
    ensures kept { KeepsDevice pool.old pool.new result }
    ensures told { IsNew (K.of_key keys.now) pool.old →
        IfErr result (MayNotFill (K.of_key keys.now) (length pool.old.images) system.now) }
{
    system.keeps_limits();
    for place in 0..system.queues() {
        write_queue(alloc, pool, locks, keys, system.queue(place))?;
    }
    let counter = Counter {
        next_id: system.next_id(),
        queues_alive: system.queues() as u32,
    };
    replace(pool, locks, keys, counter)
}

/// Writes the records of a queue: its Key, its Queue, and of each message the Type, where it is the
/// first of that, and the Message.
fn write_queue<D: PageDevice, K: PseudoKey>(
    alloc: Global,
    pool: &mut Pool<D>,
    locks: &mut LockTable,
    keys: &K,
    queue: &Queue,
) -> Result<(), MakingFault>
    requires alone { IsAlone [] pool.old locks.old }
    requires lawful { IsLawfulQueue queue.now }
    ensures alone { OnOk result (IsAlone [] pool.new locks.new) }
    ensures kept { KeepsDevice pool.old pool.new result }
    ensures put { (s : State) → IsLawful s → Contains s.queues queue.now →
        IsOpen (K.of_key keys.now) s queue.now pool.old →
        OnOk result (HoldsOnly (K.of_key keys.now) s queue.now pool.old pool.new) }
    ensures told { (s : State) → IsLawful s → Contains s.queues queue.now →
        IsOpen (K.of_key keys.now) s queue.now pool.old →
        IfErr result (MayNotFill (K.of_key keys.now) (length pool.old.images) s) }
{
    let Some(links) = QueueLinks::of(alloc, &queue.messages) else {
        return Err(MakingFault::NoMemory);
    };
    let Some(entry) = links.queue_entry(alloc, queue) else {
        return Err(MakingFault::NoMemory);
    };
    insert_key(pool, locks, keys, queue)?;
    insert(pool, locks, keys, &Record::Queue(entry))?;
    for place in 0..queue.messages.len() {
        let message = queue.messages.get(place);
        let first = links.type_entry(queue, message.mtype);
        insert_type(pool, locks, keys, first, message.serial)?;
        insert(
            pool,
            locks,
            keys,
            &Record::Message(links.message_entry(queue, place)),
        )?;
    }
    Ok(())
}

/// Inserts the Key of a queue, where it has a key.
fn insert_key<D: PageDevice, K: PseudoKey>(
    pool: &mut Pool<D>,
    locks: &mut LockTable,
    keys: &K,
    queue: &Queue,
) -> Result<(), MakingFault>
    requires { IsAlone [] pool.old locks.old }
    ensures alone { OnOk result (IsAlone [] pool.new locks.new) }
    ensures kept { KeepsDevice pool.old pool.new result }
    ensures put { (s : State) → IsLawful s → Contains s.queues queue.now →
        IsOpen (K.of_key keys.now) s queue.now pool.old →
        OnOk result (IsFilling (K.of_key keys.now) s queue.now 1 pool.old pool.new) }
    ensures told { (s : State) → IsLawful s → Contains s.queues queue.now →
        IsOpen (K.of_key keys.now) s queue.now pool.old →
        IfErr result (MayNotFill (K.of_key keys.now) (length pool.old.images) s) }
{
    let Some(key) = queue.key else {
        return Ok(());
    };
    insert(
        pool,
        locks,
        keys,
        &Record::Key(KeyEntry { key, id: queue.id }),
    )
}

/// Inserts a Type of a queue, where the message of a serial is the first of it.
fn insert_type<D: PageDevice, K: PseudoKey>(
    pool: &mut Pool<D>,
    locks: &mut LockTable,
    keys: &K,
    entry: Option<TypeEntry>,
    serial: u64,
) -> Result<(), MakingFault>
    requires { IsAlone [] pool.old locks.old }
    ensures alone { OnOk result (IsAlone [] pool.new locks.new) }
    ensures kept { KeepsDevice pool.old pool.new result }
    ensures put { (s : State) (q : Queue) (turn : ℕ) (start : PoolState) →
        IsToPut (K.of_key keys.now) s q turn start entry serial pool.old →
        OnOk result (IsFilling (K.of_key keys.now) s q (3 + 2 * serial) start pool.new) }
    ensures told { (s : State) (q : Queue) (turn : ℕ) (start : PoolState) →
        IsToPut (K.of_key keys.now) s q turn start entry serial pool.old →
        IfErr result (MayNotFill (K.of_key keys.now) (length pool.old.images) s) }
{
    let Some(entry) = entry else {
        return Ok(());
    };
    if entry.first != serial {
        return Ok(());
    }
    insert(pool, locks, keys, &Record::Type(entry))
}

/// Inserts a record, as each call does. The file has none at its key.
fn insert<D: PageDevice, K: PseudoKey>(
    pool: &mut Pool<D>,
    locks: &mut LockTable,
    keys: &K,
    record: &Record<'_>,
) -> Result<(), MakingFault>
    requires { IsAlone [] pool.old locks.old }
    ensures alone { OnOk result (IsAlone [] pool.new locks.new) }
    ensures kept { KeepsDevice pool.old pool.new result }
    ensures put { IsAtRest (K.of_key keys.now) pool.old →
        held_in pool.old (key_of record.now) ≡ None →
        OnOk result (Puts (K.of_key keys.now) record.now pool.old pool.new) }
    ensures told { IsInRange record.now → IsAtRest (K.of_key keys.now) pool.old →
        held_in pool.old (key_of record.now) ≡ None →
        IfErr result (MayNotPut (K.of_key keys.now) record.now pool.old) }
{
    if !record.is_in_range() {
        return Err(MakingFault::Failed);
    }
    let mut access = Access::insert(record, keys.of(&record.key()));
    carry_out(pool, locks, keys, guard_of(record), &mut access)?;
    if access.has_no_room() {
        return Err(MakingFault::NoRoom);
    }
    Ok(())
}

/// Replaces the Counter, which a new file has.
fn replace<D: PageDevice, K: PseudoKey>(
    pool: &mut Pool<D>,
    locks: &mut LockTable,
    keys: &K,
    counter: Counter,
) -> Result<(), MakingFault>
    requires { IsAlone [] pool.old locks.old }
    ensures alone { OnOk result (IsAlone [] pool.new locks.new) }
    ensures kept { KeepsDevice pool.old pool.new result }
    ensures told { IsInRange (records.Counter counter) → IsAtRest (K.of_key keys.now) pool.old →
        HasCounter pool.old → IfErr result MayNotWrite }
{
    let record = Record::Counter(counter);
    if !record.is_in_range() {
        return Err(MakingFault::Failed);
    }
    let pseudokey = keys.of(&record.key());
    let mut access = Access::write(&Write::Replace(record), pseudokey);
    carry_out(pool, locks, keys, LockName::Counter, &mut access)?;
    Ok(())
}

/// The name under whose lock a record is written.
fn guard_of(record: &Record<'_>) -> LockName
    ensures { result ≡ guard_of (key_of record.now) }
{
    match record {
        Record::Counter(_) => LockName::Counter,
        Record::Key(entry) => LockName::Key(entry.key),
        Record::Queue(entry) => LockName::Queue(entry.id),
        Record::Type(entry) => LockName::Queue(entry.id),
        Record::Message(entry) => LockName::Queue(entry.id),
    }
}
