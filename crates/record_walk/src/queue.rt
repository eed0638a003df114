//! A queue is read, and all its records are compared with those that stand.

ghost use Rattle.std.specs.Prelude.{◌≡◌, ◌↔◌, length, map, IsTrue, IfOk, IfErr};
ghost use Rattle.std.specs.List.{All};
ghost use Rattle.record_walk.specs.Fault.{IsCaused, IsOfMachine};
ghost use Rattle.record_walk.specs.Held.{AreLinked, Holds, IsStill};
ghost use Rattle.record_walk.specs.Links.{IsAscending, ends_of, links_in, next_of_type};
ghost use Rattle.record_walk.specs.Systems.{HasQueue, IsQueueOf, queue_in};
ghost use Rattle.record_walk.specs.Told.{IsToldOfQueue};
ghost use Rattle.record_walk.specs.Words.{IsLawfulQueue, key_records, serials, type_records, types};

use crate::entries::{queue_entry, type_entry};
use crate::fault::WalkFault;
use crate::lists::{before, behind, serials_of, types_of};
use crate::messages::{Walked, walk};
use crate::of_type::{Ends, type_links};
use crate::records::{MessageLinks, Records};
use queue_model::{Messages, Permissions, Queue};
use queue_records::{KeyEntry, QueueEntry, Record};
use std::alloc::Global;

/// The queue of an id: lawful, and all its records stand; no other queue has them. It is refused
/// exactly where there is none.
pub fn read_queue<F: Records>(file: &mut F, alloc: Global, id: u32) -> Result<Queue, WalkFault>
    ensures ok { IsTrue (F.is_honest file.old) →
        IfOk result (λ queue. IsQueueOf (F.held file.old) id queue) }
    ensures err { IsTrue (F.is_honest file.old) →
        IfErr result (IsToldOfQueue (F.held file.old) id) }
    ensures still { IsStill F.held F.pages F.is_honest F.fault_count file.old file.new }
    ensures cause { IsCaused (F.fault_count file.old) (F.fault_count file.new) result }
{
    let Some(entry) = file.queue(id)? else {
        return Err(WalkFault::WrongQueue { queue: id });
    };
    let Walked { messages, links } = walk(file, alloc, id, entry.first)?;
    let queue = queue_in(&entry, id, messages);
    if !has_queue(file, alloc, &queue, links.as_slice())? {
        return Err(WalkFault::WrongQueue { queue: id });
    }
    Ok(queue)
}

/// The queue of an id that a Queue tells of, with these messages.
pub fn queue_in(entry: &QueueEntry, id: u32, messages: Messages) -> Queue
    ensures { result ≡ queue_in entry.now id messages }
{
    Queue {
        id,
        key: entry.key,
        permissions: Permissions {
            uid: entry.uid,
            gid: entry.gid,
            cuid: entry.cuid,
            cgid: entry.cgid,
            mode: entry.mode,
        },
        qbytes: entry.qbytes,
        lspid: entry.lspid,
        lrpid: entry.lrpid,
        stime: entry.stime,
        rtime: entry.rtime,
        ctime: entry.ctime,
        next_serial: entry.next_serial,
        messages,
    }
}

/// Whether a queue is lawful and all its records stand. Its messages stand with these links.
fn has_queue<F: Records>(
    file: &mut F,
    alloc: Global,
    queue: &Queue,
    links: &[MessageLinks],
) -> Result<bool, WalkFault>
    requires number { length links.now ≡ length queue.now.messages }
    requires links { IsTrue (F.is_honest file.old) →
        AreLinked (F.held file.old) queue.now.id queue.now.messages links.now }
    ensures ok { IsTrue (F.is_honest file.old) →
        IfOk result (λ has. IsTrue has ↔ HasQueue (F.held file.old) queue.now) }
    ensures err { IsTrue (F.is_honest file.old) → IfErr result (λ fault. IsOfMachine fault) }
    ensures still { IsStill F.held F.pages F.is_honest F.fault_count file.old file.new }
    ensures cause { IsCaused (F.fault_count file.old) (F.fault_count file.new) result }
{
    if !queue.is_lawful() {
        return Ok(false);
    }
    let all = serials_of(alloc, &queue.messages)?;
    let kinds = types_of(alloc, &queue.messages)?;
    if !file.holds(&Record::Queue(queue_entry(queue, &all, &kinds)))? {
        return Ok(false);
    }
    if !has_key(file, queue)? {
        return Ok(false);
    }
    let of_type = type_links(alloc, &queue.messages, &kinds)?;
    if !has_types(file, queue, &kinds, &of_type.ends)? {
        return Ok(false);
    }
    Ok(has_links(queue, &all, &of_type.next, links))
}

/// Whether the Key of a queue stands, where it has a key.
fn has_key<F: Records>(file: &mut F, queue: &Queue) -> Result<bool, WalkFault>
    ensures ok { IsTrue (F.is_honest file.old) → IfOk result (λ has.
        IsTrue has ↔ All (Holds (F.held file.old)) (key_records queue.now)) }
    ensures err { IsTrue (F.is_honest file.old) → IfErr result (λ fault. IsOfMachine fault) }
    ensures still { IsStill F.held F.pages F.is_honest F.fault_count file.old file.new }
    ensures cause { IsCaused (F.fault_count file.old) (F.fault_count file.new) result }
{
    match queue.key {
        Some(key) => file.holds(&Record::Key(KeyEntry { key, id: queue.id })),
        None => Ok(true),
    }
}

/// Whether the Types of a queue stand.
fn has_types<F: Records>(
    file: &mut F,
    queue: &Queue,
    kinds: &[i64],
    ends: &[Ends],
) -> Result<bool, WalkFault>
    requires kinds { kinds.now ≡ types queue.now.messages }
    requires ends { ends.now ≡ map (ends_of queue.now.messages) kinds.now }
    ensures ok { IsTrue (F.is_honest file.old) → IfOk result (λ has.
        IsTrue has ↔ All (Holds (F.held file.old)) (type_records queue.now)) }
    ensures err { IsTrue (F.is_honest file.old) → IfErr result (λ fault. IsOfMachine fault) }
    ensures still { IsStill F.held F.pages F.is_honest F.fault_count file.old file.new }
    ensures cause { IsCaused (F.fault_count file.old) (F.fault_count file.new) result }
{
    for place in 0..kinds.len() {
        let entry = type_entry(queue, place, kinds, ends[place]);
        if !file.holds(&Record::Type(entry))? {
            return Ok(false);
        }
    }
    Ok(true)
}

/// Whether the messages of a queue have these links.
fn has_links(queue: &Queue, all: &[u64], next: &[Option<u64>], links: &[MessageLinks]) -> bool
    requires number { length links.now ≡ length queue.now.messages }
    requires ascend { IsAscending queue.now.messages }
    requires all { all.now ≡ serials queue.now.messages }
    requires next { next.now ≡ map (next_of_type queue.now.messages) queue.now.messages }
    ensures { IsTrue result ↔ links.now ≡ map (links_in queue.now) queue.now.messages }
{
    for place in 0..queue.messages.len() {
        let wanted = MessageLinks {
            previous: before(all, place),
            next: behind(all, place),
            next_of_type: next[place],
        };
        if links[place] != wanted {
            return false;
        }
    }
    true
}
