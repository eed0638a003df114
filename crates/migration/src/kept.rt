//! What was found is put together as a system. What breaks a limit of systems is left out.

ghost use Rattle.std.specs.Prelude.{◌≡◌, ◌<◌, false, length, IfOk, IfSome, Some};

use crate::found::{Found, FoundMessage};
use crate::losses::Losses;
use numbers::limits::{
    DEFAULT_QBYTES, END_OF_SERIALS, MAX_MESSAGES, MAX_QBYTES, MAX_QUEUES, SUPERUSER,
};
use queue_model::{Message, Messages, NoMemory, Permissions, Queue, System};
use queue_records::{KeyEntry, QueueEntry};
use record_walk::queue_in;
use std::alloc::Global;

/// Who may use a queue that is made in the place of one whose record is lost: nobody knows whom its
/// owner let in, so its owner alone, who is user 0.
const MADE_MODE: u16 = 0o600;

/// A queue that is put together.
#[derive(Drop)]
struct Part {
    id: u32,
    /// None where its record is lost.
    entry: Option<QueueEntry>,
    /// In ascending order of serial.
    messages: Messages,
    bytes: usize,
    last: u64,
}

/// What becomes of a message.
#[derive(Clone, Copy)]
enum Taking {
    Taken,
    Twice,
    Beyond,
}

/// The system of what was found, and what was left out of it; none where it would be unlawful.
pub(crate) fn put_together(
    alloc: Global,
    found: Found,
) -> Result<Option<(System, Losses)>, NoMemory>
    ensures { IfOk result (λ made. IfSome made (λ both. both.0.stopped ≡ false)) }
{
    let Found {
        next_id,
        keys,
        entries,
        messages,
        mut losses,
        ..
    } = found;
    let mut parts = parts_of(alloc, entries, &mut losses)?;
    add_messages(alloc, &mut parts, messages, &mut losses)?;
    let mut queues: Vec<Queue> = Vec::with_capacity(alloc, parts.len())?;
    let mut end = next_id.max(1);
    for part in parts {
        end = end.max(part.id.saturating_add(1));
        let mut queue = part.whole(&keys, &mut losses)?;
        if queue.key.is_some() && queues.iter().any(|other: &Queue| other.key == queue.key) {
            queue.key = None;
            losses.keyless = losses.keyless.saturating_add(1);
        }
        queues.push(queue)?;
    }
    match System::of_queues(queues, end) {
        Some(system) => Ok(Some((system, losses))),
        None => Ok(None),
    }
}

/// The same system, which is not stopped, where there is memory for it.
pub(crate) fn running(alloc: Global, system: &System) -> Result<Option<System>, NoMemory>
    ensures { IfOk result (λ made. made ≡ Some (record system.now { stopped = false })) }
{
    system.keeps_limits();
    let mut queues = Vec::with_capacity(alloc, system.queues())?;
    for place in 0..system.queues() {
        queues.push(system.queue(place).try_copy()?)?;
    }
    Ok(System::of_queues(queues, system.next_id()))
}

/// A part for each queue that has a record, in ascending order of id.
fn parts_of(
    alloc: Global,
    entries: Vec<QueueEntry>,
    losses: &mut Losses,
) -> Result<Vec<Part>, NoMemory> {
    let mut entries = entries;
    entries.sort_by_key(|entry| entry.id)?;
    let mut parts: Vec<Part> = Vec::new(alloc);
    let mut last = 0;
    for entry in entries {
        if entry.id == last {
            losses.twice = losses.twice.saturating_add(1);
        } else if parts.len() < MAX_QUEUES as usize {
            last = entry.id;
            parts.push(Part::new(alloc, entry.id, Some(entry)))?;
        } else {
            losses.beyond = losses.beyond.saturating_add(1);
        }
    }
    Ok(parts)
}

/// Adds messages to the parts of their queues, of each queue in order of serial. A part is made where
/// there is none, as long as a system may have one more.
fn add_messages(
    alloc: Global,
    parts: &mut Vec<Part>,
    messages: Vec<FoundMessage>,
    losses: &mut Losses,
) -> Result<(), NoMemory> {
    let mut messages = messages;
    messages.sort_by_key(|found| (found.id, found.message.serial))?;
    for FoundMessage { id, message } in messages {
        let taking = match place_of(alloc, parts, id)? {
            Some(place) => parts[place].take(message)?,
            None => Taking::Beyond,
        };
        match taking {
            Taking::Taken => {}
            Taking::Twice => losses.twice = losses.twice.saturating_add(1),
            Taking::Beyond => losses.beyond = losses.beyond.saturating_add(1),
        }
    }
    Ok(())
}

/// The place of the part of a queue, which is made where there is none; none past the limit.
fn place_of(alloc: Global, parts: &mut Vec<Part>, id: u32) -> Result<Option<usize>, NoMemory>
    ensures { IfOk result (λ found. IfSome found (λ place. place < length parts.new.items)) }
{
    match parts.binary_search_by_key(&id, |part| part.id) {
        Ok(place) => Ok(Some(place)),
        Err(_) if parts.len() >= MAX_QUEUES as usize => Ok(None),
        Err(place) => {
            parts.insert(place, Part::new(alloc, id, None))?;
            Ok(Some(place))
        }
    }
}

impl Part {
    fn new(alloc: Global, id: u32, entry: Option<QueueEntry>) -> Part {
        Part {
            id,
            entry,
            messages: Messages::new(alloc),
            bytes: 0,
            last: 0,
        }
    }

    /// Takes a message whose serial is not below those before it, within the limits of a queue.
    fn take(&mut self, message: Message) -> Result<Taking, NoMemory> {
        if message.serial == self.last {
            return Ok(Taking::Twice);
        }
        let bytes = self.bytes.saturating_add(message.bytes.len());
        if self.messages.len() >= MAX_MESSAGES as usize
            || bytes > MAX_QBYTES as usize
            || message.serial >= END_OF_SERIALS
        {
            return Ok(Taking::Beyond);
        }
        let serial = message.serial;
        self.messages.push(message)?;
        self.bytes = bytes;
        self.last = serial;
        Ok(Taking::Taken)
    }

    /// The queue. Its next serial is behind those of its messages. One whose record is lost has the
    /// key of the first Key that names it.
    fn whole(self, keys: &[KeyEntry], losses: &mut Losses) -> Result<Queue, NoMemory> {
        let Part {
            id,
            entry,
            messages,
            bytes: _,
            last,
        } = self;
        let mut queue = match entry {
            Some(entry) => queue_in(&entry, id, messages),
            None => {
                losses.made.push(id)?;
                made_queue(id, key_of(keys, id), messages)
            }
        };
        queue.next_serial = queue.next_serial.max(last.saturating_add(1));
        Ok(queue)
    }
}

/// The key of the first Key that names a queue.
fn key_of(keys: &[KeyEntry], id: u32) -> Option<u32> {
    let entry = keys.iter().find(|entry| entry.id == id)?;
    Some(entry.key)
}

/// A queue in the place of one whose record is lost.
fn made_queue(id: u32, key: Option<u32>, messages: Messages) -> Queue {
    Queue {
        id,
        key,
        permissions: Permissions {
            uid: SUPERUSER,
            gid: 0,
            cuid: SUPERUSER,
            cgid: 0,
            mode: MADE_MODE,
        },
        qbytes: DEFAULT_QBYTES,
        lspid: 0,
        lrpid: 0,
        stime: 0,
        rtime: 0,
        ctime: 0,
        next_serial: 1,
        messages,
    }
}
