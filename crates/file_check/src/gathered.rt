//! A system is gathered from the records of a file, in the order in which they stand, and each is
//! tested by itself. Nothing is said of the system but that it is lawful.

ghost use Rattle.std.specs.Prelude.{◌≡◌, ◌≤◌, ◌<◌, false, length, IfSome, IsTrue};
ghost use Rattle.queue_model.specs.Lawful.{IsLawful};
ghost use Rattle.file_check.specs.Records.{AreRightOn, AreRightRecordsIn, IsLivePage};
ghost use Rattle.file_check.specs.Words.{IsLayout, IsRightStructureIn, file_in};

use crate::bucket::{bucket_in, read_again, test_bucket};
use bucket_page::PseudoKey;
use directory::Layout;
use numbers::limits::{MAX_MESSAGES, MAX_QUEUES};
use page_device::{PAGE_BYTES, PageDevice};
use queue_model::{Body, Message, Messages, Queue, System};
use queue_records::{MessageEntry, QueueEntry, Record};
use record_walk::{TestedBucket, decode_in, queue_in};
use std::alloc::Global;

/// What was found so far of the queue of an id.
#[derive(Drop)]
struct Part {
    id: u32,
    entry: Option<QueueEntry>,
    messages: Vec<Message>,
}

/// What was found so far of a system: parts of its queues, in ascending order of id.
#[derive(Drop)]
struct Parts {
    next_id: u32,
    queues: Vec<Part>,
}

/// A system that holds the messages on these pages; none where they are of no system or a record is
/// wrong by itself, or where there is no memory for it.
pub(crate) fn gather<D: PageDevice, K: PseudoKey>(
    alloc: Global,
    layout: &Layout,
    device: &mut D,
    keys: &K,
    chain: &[u32],
) -> Option<System>
    requires layout { IsLayout layout.now }
    requires structure { IsTrue (D.is_honest device.old) →
        IsRightStructureIn layout.now (D.content device.old) chain.now }
    ensures right { IsTrue (D.is_honest device.old) → IfSome result (λ system.
        AreRightRecordsIn layout.now (K.of_key keys.now)
        (file_in layout.now (D.content device.old)) chain.now) }
    ensures running { IfSome result (λ system. system.stopped ≡ false) }
    ensures same { D.content device.new ≡ D.content device.old }
    ensures honest { D.is_honest device.new ≡ D.is_honest device.old }
    ensures later { D.fault_count device.old ≤ D.fault_count device.new }
{
    let mut parts = Parts {
        next_id: 0,
        queues: Vec::new(alloc),
    };
    for page in chain {
        gather_on(alloc, layout, device, keys, *page, &mut parts)?;
    }
    parts.whole(alloc)
}

/// Tests and adds what stands on a page of the chain.
fn gather_on<D: PageDevice, K: PseudoKey>(
    alloc: Global,
    layout: &Layout,
    device: &mut D,
    keys: &K,
    page: u32,
    parts: &mut Parts,
) -> Option<()>
    requires { IsTrue (D.is_honest device.old) →
        IsLivePage layout.now (D.content device.old) page }
    ensures right { IsTrue (D.is_honest device.old) → IfSome result (λ added. AreRightOn
        layout.now (K.of_key keys.now) (file_in layout.now (D.content device.old)) page) }
    ensures same { D.content device.new ≡ D.content device.old }
    ensures honest { D.is_honest device.new ≡ D.is_honest device.old }
    ensures later { D.fault_count device.old ≤ D.fault_count device.new }
{
    let mut bytes = [0; PAGE_BYTES];
    read_again(device, page, &mut bytes).ok()?;
    let bucket = bucket_in(&bytes, page).ok()?;
    test_bucket(layout, keys, page, &bucket).ok()?;
    parts.add(alloc, layout, &bucket)
}

impl Parts {
    /// Adds what stands in a bucket.
    fn add(&mut self, alloc: Global, layout: &Layout, bucket: &TestedBucket) -> Option<()> {
        for record in bucket.records() {
            match decode_in(layout, &record.key, record.value) {
                Ok(Record::Counter(counter)) => self.next_id = counter.next_id,
                Ok(Record::Queue(entry)) => self.add_queue(alloc, entry)?,
                Ok(Record::Message(message)) => self.add_message(alloc, &message)?,
                Ok(Record::Key(_)) => {}
                Ok(Record::Type(_)) => {}
                Err(_) => {}
            }
        }
        Some(())
    }

    fn add_queue(&mut self, alloc: Global, entry: QueueEntry) -> Option<()> {
        let place = self.place(alloc, entry.id)?;
        self.queues[place].entry = Some(entry);
        Some(())
    }

    fn add_message(&mut self, alloc: Global, entry: &MessageEntry) -> Option<()> {
        let place = self.place(alloc, entry.id)?;
        if self.queues[place].messages.len() >= MAX_MESSAGES as usize {
            return None;
        }
        let bytes = Vec::from_slice(alloc, entry.body.as_slice()).ok()?;
        let message = Message {
            serial: entry.serial,
            sender: entry.sender,
            mtype: entry.mtype,
            bytes: Body::new(bytes),
        };
        self.queues[place].messages.push(message).ok()
    }

    /// The place of the part of a queue, which is made where there is none.
    fn place(&mut self, alloc: Global, id: u32) -> Option<usize>
        ensures { IfSome result (λ place. place < length self.new.queues.items) }
    {
        match self.queues.binary_search_by_key(&id, |part| part.id) {
            Ok(place) => Some(place),
            Err(place) => {
                if self.queues.len() >= MAX_QUEUES as usize {
                    return None;
                }
                let part = Part {
                    id,
                    entry: None,
                    messages: Vec::new(alloc),
                };
                self.queues.insert(place, part).ok()?;
                Some(place)
            }
        }
    }

    /// The system of all parts; none where it would be unlawful.
    fn whole(self, alloc: Global) -> Option<System>
        ensures { IfSome result (λ system. system.stopped ≡ false) }
    {
        let Parts {
            next_id,
            queues: parts,
        } = self;
        let mut queues = Vec::new(alloc);
        for part in parts {
            queues.push(part.whole(alloc)?).ok()?;
        }
        System::of_queues(queues, next_id)
    }
}

impl Part {
    /// The queue, its messages in ascending order of serial; none where there is no Queue.
    fn whole(self, alloc: Global) -> Option<Queue> {
        let Part {
            id,
            entry,
            messages: mut list,
        } = self;
        let entry = entry?;
        list.sort_unstable_by_key(|message| message.serial);
        let mut messages = Messages::new(alloc);
        for message in list {
            messages.push(message).ok()?;
        }
        Some(queue_in(&entry, id, messages))
    }
}
