//! The records of a file are compared with those of a system: where each is one of them, and they
//! are as many, the file holds exactly these.

ghost use Rattle.std.specs.Prelude.{◌≡◌, ◌≤◌, false, length, IfSome, IsTrue};
ghost use Rattle.std.specs.List.{Contains};
ghost use Rattle.queue_records.specs.declared.record.Record.TheVariants as records;
ghost use Rattle.queue_model.specs.Lawful.{IsLawfulQueue};
ghost use Rattle.record_walk.specs.Links.{AreLinksOf};
ghost use Rattle.type_chains.specs.Image.{image, queue_records};
ghost use Rattle.file_check.specs.Gathered.{AreCounted, AreJustOf, AreLinksOfAll, IsOf};
ghost use Rattle.file_check.specs.Records.{AreRightRecordsIn, IsLivePage};
ghost use Rattle.file_check.specs.Words.{IsLayout, IsRightStructureIn, file_in, pair, pairs_on, records_at};

use crate::bucket::{bucket_in, read_again};
use crate::gathered::gather;
use crate::needs::{place_of, place_of_message};
use bucket_page::{PseudoKey, RecordKey};
use directory::Layout;
use page_device::{PAGE_BYTES, PageDevice};
use queue_model::{Queue, System};
use queue_records::{COUNTER, Counter, KEY, KeyEntry, MESSAGE, QUEUE, Record, TYPE};
use record_walk::{QueueLinks, TestedBucket, is_spelled_in};
use std::alloc::Global;

/// The system of which these pages hold exactly the records, where each is right by itself. None
/// says nothing of them.
pub(crate) fn quick_system<D: PageDevice, K: PseudoKey>(
    alloc: Global,
    layout: &Layout,
    device: &mut D,
    keys: &K,
    chain: &[u32],
) -> Option<System>
    requires layout { IsLayout layout.now }
    requires structure { IsTrue (D.is_honest device.old) →
        IsRightStructureIn layout.now (D.content device.old) chain.now }
    ensures right { IsTrue (D.is_honest device.old) → IfSome result (λ system.
        AreRightRecordsIn layout.now (K.of_key keys.now)
        (file_in layout.now (D.content device.old)) chain.now) }
    ensures some { IsTrue (D.is_honest device.old) → IfSome result
        (AreJustOf layout.now (file_in layout.now (D.content device.old)) chain.now) }
    ensures same { D.content device.new ≡ D.content device.old }
    ensures honest { D.is_honest device.new ≡ D.is_honest device.old }
    ensures later { D.fault_count device.old ≤ D.fault_count device.new }
{
    let system = gather(alloc, layout, device, keys, chain)?;
    has_just(alloc, layout, device, chain, &system)?;
    Some(system)
}

/// Some where these pages hold exactly the records of a system. None says nothing of them.
pub(crate) fn has_just<D: PageDevice>(
    alloc: Global,
    layout: &Layout,
    device: &mut D,
    chain: &[u32],
    system: &System,
) -> Option<()>
    requires layout { IsLayout layout.now }
    requires structure { IsTrue (D.is_honest device.old) →
        IsRightStructureIn layout.now (D.content device.old) chain.now }
    ensures just { IsTrue (D.is_honest device.old) → IfSome result (λ done.
        system.now.stopped ≡ false → AreJustOf layout.now
        (file_in layout.now (D.content device.old)) chain.now system.now) }
    ensures same { D.content device.new ≡ D.content device.old }
    ensures honest { D.is_honest device.new ≡ D.is_honest device.old }
    ensures later { D.fault_count device.old ≤ D.fault_count device.new }
{
    system.keeps_limits();
    let links = links_of(alloc, system)?;
    let wanted = count_of(system, &links)?;
    let stand = count_on(alloc, layout, device, chain, system, &links)?;
    if stand != wanted {
        return None;
    }
    Some(())
}

/// The links of each queue.
fn links_of(alloc: Global, system: &System) -> Option<Vec<QueueLinks>>
    ensures { IfSome result (λ links. AreLinksOfAll system.now links.items) }
{
    system.keeps_limits();
    let mut links = Vec::with_capacity(alloc, system.queues()).ok()?;
    for place in 0..system.queues() {
        let of_queue = QueueLinks::of(alloc, &system.queue(place).messages)?;
        links.push(of_queue).ok()?;
    }
    Some(links)
}

/// How many records a system has.
fn count_of(system: &System, links: &[QueueLinks]) -> Option<usize>
    requires { AreLinksOfAll system.now links.now }
    ensures { IfSome result (λ count. count ≡ length (image system.now)) }
{
    let mut count = 1_usize;
    for place in 0..system.queues() {
        count = count.checked_add(queue_count(system.queue(place), &links[place])?)?;
    }
    Some(count)
}

/// How many records a queue has.
fn queue_count(queue: &Queue, links: &QueueLinks) -> Option<usize>
    requires { AreLinksOf queue.now.messages links.now }
    ensures { IfSome result (λ count. count ≡ length (queue_records queue.now)) }
{
    let own: usize = match queue.key {
        Some(_) => 2,
        None => 1,
    };
    own.checked_add(links.types())?
        .checked_add(queue.messages.len())
}

/// How many records stand on these pages, where each is one of a system's.
fn count_on<D: PageDevice>(
    alloc: Global,
    layout: &Layout,
    device: &mut D,
    chain: &[u32],
    system: &System,
    links: &[QueueLinks],
) -> Option<usize>
    requires layout { IsLayout layout.now }
    requires structure { IsTrue (D.is_honest device.old) →
        IsRightStructureIn layout.now (D.content device.old) chain.now }
    requires links { AreLinksOfAll system.now links.now }
    ensures some { IsTrue (D.is_honest device.old) → IfSome result (AreCounted
        layout.now system.now (pairs_on (file_in layout.now (D.content device.old)) chain.now)) }
    ensures same { D.content device.new ≡ D.content device.old }
    ensures honest { D.is_honest device.new ≡ D.is_honest device.old }
    ensures later { D.fault_count device.old ≤ D.fault_count device.new }
{
    let mut count = 0_usize;
    for page in chain {
        count = count.checked_add(count_on_page(alloc, layout, device, *page, system, links)?)?;
    }
    Some(count)
}

/// How many records stand on a page, where each is one of a system's.
fn count_on_page<D: PageDevice>(
    alloc: Global,
    layout: &Layout,
    device: &mut D,
    page: u32,
    system: &System,
    links: &[QueueLinks],
) -> Option<usize>
    requires live { IsTrue (D.is_honest device.old) →
        IsLivePage layout.now (D.content device.old) page }
    requires links { AreLinksOfAll system.now links.now }
    ensures some { IsTrue (D.is_honest device.old) → IfSome result (AreCounted
        layout.now system.now (records_at (file_in layout.now (D.content device.old)) page)) }
    ensures same { D.content device.new ≡ D.content device.old }
    ensures honest { D.is_honest device.new ≡ D.is_honest device.old }
    ensures later { D.fault_count device.old ≤ D.fault_count device.new }
{
    let mut bytes = [0; PAGE_BYTES];
    read_again(device, page, &mut bytes).ok()?;
    count_in(alloc, layout, &bucket_in(&bytes, page).ok()?, system, links)
}

/// How many records a bucket has, where each is one of a system's.
fn count_in(
    alloc: Global,
    layout: &Layout,
    bucket: &TestedBucket,
    system: &System,
    links: &[QueueLinks],
) -> Option<usize>
    requires { AreLinksOfAll system.now links.now }
    ensures { IfSome result (AreCounted layout.now system.now bucket.now.records) }
{
    let mut count = 0_usize;
    for record in bucket.records() {
        if !is_of(alloc, layout, system, links, &record.key, record.value) {
            return None;
        }
        count = count.checked_add(1)?;
    }
    Some(count)
}

/// Whether a key and a value are those of a record of a system.
fn is_of(
    alloc: Global,
    layout: &Layout,
    system: &System,
    links: &[QueueLinks],
    key: &RecordKey,
    value: &[u8],
) -> bool
    requires { AreLinksOfAll system.now links.now }
    ensures { IsTrue result → IsOf layout.now system.now (pair key.now value.now) }
{
    match record_for(alloc, system, links, key) {
        Some(record) => record.key() == *key && is_spelled_in(layout, &record, value),
        None => false,
    }
}

/// The record of a system that can stand at a key.
fn record_for<'s>(
    alloc: Global,
    system: &'s System,
    links: &[QueueLinks],
    key: &RecordKey,
) -> Option<Record<'s>>
    requires { AreLinksOfAll system.now links.now }
    ensures { IfSome result (λ r. Contains (image system.now) r) }
{
    match key.kind {
        COUNTER => {
            system.keeps_limits();
            Some(Record::Counter(Counter {
                next_id: system.next_id(),
                queues_alive: system.queues() as u32,
            }))
        }
        KEY => Some(Record::Key(key_entry(system, key.number)?)),
        _ => {
            let place = place_of(system, key.queue)?;
            system.keeps_limits();
            record_of_queue(alloc, system.queue(place), &links[place], key)
        }
    }
}

/// The Key of a key.
fn key_entry(system: &System, number: u64) -> Option<KeyEntry>
    ensures { IfSome result (λ entry. Contains (image system.now) (records.Key entry)) }
{
    for place in 0..system.queues() {
        let queue = system.queue(place);
        if let Some(key) = queue.key {
            if key as u64 == number {
                return Some(KeyEntry { key, id: queue.id });
            }
        }
    }
    None
}

/// The record of a queue that can stand at a key.
fn record_of_queue<'q>(
    alloc: Global,
    queue: &'q Queue,
    links: &QueueLinks,
    key: &RecordKey,
) -> Option<Record<'q>>
    requires lawful { IsLawfulQueue queue.now }
    requires links { AreLinksOf queue.now.messages links.now }
    ensures { IfSome result (λ r. Contains (queue_records queue.now) r) }
{
    match key.kind {
        QUEUE => Some(Record::Queue(links.queue_entry(alloc, queue)?)),
        TYPE => Some(Record::Type(links.type_entry(queue, key.number.cast_signed())?)),
        MESSAGE => {
            let place = place_of_message(&queue.messages, key.number)?;
            Some(Record::Message(links.message_entry(queue, place)))
        }
        _ => None,
    }
}
