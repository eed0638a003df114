//! The links of a queue in few bytes, and the records that it has to have.

ghost use Rattle.std.specs.Prelude.{◌≡◌, ◌+◌, ◌<◌, ℤ, length, map, slice_get, slice_index_or, IfSome};
ghost use Rattle.std.specs.List.{Contains};
ghost use Rattle.queue_records.specs.declared.record.Record.TheVariants as records;
ghost use Rattle.type_chains.specs.Neighbours.{before_place};
ghost use Rattle.record_walk.specs.Links.{AreLinksOf, IsAscending, IsPlaceOf, ends_in, link_of};
ghost use Rattle.record_walk.specs.Words.{IsLawfulQueue, Message, message_entry, message_records, queue_entry, serials, type_entry, type_records, types};

use crate::entries::queue_entry;
use crate::lists::{serials_of, type_before, type_behind, types_of};
use crate::of_type::{Ends, TypeLinks, type_links};
use queue_model::{Messages, Queue};
use queue_records::{Body, MessageEntry, QueueEntry, TypeEntry};
use std::alloc::Global;

/// The serials of the first and the last message of a type.
#[derive(Clone, Copy)]
pub(crate) struct TypeEnds {
    pub(crate) first: u64,
    pub(crate) last: u64,
}

/// The types of a queue with their ends, and of each message the serial of the next of its type, 0
/// for none: 8 bytes a message, and 24 a type.
#[derive(Drop)]
pub struct QueueLinks {
    pub(crate) kinds: Vec<i64>,
    pub(crate) ends: Vec<TypeEnds>,
    pub(crate) next: Vec<u64>,
}

impl QueueLinks {
    /// Those of messages; none where there is no memory for them.
    pub fn of(alloc: Global, messages: &Messages) -> Option<QueueLinks>
        requires { IsAscending messages.now }
        ensures { IfSome result (AreLinksOf messages.now) }
    {
        let kinds = types_of(alloc, messages).ok()?;
        let TypeLinks { next, ends } = type_links(alloc, messages, &kinds).ok()?;
        let next = numbers_of(alloc, &next)?;
        let ends = numbered(alloc, &ends)?;
        Some(QueueLinks { kinds, ends, next })
    }

    /// The number of types.
    pub fn types(&self) -> usize
        ensures { result ≡ length self.now.kinds.items }
    {
        self.kinds.len()
    }

    /// The Queue of the queue; none where there is no memory for its serials.
    pub fn queue_entry(&self, alloc: Global, queue: &Queue) -> Option<QueueEntry>
        requires lawful { IsLawfulQueue queue.now }
        requires links { AreLinksOf queue.now.messages self.now }
        ensures { IfSome result (λ entry. entry ≡ queue_entry queue.now) }
    {
        let all = serials_of(alloc, &queue.messages).ok()?;
        Some(queue_entry(queue, &all, &self.kinds))
    }

    /// The Type of a type; none where no message has it.
    pub fn type_entry(&self, queue: &Queue, mtype: i64) -> Option<TypeEntry>
        requires { AreLinksOf queue.now.messages self.now }
        ensures stands { IfSome result
            (λ entry. Contains (type_records queue.now) (records.Type entry)) }
        ensures which { IfSome result (λ entry. entry ≡ type_entry queue.now mtype) }
    {
        let place = self.place_of_type(mtype)?;
        Some(self.type_at(queue, place))
    }

    /// The place of a type. Types ascend, so where some are missing each look halves the places
    /// that are left.
    fn place_of_type(&self, mtype: i64) -> Option<usize>
        ensures { IfSome result (IsPlaceOf self.now.kinds.items mtype) }
    {
        match self.place_without_gaps(mtype) {
            Some(place) => Some(place),
            None => self.kinds.binary_search(&mtype).ok(),
        }
    }

    /// The place of a type, where none between it and the first is missing.
    fn place_without_gaps(&self, mtype: i64) -> Option<usize>
        ensures { IfSome result (IsPlaceOf self.now.kinds.items mtype) }
    {
        let first = *self.kinds.first()?;
        let place = usize::try_from(mtype.checked_sub(first)?).ok()?;
        if *self.kinds.get(place)? == mtype {
            Some(place)
        } else {
            None
        }
    }

    /// The Type of the type at a place.
    fn type_at(&self, queue: &Queue, place: usize) -> TypeEntry
        requires within { place < length self.now.kinds.items }
        requires links { AreLinksOf queue.now.messages self.now }
        ensures stands { Contains (type_records queue.now) (records.Type result) }
        ensures which { (mtype : ℤ) → IsPlaceOf self.now.kinds.items mtype place →
            result ≡ type_entry queue.now mtype }
    {
        let ends = self.ends[place];
        TypeEntry {
            id: queue.id,
            mtype: self.kinds[place],
            first: ends.first,
            last: ends.last,
            lower: type_before(&self.kinds, place),
            higher: type_behind(&self.kinds, place),
        }
    }

    /// The Message of the message at a place.
    pub fn message_entry<'q>(&self, queue: &'q Queue, place: usize) -> MessageEntry<'q>
        requires within { place < length queue.now.messages }
        requires ascend { IsAscending queue.now.messages }
        requires links { AreLinksOf queue.now.messages self.now }
        ensures stands { Contains (message_records queue.now) (records.Message result) }
        ensures which { (m : Message) →
            result ≡ message_entry queue.now (slice_index_or queue.now.messages place m) }
    {
        let message = queue.messages.get(place);
        MessageEntry {
            id: queue.id,
            serial: message.serial,
            mtype: message.mtype,
            sender: message.sender,
            previous: serial_before(&queue.messages, place),
            next: serial_behind(&queue.messages, place),
            next_of_type: link_of(self.next[place]),
            body: Body::new(message.bytes.as_slice()),
        }
    }
}

/// The numbers of links; none where one is 0, or where there is no memory for them.
fn numbers_of(alloc: Global, links: &[Option<u64>]) -> Option<Vec<u64>>
    ensures { IfSome result (λ numbers. map link_of numbers.items ≡ links.now) }
{
    let mut numbers = Vec::with_capacity(alloc, links.len()).ok()?;
    for link in links {
        let number = link.unwrap_or(0);
        if link_of(number) != *link {
            return None;
        }
        numbers.push(number).ok()?;
    }
    Some(numbers)
}

/// The ends as numbers; none where there is no memory for them.
fn numbered(alloc: Global, ends: &[Ends]) -> Option<Vec<TypeEnds>>
    ensures { IfSome result (λ list. list.items ≡ map ends_in ends.now) }
{
    let mut list = Vec::with_capacity(alloc, ends.len()).ok()?;
    for end in ends {
        let ends = TypeEnds {
            first: end.first.unwrap_or(0),
            last: end.last.unwrap_or(0),
        };
        list.push(ends).ok()?;
    }
    Some(list)
}

/// The link of a number.
fn link_of(number: u64) -> Option<u64>
    ensures { result ≡ link_of number }
{
    if number == 0 { None } else { Some(number) }
}

/// The serial before a place.
fn serial_before(messages: &Messages, place: usize) -> Option<u64>
    requires { place < length messages.now }
    ensures { result ≡ before_place (serials messages.now) place }
{
    if place == 0 {
        return None;
    }
    Some(messages.get(place - 1).serial)
}

/// The serial behind a place.
fn serial_behind(messages: &Messages, place: usize) -> Option<u64>
    requires { place < length messages.now }
    ensures { result ≡ slice_get (serials messages.now) (place + 1) }
{
    if messages.len() - place == 1 {
        return None;
    }
    Some(messages.get(place + 1).serial)
}
