//! What a Send writes.

ghost use Rattle.std.specs.Prelude.{◌≡◌, true, None, length, slice_get, slice_index_or};
ghost use Rattle.queue_model.specs.Selection.{lesser};
ghost use Rattle.type_chains.specs.Sending.{last_message, with_one_more};
ghost use Rattle.xsi_send.specs.Planning.{link_if, links_behind, new_type, queue_write, sent_slots, sent_trials, takes_more};

use crate::type_place::TypePlace;
use queue_model::SendArguments;
use queue_records::{
    Body, Link, Links, MessageEntry, MessageLinks, QueueEntry, Record, TypeEntry, TypeLinks,
    message_key, type_key,
};
use xsi_inquiry::Write;

/// What is inserted on trial: the Message, then the Type where its type is new.
pub fn sent_trial<'a>(
    pid: u32,
    arguments: &'a SendArguments,
    queue: &QueueEntry,
    types: TypePlace,
    place: usize,
) -> Option<Record<'a>>
    ensures { result ≡ slice_get (sent_trials pid arguments.now queue.now types) place }
{
    match (place, types) {
        (0, _) => Some(Record::Message(last_message(pid, arguments, queue))),
        (1, TypePlace::Between(lower, higher)) => Some(Record::Type(new_type(
            queue.id,
            arguments.mtype,
            queue.next_serial,
            lower,
            higher,
        ))),
        (_, _) => None,
    }
}

/// What is written after the decision: the Queue, then Messages by serial, then Types by type. A
/// Message or a Type gets new links where it stands.
pub fn sent_write(
    pid: u32,
    arguments: &SendArguments,
    queue: &QueueEntry,
    types: TypePlace,
    slot: usize,
) -> Option<Write>
    ensures { result ≡ slice_index_or (sent_slots pid arguments.now queue.now types) slot None }
{
    let id = queue.id;
    let mtype = arguments.mtype;
    let serial = queue.next_serial;
    match (slot, types) {
        (0, _) => queue_write(pid, arguments, queue),
        (1, TypePlace::Standing(last)) if queue.last == Some(last) => None,
        (1, TypePlace::Standing(last)) => Some(Write::Relink(
            message_key(id, last),
            links_behind(serial, false, true),
        )),
        (2, TypePlace::Standing(last)) => {
            let end = queue.last?;
            Some(Write::Relink(
                message_key(id, end),
                links_behind(serial, true, end == last),
            ))
        }
        (3, TypePlace::Standing(_)) => Some(Write::Relink(
            type_key(id, mtype),
            Links::Type(TypeLinks {
                first: None,
                last: Some(serial),
                lower: Link::Stays,
                higher: Link::Stays,
            }),
        )),
        (1, TypePlace::Between(..)) => {
            let end = queue.last?;
            Some(Write::Relink(message_key(id, end), links_behind(serial, true, false)))
        }
        (2, TypePlace::Between(lower, _)) => {
            let lower = lower?;
            Some(Write::Relink(
                type_key(id, lower),
                Links::Type(TypeLinks {
                    first: None,
                    last: None,
                    lower: Link::Stays,
                    higher: Link::LeadsTo(mtype),
                }),
            ))
        }
        (3, TypePlace::Between(_, higher)) => {
            let higher = higher?;
            Some(Write::Relink(
                type_key(id, higher),
                Links::Type(TypeLinks {
                    first: None,
                    last: None,
                    lower: Link::LeadsTo(mtype),
                    higher: Link::Stays,
                }),
            ))
        }
        (_, _) => None,
    }
}

/// The links of a Message behind which the message of this serial comes, on the queue
/// or of its type.
fn links_behind(serial: u64, on_queue: bool, of_type: bool) -> Links
    ensures { result ≡ links_behind serial on_queue of_type }
{
    Links::Message(MessageLinks {
        previous: Link::Stays,
        next: link_if(on_queue, serial),
        next_of_type: link_if(of_type, serial),
    })
}

/// A link that leads to the serial, or stays.
fn link_if(leads: bool, serial: u64) -> Link<u64>
    ensures { result ≡ link_if leads serial }
{
    match leads {
        true => Link::LeadsTo(serial),
        false => Link::Stays,
    }
}

/// Whether the counts of a Queue stay numbers with one message of this length more.
pub fn takes_more(length: usize, queue: &QueueEntry) -> bool
    ensures { result ≡ takes_more length queue.now }
{
    (queue.cbytes as usize).saturating_add(length) <= u32::MAX as usize
        && queue.qnum < u32::MAX
        && queue.next_serial < u64::MAX
}

/// The Queue with one message more, where its counts stay numbers.
fn queue_write(pid: u32, arguments: &SendArguments, queue: &QueueEntry) -> Option<Write>
    ensures { result ≡ queue_write pid arguments.now queue.now }
{
    if !takes_more(arguments.body.len(), queue) {
        return None;
    }
    Some(Write::Replace(Record::Queue(with_one_more(pid, arguments, queue))))
}

/// The Queue with one message more.
fn with_one_more(pid: u32, arguments: &SendArguments, queue: &QueueEntry) -> QueueEntry
    requires { takes_more (length arguments.now.body) queue.now ≡ true }
    ensures { result ≡ with_one_more pid arguments.now queue.now }
{
    QueueEntry {
        cbytes: queue.cbytes + arguments.body.len() as u32,
        qnum: queue.qnum + 1,
        lspid: pid,
        stime: arguments.moment,
        next_serial: queue.next_serial + 1,
        first: Some(queue.first.unwrap_or(queue.next_serial)),
        last: Some(queue.next_serial),
        lowest: Some(lesser(arguments.mtype, queue.lowest)),
        ..*queue
    }
}

/// The lesser of a type and the lowest of a queue.
fn lesser(mtype: i64, lowest: Option<i64>) -> i64
    ensures { result ≡ lesser mtype lowest }
{
    match lowest {
        None => mtype,
        Some(other) => mtype.min(other),
    }
}

/// The Message, which is the last of its queue and of its type.
fn last_message<'a>(pid: u32, arguments: &'a SendArguments, queue: &QueueEntry) -> MessageEntry<'a>
    ensures { result ≡ last_message pid arguments.now queue.now }
{
    MessageEntry {
        id: queue.id,
        serial: queue.next_serial,
        mtype: arguments.mtype,
        sender: pid,
        previous: queue.last,
        next: None,
        next_of_type: None,
        body: Body::new(arguments.body.as_slice()),
    }
}

/// The Type of a type of which this is the one message, between its neighbours.
fn new_type(id: u32, mtype: i64, serial: u64, lower: Option<i64>, higher: Option<i64>) -> TypeEntry
    ensures { result ≡ new_type id mtype serial lower higher }
{
    TypeEntry {
        id,
        mtype,
        first: serial,
        last: serial,
        lower,
        higher,
    }
}
