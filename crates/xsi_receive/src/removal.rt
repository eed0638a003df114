//! A message that is taken off its queue, and what is written then.

ghost use Rattle.std.specs.Prelude.{◌≡◌, None, Some, slice_index_or, true};
ghost use Rattle.xsi_receive.specs.Removing.{higher_write, is_counted, left_by, link_to, lowest_left, next_write, own_write, previous_write, queue_left, slots_of, type_deletion, where_none};

use crate::head::MessageHead;
use queue_model::ReceiveArguments;
use queue_records::{
    Link, Links, MessageLinks, QueueEntry, Record, TypeEntry, TypeLinks, message_key, type_key,
};
use xsi_inquiry::Write;

/// What becomes of the Type of a message that is taken.
#[derive(Clone, Copy)]
pub enum TypeLeft {
    /// The message of this serial is the first of it now.
    Begins(u64),
    /// It goes with its last message. Of the types on the queue this is the next lower one, and
    /// this the next higher.
    Goes(Option<i64>, Option<i64>),
}

/// A message that is taken off its queue.
#[derive(Clone, Copy)]
pub struct Removal {
    /// The Queue without it.
    pub queue: QueueEntry,
    /// The message.
    pub message: MessageHead,
    /// What becomes of its Type.
    pub type_left: TypeLeft,
}

impl TypeLeft {
    /// By the next message of the type, and by the Type.
    pub fn by(next_of_type: Option<u64>, entry: &TypeEntry) -> TypeLeft
        ensures { result ≡ left_by next_of_type entry.now }
    {
        match next_of_type {
            Some(first) => TypeLeft::Begins(first),
            None => TypeLeft::Goes(entry.lower, entry.higher),
        }
    }
}

impl Removal {
    /// Of a message whose Queue counts it. It stands in whoever takes the message, where the Queue and
    /// the message are already.
    #[inline(always)]
    pub fn new(
        pid: u32,
        arguments: &ReceiveArguments,
        queue: &QueueEntry,
        message: MessageHead,
        type_left: TypeLeft,
    ) -> Removal
        requires { is_counted queue.now message ≡ true }
        ensures { result ≡ record {
          queue = queue_left pid arguments.now queue.now message type_left;
          message = message;
          type_left = type_left;
        } }
    {
        Removal {
            queue: QueueEntry {
                cbytes: queue.cbytes - message.bytes as u32,
                qnum: queue.qnum - 1,
                lrpid: pid,
                rtime: arguments.moment,
                first: where_none(message.previous, message.next, queue.first),
                last: where_none(message.next, message.previous, queue.last),
                lowest: lowest_left(type_left, queue.lowest),
                ..*queue
            },
            message,
            type_left,
        }
    }

    /// What is written in a slot, on the queue of an id: the Queue; the Messages before and
    /// after it; its Type, or those beside it; then the message goes, and its Type with the
    /// last message of it.
    pub fn write(&self, id: u32, slot: usize) -> Option<Write>
        ensures { result ≡ slice_index_or (slots_of id self.now) slot None }
    {
        match slot {
            0 => Some(Write::Replace(Record::Queue(self.queue))),
            1 => self.previous_write(id),
            2 => self.next_write(id),
            3 => self.own_write(id),
            4 => self.higher_write(id),
            5 => Some(Write::Delete(message_key(id, self.message.serial))),
            6 => self.type_deletion(id),
            _ => None,
        }
    }

    /// The message before it is followed by the one behind it.
    fn previous_write(&self, id: u32) -> Option<Write>
        ensures { result ≡ previous_write id self.now }
    {
        let serial = self.message.previous?;
        let links = MessageLinks {
            previous: Link::Stays,
            next: link_to(self.message.next),
            next_of_type: Link::Stays,
        };
        Some(Write::Relink(message_key(id, serial), Links::Message(links)))
    }

    /// The one behind it follows the one before it.
    fn next_write(&self, id: u32) -> Option<Write>
        ensures { result ≡ next_write id self.now }
    {
        let serial = self.message.next?;
        let links = MessageLinks {
            previous: link_to(self.message.previous),
            next: Link::Stays,
            next_of_type: Link::Stays,
        };
        Some(Write::Relink(message_key(id, serial), Links::Message(links)))
    }

    /// Its Type begins with another message; or the next lower one is followed by
    /// the next higher one.
    fn own_write(&self, id: u32) -> Option<Write>
        ensures { result ≡ own_write id self.now }
    {
        match self.type_left {
            TypeLeft::Begins(first) => {
                let links = TypeLinks {
                    first: Some(first),
                    last: None,
                    lower: Link::Stays,
                    higher: Link::Stays,
                };
                let key = type_key(id, self.message.mtype);
                Some(Write::Relink(key, Links::Type(links)))
            }
            TypeLeft::Goes(lower, higher) => {
                let mtype = lower?;
                let links = TypeLinks {
                    first: None,
                    last: None,
                    lower: Link::Stays,
                    higher: link_to(higher),
                };
                Some(Write::Relink(type_key(id, mtype), Links::Type(links)))
            }
        }
    }

    /// The next higher Type follows the next lower one.
    fn higher_write(&self, id: u32) -> Option<Write>
        ensures { result ≡ higher_write id self.now }
    {
        match self.type_left {
            TypeLeft::Begins(_) => None,
            TypeLeft::Goes(lower, higher) => {
                let mtype = higher?;
                let links = TypeLinks {
                    first: None,
                    last: None,
                    lower: link_to(lower),
                    higher: Link::Stays,
                };
                Some(Write::Relink(type_key(id, mtype), Links::Type(links)))
            }
        }
    }

    /// Its Type goes, where no message of it is left.
    fn type_deletion(&self, id: u32) -> Option<Write>
        ensures { result ≡ type_deletion id self.now }
    {
        match self.type_left {
            TypeLeft::Begins(_) => None,
            TypeLeft::Goes(_, _) => Some(Write::Delete(type_key(id, self.message.mtype))),
        }
    }
}

/// Whether a Queue counts a message and its bytes.
pub fn is_counted(queue: &QueueEntry, message: &MessageHead) -> bool
    ensures { result ≡ is_counted queue.now message.now }
{
    message.bytes <= queue.cbytes as usize && queue.qnum >= 1
}

/// One or the other, by whether there is a link.
fn where_none(link: Option<u64>, absent: Option<u64>, present: Option<u64>) -> Option<u64>
    ensures { result ≡ where_none link absent present }
{
    match link {
        None => absent,
        Some(_) => present,
    }
}

/// The lowest type that is left.
fn lowest_left(type_left: TypeLeft, lowest: Option<i64>) -> Option<i64>
    ensures { result ≡ lowest_left type_left lowest }
{
    match type_left {
        TypeLeft::Goes(None, higher) => higher,
        _ => lowest,
    }
}

/// A link that leads there from now on, or nowhere.
fn link_to<T: Copy>(there: Option<T>) -> Link<T>
    ensures { result ≡ link_to there }
{
    match there {
        None => Link::Ends,
        Some(there) => Link::LeadsTo(there),
    }
}
