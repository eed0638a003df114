//! A message, and the messages of a queue in order of acceptance.

ghost use Rattle.std.specs.Prelude.{◌≡◌, ◌<◌, ◌≤◌, ◌+◌, ◌^◌, [], ◌∷◌, ◌++◌, length, position, remove, slice_index_or, pos, Some, None, IsTrue, ◌↔◌, IfOk, IfSome, IfNone, OnOk, OnErr};
ghost use Rattle.std.specs.Ordering.{int_eq};
ghost use Rattle.queue_model.specs.Selection.{total_bytes, has_type, lowest_type, selects, selected, IsSelectedAt};
ghost use Rattle.queue_model.specs.Selection.{is_too_long};
ghost use Rattle.queue_model.specs.Lawful.{AreLawfulMessages, FollowsMessage};

use crate::body::Body;
use crate::call::ReceiveArguments;
use numbers::faults::NoMemory;
use numbers::limits::MAX_BODY;
use std::alloc::Global;
use std::marker::Model;

/// A message (POSIX.1-2017, `msgsnd`).
#[derive(Drop, PartialEq)]
pub struct Message {
    /// Its number on its queue, from 1 on, in order of acceptance.
    pub serial: u64,
    /// The process that sent it.
    pub sender: u32,
    /// Its type, at least 1.
    pub mtype: i64,
    /// Its bytes.
    pub bytes: Body,
}

impl Message {
    /// Whether a receive refuses it: it is longer than the size asked for, and may not be cut.
    pub fn is_too_long(&self, arguments: &ReceiveArguments) -> bool
        ensures { result ≡ is_too_long arguments.now self.now }
    {
        (arguments.size as usize) < self.bytes.len() && !arguments.noerror
    }

    /// Whether it can stand on a queue whose next serial this is, behind a message of a serial.
    fn follows(&self, low: u64, next_serial: u64) -> bool
        ensures { IsTrue result ↔ FollowsMessage next_serial low self.now }
    {
        low < self.serial
            && 1 <= self.serial
            && self.serial < next_serial
            && 1 <= self.mtype
            && self.bytes.len() <= MAX_BODY
    }

    /// An equal message, where there is memory for it.
    pub fn try_copy(&self) -> Result<Message, NoMemory>
        ensures { IfOk result (λ copy. copy ≡ self.now) }
    {
        let bytes = self.bytes.try_copy()?;
        Ok(Message { bytes, ..*self })
    }
}

/// Messages in order of acceptance, which contracts see as a list.
#[derive(Drop)]
pub struct Messages {
    items: Vec<Message>,
}

impl Model for Messages {
    ghost use Rattle.std.specs.Prelude.{List};
    ghost use Rattle.queue_model.specs.declared.message.Message.{Message};

    ghost Value = { List Message };

    ghost view = { λ m. m.items.items };
}

impl Messages {
    /// No message.
    pub fn new(alloc: Global) -> Messages
        ensures { result ≡ [] }
    {
        Messages {
            items: Vec::new(alloc),
        }
    }

    /// The number of messages.
    pub fn len(&self) -> usize
        ensures { result ≡ length self.now }
    {
        self.items.len()
    }

    /// The message at a place, from 0 on.
    pub fn get(&self, place: usize) -> &Message
        requires { place < length self.now }
        ensures { result.now ≡ slice_index_or self.now place result.now }
    {
        &self.items[place]
    }

    /// The bytes that all bodies have together.
    pub fn total_bytes(&self) -> usize
        requires { total_bytes self.now < 2 ^ 64 }
        ensures { result ≡ total_bytes self.now }
    {
        bytes_of(self.items.as_slice())
    }

    /// The place of the message that a receive of this type takes (POSIX.1-2017, `msgrcv`).
    pub fn selected(&self, mtype: i64) -> Option<usize>
        ensures value { IfSome result (IsSelectedAt mtype self.now) }
        ensures none { IfNone result (selected mtype self.now ≡ None) }
    {
        first_selected(self.items.as_slice(), mtype)
    }

    /// Whether they can stand on a queue whose next serial this is.
    pub(crate) fn are_lawful(&self, next_serial: u64) -> bool
        ensures { IsTrue result ↔ AreLawfulMessages next_serial self.now }
    {
        are_lawful(self.items.as_slice(), next_serial)
    }

    /// Puts a message last.
    pub fn push(&mut self, message: Message) -> Result<(), NoMemory>
        ensures ok { OnOk result (self.new ≡ self.old ++ message ∷ []) }
        ensures err { OnErr result (self.new ≡ self.old) }
    {
        self.items.push(message)?;
        Ok(())
    }

    /// Takes out the message at a place.
    pub fn remove(&mut self, place: usize) -> Message
        requires { place < length self.old }
        ensures value { result ≡ slice_index_or self.old place result }
        ensures rest { self.new ≡ remove self.old place }
    {
        self.items.remove(place)
    }

    /// Equal messages in the same order, where there is memory for them.
    pub fn try_copy(&self) -> Result<Messages, NoMemory>
        ensures { IfOk result (λ copy. copy ≡ self.now) }
    {
        let alloc: Global = *self.items.allocator();
        let mut items = Vec::with_capacity(alloc, self.items.len())?;
        for message in &self.items {
            items.push(message.try_copy()?)?;
        }
        Ok(Messages { items })
    }
}

/// The bytes that the bodies have together.
fn bytes_of(messages: &[Message]) -> usize
    requires { total_bytes messages.now < 2 ^ 64 }
    ensures { result ≡ total_bytes messages.now }
{
    messages.iter().map(|message| message.bytes.len()).sum()
}

/// Whether each message keeps its limits, and their serials ascend.
fn are_lawful(messages: &[Message], next_serial: u64) -> bool
    ensures { IsTrue result ↔ AreLawfulMessages next_serial messages.now }
{
    let mut low = 0;
    for message in messages {
        if !message.follows(low, next_serial) {
            return false;
        }
        low = message.serial;
    }
    true
}

/// The place of the first message that a receive of this type would take.
fn first_selected(messages: &[Message], mtype: i64) -> Option<usize>
    ensures { result ≡ position (selects mtype messages.now) messages.now }
{
    if mtype > 0 {
        first_of_type(messages, mtype)
    } else if mtype < 0 {
        first_of_lowest(messages, mtype.unsigned_abs())
    } else if messages.is_empty() {
        None
    } else {
        Some(0)
    }
}

/// The place of the first message of a type.
fn first_of_type(messages: &[Message], mtype: i64) -> Option<usize>
    ensures { result ≡ position (λ m. int_eq m.mtype mtype) messages.now }
{
    messages.iter().position(|message| message.mtype == mtype)
}

/// The place of the first message of the lowest type that is at most the bound.
fn first_of_lowest(messages: &[Message], bound: u64) -> Option<usize>
    ensures { result ≡ position (has_type (lowest_type (pos bound) messages.now)) messages.now }
{
    let mut lowest: Option<i64> = None;
    for message in messages {
        if message.mtype < 1 || message.mtype as u64 <= bound {
            lowest = match lowest {
                Some(found) if found <= message.mtype => Some(found),
                _ => Some(message.mtype),
            };
        }
    }
    for (place, message) in messages.iter().enumerate() {
        if Some(message.mtype) == lowest {
            return Some(place);
        }
    }
    None
}
