//! One queue, and what calls change of it.

ghost use Rattle.std.specs.Prelude.{◌≡◌, ◌≤◌, ◌<◌, ◌≤ℤ◌, pos, false, length, position, slice_index_or, Some, IsTrue, ◌↔◌, IfOk, OnOk, OnErr};
ghost use Rattle.queue_model.specs.Selection.{total_bytes, IsSelectedAt};
ghost use Rattle.queue_model.specs.Rules.{new_queue, lacks_room, with_message, cut_at, without_message, with_settings, info_of};
ghost use Rattle.queue_model.specs.Lawful.{HasLimits, IsLawfulQueue};

use crate::answer::QueueInfo;
use crate::call::{GetArguments, ReceiveArguments, SendArguments, SetArguments};
use crate::caller::Caller;
use crate::message::{Message, Messages};
use crate::permissions::Permissions;
use numbers::faults::NoMemory;
use numbers::limits::{DEFAULT_QBYTES, END_OF_SERIALS, MAX_BODY, MAX_MESSAGES, MAX_QBYTES, MODES};
use std::alloc::Global;

/// A queue. Its `qnum` is the number of its messages, its `cbytes` the bytes that
/// they have together.
#[derive(Drop)]
pub struct Queue {
    /// Its id, never given to another queue.
    pub id: u32,
    /// Its key, or none where it is private.
    pub key: Option<u32>,
    /// Its owner, creator and mode.
    pub permissions: Permissions,
    /// As many bytes may its messages have together.
    pub qbytes: u32,
    /// The process of the last send, 0 before the first.
    pub lspid: u32,
    /// The process of the last receive, 0 before the first.
    pub lrpid: u32,
    /// The moment of the last send, 0 before the first.
    pub stime: u64,
    /// The moment of the last receive, 0 before the first.
    pub rtime: u64,
    /// The moment at which it was made or last set.
    pub ctime: u64,
    /// The serial of the next message.
    pub next_serial: u64,
    /// Its messages in order of acceptance.
    pub messages: Messages,
}

impl Queue {
    /// A new queue of this caller.
    pub fn new(alloc: Global, id: u32, caller: Caller, arguments: &GetArguments) -> Queue
        ensures { result ≡ new_queue id caller arguments.now }
    {
        Queue {
            id,
            key: arguments.key,
            permissions: Permissions::of_creator(caller, arguments.mode),
            qbytes: DEFAULT_QBYTES,
            lspid: 0,
            lrpid: 0,
            stime: 0,
            rtime: 0,
            ctime: arguments.moment,
            next_serial: 1,
            messages: Messages::new(alloc),
        }
    }

    /// Whether a message of this length has no room now.
    pub fn lacks_room(&self, length: usize) -> bool
        requires lawful { IsLawfulQueue self.now }
        requires short { length ≤ MAX_BODY }
        ensures { result ≡ lacks_room length self.now }
    {
        self.messages.total_bytes() + length > self.qbytes as usize
            || self.messages.len() == MAX_MESSAGES as usize
            || self.next_serial == END_OF_SERIALS
    }

    /// What Stat tells.
    pub fn info(&self) -> QueueInfo
        requires { IsLawfulQueue self.now }
        ensures { result ≡ info_of self.now }
    {
        QueueInfo {
            id: self.id,
            key: self.key,
            qnum: self.messages.len() as u32,
            cbytes: self.messages.total_bytes() as u32,
            qbytes: self.qbytes,
            lspid: self.lspid,
            lrpid: self.lrpid,
            stime: self.stime,
            rtime: self.rtime,
            ctime: self.ctime,
            permissions: self.permissions,
        }
    }

    /// Whether it can be one of a system.
    pub fn is_lawful(&self) -> bool
        ensures { IsTrue result ↔ IsLawfulQueue self.now }
    {
        if self.messages.len() > MAX_MESSAGES as usize {
            return false;
        }
        if !self.messages.are_lawful(self.next_serial) {
            return false;
        }
        if self.messages.total_bytes() > MAX_QBYTES as usize {
            return false;
        }
        self.has_limits()
    }

    /// Whether its numbers keep their limits.
    fn has_limits(&self) -> bool
        ensures { IsTrue result ↔ HasLimits self.now }
    {
        self.qbytes <= MAX_QBYTES && self.permissions.mode < MODES && 1 <= self.next_serial
    }

    /// Puts the message last, where there is memory for it.
    pub fn accept(&mut self, pid: u32, arguments: &SendArguments) -> Result<u64, NoMemory>
        requires lawful { IsLawfulQueue self.old }
        requires typed { pos 1 ≤ℤ arguments.now.mtype }
        requires short { length arguments.now.body ≤ MAX_BODY }
        requires room { lacks_room (length arguments.now.body) self.old ≡ false }
        ensures lawful { IsLawfulQueue self.new }
        ensures ok { OnOk result (self.new ≡ with_message pid arguments.now self.old) }
        ensures serial { IfOk result (λ serial. serial ≡ self.old.next_serial) }
        ensures err { OnErr result (self.new ≡ self.old) }
    {
        let message = Message {
            serial: self.next_serial,
            sender: pid,
            mtype: arguments.mtype,
            bytes: arguments.body.try_copy()?,
        };
        self.messages.push(message)?;
        let serial = self.next_serial;
        self.lspid = pid;
        self.stime = arguments.moment;
        self.next_serial += 1;
        Ok(serial)
    }

    /// Takes the selected message, which stands at this place, and cuts it to the size
    /// that is asked for.
    pub fn give(&mut self, pid: u32, place: usize, arguments: &ReceiveArguments) -> Message
        requires lawful { IsLawfulQueue self.old }
        requires selected { IsSelectedAt arguments.now.mtype self.old.messages place }
        ensures lawful { IsLawfulQueue self.new }
        ensures gone { self.new ≡ without_message pid arguments.now self.old }
        ensures given { result ≡ cut_at arguments.now.size
            (slice_index_or self.old.messages place result) }
    {
        let mut message = self.messages.remove(place);
        message.bytes.cut(arguments.size as usize);
        self.lrpid = pid;
        self.rtime = arguments.moment;
        message
    }

    /// Changes `qbytes`, owner and mode.
    pub fn set(&mut self, arguments: &SetArguments)
        requires lawful { IsLawfulQueue self.old }
        requires small { arguments.now.qbytes ≤ MAX_QBYTES }
        ensures lawful { IsLawfulQueue self.new }
        ensures after { self.new ≡ with_settings arguments.now self.old }
    {
        self.permissions.change(arguments);
        self.qbytes = arguments.qbytes;
        self.ctime = arguments.moment;
    }

    /// An equal queue, where there is memory for it.
    pub fn try_copy(&self) -> Result<Queue, NoMemory>
        ensures { IfOk result (λ copy. copy ≡ self.now) }
    {
        let messages = self.messages.try_copy()?;
        Ok(Queue { messages, ..*self })
    }
}
