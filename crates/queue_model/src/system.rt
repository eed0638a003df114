//! The system of queues, and its calls.

ghost use Rattle.std.specs.Prelude.{◌≡◌, ◌≤◌, ◌<◌, ◌^◌, ℕ, [], length, map, position, slice_get, slice_index_or, Some, None, true, false, IfOk, IfErr, IfSome, IfNone, option_map};
ghost use Rattle.std.specs.List.{sum_by, find};
ghost use Rattle.queue_model.specs.Applied.{Meets, applied_of};
ghost use Rattle.queue_model.specs.Lawful.{IsLawful};
ghost use Rattle.queue_model.specs.Found.{IsFoundAt};
ghost use Rattle.queue_model.specs.Places.{IsPlaceOf, IsNoId, IsFreshKey};
ghost use Rattle.queue_model.specs.Rules.{outcome, outcome_of_get, outcome_of_send, outcome_of_receive, outcome_of_stat, outcome_of_set, outcome_of_remove, create, put_off, has_id, has_key, info_of, messages_of};

use crate::answer::{Answer, QueueInfo};
use crate::call::{Call, GetArguments, ReceiveArguments, SendArguments, SetArguments};
use crate::caller::Caller;
use crate::errno::Errno;
use crate::lawful::are_lawful;
use crate::permissions::Access;
use crate::queue::Queue;
use numbers::faults::NoMemory;
use numbers::limits::{END_OF_IDS, MAX_BODY, MAX_QBYTES, MAX_QUEUES, SUPERUSER};
use std::alloc::Global;
use std::marker::Model;

/// What became of a call.
#[derive(Drop)]
pub enum Applied {
    /// It is answered.
    Answer(Answer),
    /// It has to wait, and nothing changed.
    Waits,
    /// A queue or a message would be new, its growth was refused, and nothing changed.
    NoMemory,
}

/// The queues that are alive in ascending order of id, the next id, and whether the
/// system was stopped. Every system is lawful: it keeps the limits, and its ids, keys and
/// serials are told apart.
#[derive(Drop)]
pub struct System {
    queues: Vec<Queue>,
    next_id: u32,
    stopped: bool,
}

impl Model for System {
    ghost use Rattle.queue_model.specs.State.{State};
    ghost use Rattle.queue_model.specs.Lawful.{IsLawful};

    ghost Value = { State };

    ghost view = { λ s.
        record { queues = s.queues.items; next_id = s.next_id; stopped = s.stopped } };

    ghost invariant = { λ s.
        IsLawful (record { queues = s.queues.items; next_id = s.next_id; stopped = s.stopped }) };
}

impl System {
    /// The system with no queue, whose next id is 1 and which is not stopped.
    pub fn empty(alloc: Global) -> System
        ensures { result ≡ record { queues = []; next_id = 1; stopped = false } }
    {
        System {
            queues: Vec::new(alloc),
            next_id: 1,
            stopped: false,
        }
    }

    /// The system of these queues and this next id, which is not stopped; none exactly where
    /// it would be unlawful.
    pub fn of_queues(queues: Vec<Queue>, next_id: u32) -> Option<System>
        ensures some { IfSome result (λ system.
            system ≡ record { queues = queues.items; next_id = next_id; stopped = false }) }
        ensures none { IfNone result
            (IsLawful (record { queues = queues.items; next_id = next_id; stopped = false }) → ⊥) }
    {
        if !are_lawful(queues.as_slice(), next_id) {
            return None;
        }
        Some(System {
            queues,
            next_id,
            stopped: false,
        })
    }

    /// The queue at a place, from 0 on in ascending order of id.
    pub fn queue(&self, place: usize) -> &Queue
        requires { place < length self.now.queues }
        ensures { result.now ≡ slice_index_or self.now.queues place result.now }
    {
        &self.queues[place]
    }

    /// The number of queues alive.
    pub fn queues(&self) -> usize
        ensures { result ≡ length self.now.queues }
    {
        self.queues.len()
    }

    /// The number of messages on all queues together.
    pub fn messages(&self) -> usize
        ensures { result ≡ sum_by messages_of self.now.queues }
    {
        messages_on(self.queues.as_slice())
    }

    /// What Stat tells of the queue at a place, from 0 on in ascending order of id.
    pub fn info(&self, place: usize) -> Option<QueueInfo>
        ensures { result ≡ option_map info_of (slice_get self.now.queues place) }
    {
        let queue = self.queues.get(place)?;
        Some(queue.info())
    }

    /// The id of the next queue.
    pub fn next_id(&self) -> u32
        ensures { result ≡ self.now.next_id }
    {
        self.next_id
    }

    /// Every system is lawful.
    pub fn keeps_limits(&self)
        ensures { IsLawful self.now }
    {
        let _ = &self.queues;
    }

    /// Makes a call of this caller by the rules (docs/QUEUES.md, "Calls"): the answer and the new
    /// system are its outcome, and it waits exactly where it has none. Memory is wanting only to a
    /// call whose outcome is a new queue or a message more.
    pub fn apply(&mut self, caller: Caller, call: &Call) -> Applied
        ensures { Meets result (outcome caller call.now self.old) self.old self.new }
    {
        let became = match call {
            Call::Get(arguments) => self.get(caller, arguments),
            Call::Send(arguments) => self.send(caller, arguments),
            Call::Receive(arguments) => self.receive(caller, arguments),
            Call::Stat { id } => self.stat(caller, *id),
            Call::Set(arguments) => self.set(caller, arguments),
            Call::Remove { id } => self.remove(caller, *id),
        };
        match became {
            Ok(applied) => applied,
            Err(errno) => Applied::Answer(Answer::Refused(errno)),
        }
    }

    /// From here on a call that would wait is answered EINTR.
    pub fn stop(&mut self)
        ensures { self.new ≡ record self.old { stopped = true } }
    {
        self.stopped = true;
    }

    /// An equal system, where there is memory for it.
    pub fn try_copy(&self) -> Result<System, NoMemory>
        ensures { IfOk result (λ copy. copy ≡ self.now) }
    {
        let alloc: Global = *self.queues.allocator();
        let mut queues = Vec::with_capacity(alloc, self.queues.len())?;
        for queue in &self.queues {
            queues.push(queue.try_copy()?)?;
        }
        Ok(System {
            queues,
            next_id: self.next_id,
            stopped: self.stopped,
        })
    }

    fn get(&mut self, caller: Caller, arguments: &GetArguments) -> Result<Applied, Errno>
        ensures { Meets (applied_of result)
            (outcome_of_get caller arguments.now self.old) self.old self.new }
    {
        let Some(key) = arguments.key else {
            return self.create(caller, arguments);
        };
        let Some(place) = self.place_of_key(key) else {
            if !arguments.create {
                return Err(Errno::ENOENT);
            }
            return self.create(caller, arguments);
        };
        if arguments.create && arguments.excl {
            return Err(Errno::EEXIST);
        }
        Ok(Applied::Answer(Answer::Id(self.queues[place].id)))
    }

    fn create(&mut self, caller: Caller, arguments: &GetArguments) -> Result<Applied, Errno>
        requires { IsFreshKey arguments.now.key self.old }
        ensures { Meets (applied_of result)
            (create caller arguments.now self.old) self.old self.new }
    {
        if self.queues() == MAX_QUEUES as usize || self.next_id == END_OF_IDS {
            return Err(Errno::ENOSPC);
        }
        let alloc: Global = *self.queues.allocator();
        let id = self.next_id;
        let Ok(()) = self.queues.push(Queue::new(alloc, id, caller, arguments)) else {
            return Ok(Applied::NoMemory);
        };
        self.next_id += 1;
        Ok(Applied::Answer(Answer::Id(id)))
    }

    fn send(&mut self, caller: Caller, arguments: &SendArguments) -> Result<Applied, Errno>
        ensures { Meets (applied_of result)
            (outcome_of_send caller arguments.now self.old) self.old self.new }
    {
        if arguments.mtype < 1 || arguments.body.len() > MAX_BODY {
            return Err(Errno::EINVAL);
        }
        let place = self.place_of(arguments.id)?;
        if self.queues[place]
            .permissions
            .keeps_out(Access::Write, caller)
        {
            return Err(Errno::EACCES);
        }
        if self.queues[place].lacks_room(arguments.body.len()) {
            return self.put_off(arguments.nowait, Errno::EAGAIN);
        }
        let Ok(serial) = self.queues[place].accept(caller.pid, arguments) else {
            return Ok(Applied::NoMemory);
        };
        Ok(Applied::Answer(Answer::Sent(serial)))
    }

    fn receive(&mut self, caller: Caller, arguments: &ReceiveArguments) -> Result<Applied, Errno>
        ensures { Meets (applied_of result)
            (outcome_of_receive caller arguments.now self.old) self.old self.new }
    {
        let place = self.place_of(arguments.id)?;
        if self.queues[place]
            .permissions
            .keeps_out(Access::Read, caller)
        {
            return Err(Errno::EACCES);
        }
        let Some(first) = self.queues[place].messages.selected(arguments.mtype) else {
            return self.put_off(arguments.nowait, Errno::ENOMSG);
        };
        if self.queues[place]
            .messages
            .get(first)
            .is_too_long(arguments)
        {
            return Err(Errno::E2BIG);
        }
        let message = self.queues[place].give(caller.pid, first, arguments);
        Ok(Applied::Answer(Answer::Received(message)))
    }

    fn stat(&self, caller: Caller, id: u32) -> Result<Applied, Errno>
        ensures { Meets (applied_of result) (outcome_of_stat caller id self.now) self.now self.now }
    {
        let place = self.place_of(id)?;
        if self.queues[place]
            .permissions
            .keeps_out(Access::Read, caller)
        {
            return Err(Errno::EACCES);
        }
        Ok(Applied::Answer(Answer::Info(self.queues[place].info())))
    }

    fn set(&mut self, caller: Caller, arguments: &SetArguments) -> Result<Applied, Errno>
        ensures { Meets (applied_of result)
            (outcome_of_set caller arguments.now self.old) self.old self.new }
    {
        if arguments.qbytes > MAX_QBYTES {
            return Err(Errno::EINVAL);
        }
        let place = self.place_of(arguments.id)?;
        if !self.queues[place].permissions.is_owned_by(caller) {
            return Err(Errno::EPERM);
        }
        if arguments.qbytes > self.queues[place].qbytes && caller.uid != SUPERUSER {
            return Err(Errno::EPERM);
        }
        self.queues[place].set(arguments);
        Ok(Applied::Answer(Answer::Done))
    }

    fn remove(&mut self, caller: Caller, id: u32) -> Result<Applied, Errno>
        ensures { Meets (applied_of result)
            (outcome_of_remove caller id self.old) self.old self.new }
    {
        let place = self.place_of(id)?;
        if !self.queues[place].permissions.is_owned_by(caller) {
            return Err(Errno::EPERM);
        }
        let _removed = self.queues.remove(place);
        Ok(Applied::Answer(Answer::Done))
    }

    /// The place of the queue of an id, or why there is none.
    fn place_of(&self, id: u32) -> Result<usize, Errno>
        ensures found { IfOk result (IsPlaceOf id self.now) }
        ensures refused { IfErr result (IsNoId id self.now) }
    {
        if id == 0 || id >= self.next_id {
            return Err(Errno::EINVAL);
        }
        first_with_id(self.queues.as_slice(), id).ok_or(Errno::EIDRM)
    }

    /// The place of the queue of a key.
    fn place_of_key(&self, key: u32) -> Option<usize>
        ensures value { IfSome result (IsFoundAt (has_key key) self.now.queues) }
        ensures none { IfNone result (find (has_key key) self.now.queues ≡ None) }
    {
        first_with_key(self.queues.as_slice(), key)
    }

    /// What a call is answered that can't be done now.
    fn put_off(&self, nowait: bool, errno: Errno) -> Result<Applied, Errno>
        ensures { Meets (applied_of result) (put_off nowait errno self.now) self.now self.now }
    {
        if nowait {
            Err(errno)
        } else if self.stopped {
            Err(Errno::EINTR)
        } else {
            Ok(Applied::Waits)
        }
    }
}

/// The place of the first queue with an id.
fn first_with_id(queues: &[Queue], id: u32) -> Option<usize>
    ensures { result ≡ position (has_id id) queues.now }
{
    queues.iter().position(|queue| queue.id == id)
}

/// The place of the first queue with a key.
pub(crate) fn first_with_key(queues: &[Queue], key: u32) -> Option<usize>
    ensures { result ≡ position (has_key key) queues.now }
{
    queues.iter().position(|queue| queue.key == Some(key))
}

/// The number of messages on all queues together.
fn messages_on(queues: &[Queue]) -> usize
    requires { sum_by messages_of queues.now < 2 ^ 64 }
    ensures { result ≡ sum_by messages_of queues.now }
{
    queues.iter().map(|queue| queue.messages.len()).sum()
}
