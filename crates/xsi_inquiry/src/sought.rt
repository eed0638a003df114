//! The queue that a call names, as far as the records that were read tell.

ghost use Rattle.std.specs.Prelude.{◌≡◌, ◌<◌, OnErr, OnOk};
ghost use Rattle.queue_model.specs.State.{State};
ghost use Rattle.xsi_inquiry.specs.Seeking.{IsRefused, Tells, begun, reads_left, refusal, sought_next};
ghost use Rattle.xsi_inquiry.specs.Telling.{AsksGiven, AsksRecord, Gives, IsFiled, IsTold, IsToldGiven};

use crate::expected::queue_in;
use crate::inquiry::NotASystem;
use crate::wanted::Wanted;
use queue_model::Errno;
use type_chains::queue_records::{QueueEntry, Record, queue_key};

/// What is known of the queue of an id.
#[derive(Clone, Copy)]
pub enum Sought {
    /// Its Queue is to be read.
    Unread,
    /// It has no Queue. Whether it ever had one is asked next.
    Absent,
    /// Its Queue.
    Found(QueueEntry),
    /// It has none, and calls on it are refused so: EINVAL for an id never given out,
    /// EIDRM for one removed.
    Refused(Errno),
}

impl Sought {
    /// Nothing is read yet. No queue has the id 0, which takes no reading.
    pub fn new(id: u32) -> Sought
        ensures value { result ≡ begun id }
        ensures tells { (s : State) → Tells id result s }
    {
        match id {
            0 => Sought::Refused(Errno::EINVAL),
            _ => Sought::Unread,
        }
    }

    /// What is asked next, where there is something to ask.
    pub fn wants(&self, id: u32) -> Option<Wanted>
        ensures { result ≡ sought_next id self.now }
    {
        match self {
            Sought::Unread => Some(Wanted::At(queue_key(id))),
            Sought::Absent => Some(Wanted::Given(id)),
            Sought::Found(_) | Sought::Refused(_) => None,
        }
    }

    /// Tells the record at that key, or that there is none.
    pub fn take(&mut self, id: u32, found: Option<Record<'_>>) -> Result<(), NotASystem>
        requires { AsksRecord (sought_next id self.old) }
        ensures told { (s : State) → IsFiled s → Tells id self.old s →
            IsTold s (sought_next id self.old) found.entry →
            Gives result (λ _. Tells id self.new s) }
        ensures fewer { OnOk result (reads_left self.new < reads_left self.old) }
        ensures err { OnErr result (self.new ≡ self.old) }
    {
        match *self {
            Sought::Unread => {
                let Some(entry) = found else {
                    *self = Sought::Absent;
                    return Ok(());
                };
                *self = Sought::Found(queue_in(entry)?);
                Ok(())
            }
            Sought::Absent | Sought::Found(_) | Sought::Refused(_) => Err(NotASystem),
        }
    }

    /// Tells whether the id is below the next id.
    pub fn take_given(&mut self, id: u32, given: bool) -> Result<(), NotASystem>
        ensures told { (s : State) → IsFiled s → Tells id self.old s →
            AsksGiven (sought_next id self.old) →
            IsToldGiven s (sought_next id self.old) given →
            Gives result (λ _. Tells id self.new s) }
        ensures refused { OnOk result (IsRefused self.new) }
        ensures fewer { OnOk result (reads_left self.new < reads_left self.old) }
        ensures err { OnErr result (self.new ≡ self.old) }
    {
        match *self {
            Sought::Absent => {
                *self = Sought::Refused(refusal(given));
                Ok(())
            }
            Sought::Unread | Sought::Found(_) | Sought::Refused(_) => Err(NotASystem),
        }
    }
}

/// How calls on an id without a queue are refused: it was given out once, or never.
fn refusal(given: bool) -> Errno
    ensures { result ≡ refusal given }
{
    if given {
        return Errno::EIDRM;
    }
    Errno::EINVAL
}
