//! How far a Remove has come with its reading.

ghost use Rattle.std.specs.Prelude.{◌≡◌, ◌<◌, ◌≤◌, IfOk, Ok, Some};
ghost use Rattle.queue_model.specs.State.{State};
ghost use Rattle.queue_records.specs.declared.counter.Counter.{Counter};
ghost use Rattle.queue_records.specs.declared.record.Record.TheVariants as records;
ghost use Rattle.queue_model.specs.declared.caller.Caller.{Caller};
ghost use Rattle.xsi_inquiry.specs.type_chains.Entries.{counter_of};
ghost use Rattle.xsi_inquiry.specs.Seeking.{Tells, asks_of_sought};
ghost use Rattle.xsi_inquiry.specs.Telling.{AsksGiven, AsksRecord, Gives, IsFiled, IsTold, IsToldGiven};
ghost use Rattle.xsi_control.specs.Asking.{FollowsAt, IsOfFirst, IsOfSecond, asked, asks_left, gone};
ghost use Rattle.xsi_control.specs.Knowing.{KnowsAt, KnowsQueue};

use crate::removal::Removal;
use queue_model::{Caller, Errno};
use queue_records::{Counter, QueueEntry, Record};
use xsi_inquiry::type_chains::permissions_in;
use xsi_inquiry::{NotASystem, Sought, counter_in, queue_in};

/// What is known, and with it what is asked next.
#[derive(Clone, Copy)]
pub enum Stage {
    /// The queue is sought.
    Seeking(Sought),
    /// The call is refused.
    Refused(Errno),
    /// The queue was found, and has this key. Its Queue is asked for again once the names are held.
    Keyed(Option<u32>),
    /// The names are held, with the name of this key. This is the Queue, where it is still there:
    /// the Counter is next.
    Counting(Option<u32>, Option<QueueEntry>),
    /// Nothing is: the queue goes.
    Removing(Removal),
}

impl Stage {
    /// Nothing is read yet.
    pub fn begin(id: u32) -> Stage
        ensures knows { (c : Caller) (s : State) → KnowsAt c id result s }
        ensures few { asks_left result ≤ 3 }
    {
        match Sought::new(id) {
            Sought::Refused(errno) => Stage::Refused(errno),
            sought => Stage::Seeking(sought),
        }
    }

    /// Where it goes on by what is known of the queue.
    pub fn of_sought(id: u32, sought: Sought) -> Stage
        ensures knows { (c : Caller) (s : State) → IsFiled s → Tells id sought s →
            KnowsAt c id result s }
        ensures left { asks_left result ≤ asks_of_sought sought }
        ensures first { IsOfFirst result }
    {
        match sought {
            Sought::Unread | Sought::Absent => Stage::Seeking(sought),
            Sought::Found(queue) => Stage::Keyed(queue.key),
            Sought::Refused(errno) => Stage::Refused(errno),
        }
    }

    /// The stage once the record at that key was read, or that there is none.
    pub fn take(
        self,
        caller: Caller,
        id: u32,
        found: Option<Record<'_>>,
    ) -> Result<Stage, NotASystem>
        requires { AsksRecord (asked id self) }
        ensures told { (s : State) → IsFiled s → KnowsAt caller id self s →
            IsTold s (asked id self) found.entry →
            Gives result (λ stage. KnowsAt caller id stage s) }
        ensures fewer { IfOk result (λ stage. asks_left stage < asks_left self) }
        ensures follows { IfOk result (λ stage. FollowsAt self stage) }
    {
        match self {
            Stage::Seeking(mut sought) => {
                sought.take(id, found)?;
                Ok(Stage::of_sought(id, sought))
            }
            Stage::Keyed(key) => {
                let Some(entry) = found else {
                    return Ok(Stage::Counting(key, None));
                };
                Ok(Stage::Counting(key, Some(queue_in(entry)?)))
            }
            Stage::Counting(key, queue) => {
                let counter = counter_found(found)?;
                Stage::of_counter(caller, id, key, queue, counter)
            }
            Stage::Refused(_) | Stage::Removing(_) => Err(NotASystem),
        }
    }

    /// Where it ends once the Counter is read: the queue has gone, or is not the caller's
    /// to remove, or goes.
    fn of_counter(
        caller: Caller,
        id: u32,
        key: Option<u32>,
        queue: Option<QueueEntry>,
        counter: Counter,
    ) -> Result<Stage, NotASystem>
        ensures knows { (s : State) → IsFiled s → KnowsQueue id key queue s →
            counter ≡ counter_of s → Gives result (λ stage. KnowsAt caller id stage s) }
        ensures left { IfOk result (λ stage. asks_left stage ≡ 0) }
        ensures second { IfOk result (λ stage. IsOfSecond key stage) }
    {
        let Some(queue) = queue else {
            return Ok(Stage::Refused(gone(id)));
        };
        if !permissions_in(&queue).is_owned_by(caller) {
            return Ok(Stage::Refused(Errno::EPERM));
        }
        if counter.queues_alive == 0 {
            return Err(NotASystem);
        }
        Ok(Stage::Removing(Removal {
            key,
            first: queue.first,
            counter: Counter {
                next_id: counter.next_id,
                queues_alive: counter.queues_alive - 1,
            },
        }))
    }

    /// The stage once it was told whether the id is below the next id.
    pub fn take_given(self, id: u32, given: bool) -> Result<Stage, NotASystem>
        ensures told { (c : Caller) (s : State) → IsFiled s → KnowsAt c id self s →
            AsksGiven (asked id self) →
            IsToldGiven s (asked id self) given →
            Gives result (λ stage. KnowsAt c id stage s) }
        ensures fewer { IfOk result (λ stage. asks_left stage < asks_left self) }
        ensures follows { IfOk result (λ stage. FollowsAt self stage) }
    {
        match self {
            Stage::Seeking(mut sought) => {
                sought.take_given(id, given)?;
                Ok(Stage::of_sought(id, sought))
            }
            Stage::Refused(_) | Stage::Keyed(_) | Stage::Counting(..) | Stage::Removing(_) => {
                Err(NotASystem)
            }
        }
    }
}

/// How a call on an id is refused whose queue has gone. No queue has the id 0.
fn gone(id: u32) -> Errno
    ensures { result ≡ gone id }
{
    match id {
        0 => Errno::EINVAL,
        _ => Errno::EIDRM,
    }
}

/// The Counter, which always stands.
fn counter_found(found: Option<Record<'_>>) -> Result<Counter, NotASystem>
    ensures ok { IfOk result (λ counter. found.entry ≡ Some (records.Counter counter)) }
    ensures only { (counter : Counter) → found.entry ≡ Some (records.Counter counter) →
        result ≡ Ok counter }
{
    let Some(entry) = found else {
        return Err(NotASystem);
    };
    counter_in(entry)
}
