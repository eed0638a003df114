//! Who sleeps, and what they sleep on.

ghost use Rattle.std.specs.Prelude.{◌<◌};

use queue_model::Call;
use std::array;
use std::sync::Condvar;

/// How many signals there are for seats, one for each that a kernel may have, and how many for
/// queues, which share them.
const PLACES: u32 = 64;

/// What threads sleep on.
#[derive(Drop)]
pub(crate) struct Signals {
    /// The seat of this place has given a lock back, or a step has failed.
    freed: [Condvar; PLACES as usize],
    /// A call on a queue of this place is over, or a step has failed.
    decided: [Condvar; PLACES as usize],
}

impl Signals {
    pub(crate) fn new() -> Signals {
        Signals {
            freed: array::from_fn(|_| Condvar::new()),
            decided: array::from_fn(|_| Condvar::new()),
        }
    }

    /// What those sleep on that were blocked by this seat.
    pub(crate) fn freed(&self, by: u8) -> &Condvar {
        &self.freed[place_of_seat(by) as usize]
    }

    /// What those sleep on whose calls wait on this queue.
    pub(crate) fn decided(&self, queue: Option<u32>) -> &Condvar {
        &self.decided[place_of_queue(queue) as usize]
    }

    /// Wakes these.
    pub(crate) fn rouse(&self, sleepers: Sleepers) {
        if sleepers.is_nobody() {
            return;
        }
        for place in 0..PLACES {
            if (sleepers.named | sleepers.paged) & bit(place) != 0 {
                self.freed[place as usize].notify_all();
            }
            if sleepers.waiting & bit(place) != 0 {
                self.decided[place as usize].notify_all();
            }
        }
    }
}

/// Some of those that may sleep.
#[derive(Clone, Copy, Drop, PartialEq, Eq)]
pub(crate) struct Sleepers {
    /// A bit for each seat by whose names one was blocked. That sleeps until this seat gives a name
    /// back.
    named: u64,
    /// A bit for each seat by which one was blocked at a page or the directory. That sleeps until
    /// this seat gives any lock back.
    paged: u64,
    /// A bit for each place of queues on which a call waits. Its seat sleeps until a call on its
    /// queue is over.
    waiting: u64,
}

impl Sleepers {
    pub(crate) fn nobody() -> Sleepers {
        Sleepers {
            named: 0,
            paged: 0,
            waiting: 0,
        }
    }

    fn is_nobody(&self) -> bool {
        self.named == 0 && self.paged == 0 && self.waiting == 0
    }

    /// Those that were blocked by names of this seat.
    pub(crate) fn named_by(seat: u8) -> Sleepers {
        Sleepers {
            named: bit(place_of_seat(seat)),
            ..Sleepers::nobody()
        }
    }

    /// Those that were blocked by this seat at a page or the directory.
    pub(crate) fn paged_by(seat: u8) -> Sleepers {
        Sleepers {
            paged: bit(place_of_seat(seat)),
            ..Sleepers::nobody()
        }
    }

    /// Those whose calls wait on this queue.
    pub(crate) fn waiting_on(queue: Option<u32>) -> Sleepers {
        Sleepers {
            waiting: bit(place_of_queue(queue)),
            ..Sleepers::nobody()
        }
    }

    /// All of them.
    pub(crate) fn all() -> Sleepers {
        Sleepers {
            named: u64::MAX,
            paged: u64::MAX,
            waiting: u64::MAX,
        }
    }

    /// These and others.
    pub(crate) fn and(self, others: Sleepers) -> Sleepers {
        Sleepers {
            named: self.named | others.named,
            paged: self.paged | others.paged,
            waiting: self.waiting | others.waiting,
        }
    }

    /// Takes those out that are also among these.
    pub(crate) fn take(&mut self, these: Sleepers) -> Sleepers {
        let taken = Sleepers {
            named: self.named & these.named,
            paged: self.paged & these.paged,
            waiting: self.waiting & these.waiting,
        };
        self.named &= !these.named;
        self.paged &= !these.paged;
        self.waiting &= !these.waiting;
        taken
    }
}

/// The queue on which a call is: the one whose id it carries. A Get carries none. A call that waits
/// is woken by calls on its queue alone, and by a stop.
pub(crate) fn queue_on(call: &Call) -> Option<u32> {
    match call {
        Call::Get(_) => None,
        Call::Send(arguments) => Some(arguments.id),
        Call::Receive(arguments) => Some(arguments.id),
        Call::Stat { id } => Some(*id),
        Call::Set(arguments) => Some(arguments.id),
        Call::Remove { id } => Some(*id),
    }
}

/// The place of a seat. Seats count from 1.
fn place_of_seat(seat: u8) -> u32
    ensures { result < PLACES }
{
    u32::from(seat) % PLACES
}

/// The place of a queue. Ids count from 1, so a Get's place is that of queue 64.
fn place_of_queue(queue: Option<u32>) -> u32
    ensures { result < PLACES }
{
    queue.unwrap_or(0) % PLACES
}

fn bit(place: u32) -> u64
    requires { place < PLACES }
{
    1 << place
}
