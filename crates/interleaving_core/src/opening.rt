//! What a kernel is made of: its seats, and the frames that they need.

ghost use Rattle.std.specs.Prelude.{◌≡◌, ◌+◌, ◌*◌, ◌≤◌, [], IfOk, None, length, replicate, vec_capacity};
ghost use Rattle.interleaving_core.specs.Counting.{opened_counts};
ghost use Rattle.interleaving_core.specs.Kernel.{AreFittingCallers};

use crate::counts::SearchCounts;
use crate::seat::Seat;
use page_locks::{LockTable, MAX_SEATS};
use queue_model::{Caller, Entry, NoMemory};
use std::alloc::Global;
use type_chains::a_callers_numbers_fit;

/// The frames that are needed beside those of the seats' steps.
pub const FRAMES_BESIDE: usize = 8;

/// The frames that are needed for each seat: a step pins so many pages at most.
const FRAMES_A_SEAT: usize = 4;

/// The least frames for so many seats.
pub(crate) fn least_frames(seats: usize) -> usize
    requires { seats ≤ 64 }
    ensures { result ≡ 4 * seats + 8 }
{
    FRAMES_A_SEAT * seats + FRAMES_BESIDE
}

/// What a kernel has beside the pages of its file.
#[derive(Drop)]
pub(crate) struct Seating {
    pub(crate) locks: LockTable,
    pub(crate) callers: Vec<Caller>,
    pub(crate) seats: Vec<Seat>,
    pub(crate) journal: Vec<Entry>,
    pub(crate) searches: SearchCounts,
}

impl Seating {
    /// That of these callers, one a seat, with memory for one entry: nobody has a call or a lock, and
    /// nothing was decided or counted.
    pub(crate) fn new(alloc: Global, callers: &[Caller]) -> Result<Seating, NoMemory>
        requires some { 1 ≤ length callers.now }
        requires few { length callers.now ≤ MAX_SEATS }
        ensures locks { IfOk result (λ s. s.locks ≡ replicate (length callers.now) []) }
        ensures callers { IfOk result (λ s. s.callers.items ≡ callers.now) }
        ensures fitting { IfOk result (λ s. AreFittingCallers s.callers.items) }
        ensures seats { IfOk result (λ s. s.seats.items ≡ replicate (length callers.now) None) }
        ensures journal { IfOk result (λ s. (s.journal.items ≡ []) × (1 ≤ vec_capacity s.journal)) }
        ensures searches { IfOk result (λ s. s.searches ≡ opened_counts (length callers.now)) }
    {
        let seats = callers.len();
        let mut journal = Vec::new(alloc);
        journal.reserve(1)?;
        Ok(Seating {
            locks: LockTable::new(alloc, seats as u8)?,
            callers: copied(alloc, callers)?,
            searches: SearchCounts::new(alloc, seats)?,
            seats: idle_seats(alloc, seats)?,
            journal,
        })
    }
}

/// So many seats without a call.
fn idle_seats(alloc: Global, seats: usize) -> Result<Vec<Seat>, NoMemory>
    ensures { IfOk result (λ all. all.items ≡ replicate seats None) }
{
    let mut all = Vec::with_capacity(alloc, seats)?;
    for _ in 0..seats {
        all.push(Seat::new())?;
    }
    Ok(all)
}

/// A copy of the list of callers, whose numbers fit the fields of records.
fn copied(alloc: Global, callers: &[Caller]) -> Result<Vec<Caller>, NoMemory>
    ensures same { IfOk result (λ copy. copy.items ≡ callers.now) }
    ensures fitting { IfOk result (λ copy. AreFittingCallers copy.items) }
{
    let mut copy = Vec::with_capacity(alloc, callers.len())?;
    for caller in callers {
        a_callers_numbers_fit(caller);
        copy.push(*caller)?;
    }
    Ok(copy)
}
