//! The end of a service, and what is left of it.

use crate::plain::{calls, is_part, replayed};
use crate::playing::Shared;
use page_device::PageDevice;
use queue_model::{Call, Entry};
use std::alloc::Global;
use std::test::Fail;
use workers::interleavings::interleaving_core::CloseFault;
use workers::{Base, Ended, Ending, Gate, GaugePass, Room, Seat, Stopper};

/// What is left of a service. The answers of its journal are those of plain lists, and each seat's
/// list was its part, but for one entry where a step has failed.
#[derive(Drop)]
pub struct Left<D> {
    /// Its device.
    pub device: D,
    /// What was decided.
    pub journal: Vec<Entry>,
    /// Why it was not closed well.
    pub fault: Option<CloseFault>,
}

/// How many calls a pass of no seat is shown, and so the pass of a seat, once all threads have ended.
pub fn shown<D: PageDevice + Drop, G: Gate, N: Room + Base>(
    service: &Shared<D, G, N>,
    seats: &mut [Seat<N>],
    passes: &mut [GaugePass<Entry, Call, N>],
) -> Option<u64> {
    let shown = service.seat_gauge(seats.first_mut()?);
    (service.gauge(passes.first_mut()?) == shown).then_some(shown)
}

/// Ends a service whose threads have ended. Without its seats it comes back first, but where a step
/// has failed. Where it ends in another way than it should, that is as if nothing was shown.
pub fn close<D: PageDevice + Drop, G: Gate + Drop, N: Room + Base>(
    alloc: Global,
    service: Shared<D, G, N>,
    stopper: Stopper<N>,
    seats: Vec<Seat<N>>,
    shown: Option<u64>,
) -> Result<Left<D>, Fail> {
    match service.close(Vec::new(alloc), stopper) {
        Ending::Missing(unclosed, _none, stopper) => {
            finish(alloc, unclosed.reopen(), stopper, seats, shown)
        }
        Ending::Fault(ended, fault) => {
            leave(alloc, with_seats(ended, seats), Some(fault), shown)
        }
        Ending::Closed(ended) => leave(alloc, with_seats(ended, seats), None, None),
    }
}

/// Ends a service all of whose seats are there.
fn finish<D: PageDevice + Drop, G: Gate + Drop, N: Room + Base>(
    alloc: Global,
    service: Shared<D, G, N>,
    stopper: Stopper<N>,
    seats: Vec<Seat<N>>,
    shown: Option<u64>,
) -> Result<Left<D>, Fail> {
    match service.close(seats, stopper) {
        Ending::Closed(ended) => leave(alloc, ended, None, shown),
        Ending::Fault(ended, fault) => leave(alloc, ended, Some(fault), shown),
        Ending::Missing(unclosed, seats, stopper) => {
            leave(alloc, unclosed.reopen().abandon(seats, stopper), None, None)
        }
    }
}

/// What has ended without its seats, and these.
fn with_seats<D: Drop, N: Room + Base>(ended: Ended<D, N>, seats: Vec<Seat<N>>) -> Ended<D, N> {
    let mut ended = ended;
    ended.seats = seats;
    ended
}

/// What is left of a service, whose journal is what its seats and its passes were told, and what
/// plain lists answer.
fn leave<D: Drop, N: Room + Base>(
    alloc: Global,
    ended: Ended<D, N>,
    fault: Option<CloseFault>,
    shown: Option<u64>,
) -> Result<Left<D>, Fail> {
    let Ended {
        device,
        journal,
        seats,
        failure: _,
    } = ended;
    match wrong_with(alloc, journal.as_slice(), seats.as_slice(), fault, shown) {
        None => Ok(Left {
            device,
            journal,
            fault,
        }),
        Some(what) => Err(Fail::from(what)),
    }
}

/// What is wrong with a journal beside its seats, its passes and plain lists, if anything is.
fn wrong_with<N: Room + Base>(
    alloc: Global,
    journal: &[Entry],
    seats: &[Seat<N>],
    fault: Option<CloseFault>,
    shown: Option<u64>,
) -> Option<&'static str> {
    let Some(shown) = shown else {
        return Some("another end, or passes that are shown different numbers");
    };
    if shown != calls(journal) as u64 {
        return Some("passes are shown another number of calls");
    }
    if !have_parts(
        journal,
        seats,
        usize::from(fault == Some(CloseFault::Failed)),
    ) {
        return Some("a seat's list is not its part of the journal");
    }
    if replayed(alloc, journal).is_none() {
        return Some("plain lists answer otherwise");
    }
    None
}

/// Whether each seat's list is its part of the journal, but for so many entries.
fn have_parts<N: Room + Base>(journal: &[Entry], seats: &[Seat<N>], more: usize) -> bool {
    for seat in seats {
        if !is_part(journal, seat.number(), seat.list(), more) {
            return false;
        }
    }
    true
}
