//! What a step of a seat is to the searches that are counted.

ghost use Rattle.std.specs.Prelude.{◌≡◌};
ghost use Rattle.interleaving_core.specs.Counting.{IsCountedSeat};
ghost use Rattle.interleaving_core.specs.Counting.{Notes};
ghost use Rattle.interleaving_core.specs.Searches.{CountsFrom, begins_search, ends_by, ends_on, goes_on_from};
ghost use Rattle.xsi_calls.specs.Machine.{is_searching};
ghost use Rattle.interleaving_core.specs.Words.{IsSeat, row_of};

use crate::counts::SearchCounts;
use crate::seat::Seat;
use crate::step::Step;
use page_locks::{Lock, LockKind, LockName, LockTable};
use step_rules::Kind;
use xsi_calls::CallMachine;

/// The page on which a seat has its last lock, 0 where that is on no page.
pub(crate) fn last_page(locks: &LockTable, seat: u8) -> u32
    requires { IsSeat locks.now seat }
    ensures { result ≡ ends_on (row_of locks.now seat) }
{
    match locks.last(seat) {
        Some(
            Lock {
                name: LockName::Page(page),
                kind: _,
            },
        ) => page,
        _ => 0,
    }
}

/// A step of a seat is counted, where it has moved. Before it the last lock of the seat was on this
/// page, and it has this call left.
pub(crate) fn note(
    searches: &mut SearchCounts,
    locks: &LockTable,
    seat: u8,
    step: &Step,
    before: u32,
    left: &Seat,
)
    requires seat { IsSeat locks.now seat }
    requires counted { IsCountedSeat searches.old.counts seat }
    ensures { CountsFrom seat step.now before left.now locks.now searches.old searches.new }
{
    if let Step::Moved(kind) = step {
        let ends = matches!(*kind, Kind::Look) && !left.is_searching();
        note_move(searches, locks, seat, *kind, before, ends);
    }
}

/// A move of a seat of this kind is counted, by which a page has answered its search or not. Before
/// it the last lock of the seat was on this page.
#[inline(always)]
pub(crate) fn note_move(
    searches: &mut SearchCounts,
    locks: &LockTable,
    seat: u8,
    kind: Kind,
    before: u32,
    ends: bool,
)
    requires seat { IsSeat locks.now seat }
    requires counted { IsCountedSeat searches.old.counts seat }
    ensures { Notes seat kind (begins_search kind seat locks.now)
        (goes_on_from kind seat before locks.now) ends searches.old searches.new }
{
    let begins = begins_search(kind, locks, seat);
    let goes_on = goes_on_from(kind, locks, seat, before);
    searches.note(seat, kind, begins, goes_on, ends);
}

/// Whether a page has answered the search of a call by its move of this kind.
pub(crate) fn ends_search(kind: Kind, machine: &CallMachine) -> bool
    ensures { result ≡ ends_by kind (is_searching machine.now) }
{
    matches!(kind, Kind::Look) && !machine.is_searching()
}

/// Whether a search of this seat begins by a step of this kind.
fn begins_search(kind: Kind, locks: &LockTable, seat: u8) -> bool
    requires { IsSeat locks.now seat }
    ensures { result ≡ begins_search kind seat locks.now }
{
    match kind {
        Kind::Grant => matches!(
            locks.last(seat),
            Some(Lock {
                name: LockName::Directory,
                kind: LockKind::Read,
            })
        ),
        _ => false,
    }
}

/// Whether a search of this seat has gone on to another page than this one by a step of this kind.
fn goes_on_from(kind: Kind, locks: &LockTable, seat: u8, before: u32) -> bool
    requires { IsSeat locks.now seat }
    ensures { result ≡ goes_on_from kind seat before locks.now }
{
    match kind {
        Kind::Hop => {
            locks.holds(seat, LockName::Directory).is_none() && last_page(locks, seat) != before
        }
        _ => false,
    }
}
