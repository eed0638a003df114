//! The seats of a kernel, each with its call, if it has one, and what fails them.

ghost use Rattle.std.specs.Prelude.{◌≡◌, ◌↔◌, ◌≤◌, IsTrue, None, map, option_map, sum_by};
ghost use Rattle.std.specs.List.{All, list_any};
ghost use Rattle.interleaving_core.specs.Closing.{has_one};
ghost use Rattle.interleaving_core.specs.Kernel.{due_at};
ghost use Rattle.interleaving_core.specs.Owing.{failure_by, told_of_failure};
ghost use Rattle.interleaving_core.specs.Renewing.{IsIdleOrWaits, outlasting};

use crate::fault::{Failure, StepFault};
use crate::seat::Seat;
use crate::step::Step;
use file_pages::FileFault;
use queue_model::Entry;

/// The entries that are due for the calls of these seats.
pub(crate) fn due(seats: &[Seat]) -> usize
    ensures { result ≡ sum_by due_at seats.now }
{
    let mut due: usize = 0;
    for at in seats {
        due += at.due();
    }
    due
}

/// Whether one of these seats has a call under way.
pub(crate) fn has_call(seats: &[Seat]) -> bool
    ensures { result ≡ list_any has_one seats.now }
{
    seats.iter().any(|at| at.has_call())
}

/// Whether each of these seats has no call, or one of which it was told that it waits.
pub(crate) fn are_idle_or_wait(seats: &[Seat]) -> bool
    ensures { IsTrue result ↔ All IsIdleOrWaits seats.now }
{
    seats.iter().all(|at| at.is_idle_or_waits())
}

/// The journal is taken out beside these seats.
pub(crate) fn outlast(seats: &mut [Seat], journal: &[Entry])
    ensures { seats.new ≡ map (option_map (outlasting journal.now)) seats.old }
{
    for at in seats.iter_mut() {
        at.outlast(journal);
    }
}

/// What a seat is told after a failure.
pub(crate) fn told_of_failure(at: &Seat) -> Step
    ensures { result ≡ told_of_failure at.now }
{
    if at.has_call() {
        Step::Fault(StepFault::File(FileFault::Failed))
    } else {
        Step::Idle
    }
}

/// What failed a step of a seat, where the file has.
pub(crate) fn failure_of(seat: u8, step: &Step) -> Option<Failure>
    ensures { result ≡ failure_by seat step.now None }
{
    match step {
        Step::Fault(StepFault::File(fault)) => Some(Failure {
            seat,
            fault: *fault,
        }),
        _ => None,
    }
}
