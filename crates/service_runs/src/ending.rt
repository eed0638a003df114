//! How the service of a script ends.

ghost use Rattle.std.specs.Prelude.{◌≡◌, length};
ghost use Rattle.service_runs.specs.Beside.{HasEnded};
ghost use Rattle.workers.specs.Closing.{HasMissing, remains_of};

use crate::waiter::Shared;
use numbers::faults;
use page_device::PageDevice;
use workers::{Base, Ended, Ending, Room, Seat, Stopper};

/// Closes a service all of whose seats came back, and who could stop it; or lets it go where the
/// output refused a write; and tells why it was not closed well, if it was not.
pub fn end_service<N: Room + Base, D: PageDevice + Drop>(
    service: Shared<D, N>,
    seats: Vec<Seat<N>>,
    stopper: Stopper<N>,
    is_untold: bool,
) -> (Ended<D, N>, Option<u8>)
    requires all { HasMissing (length N.origin.callers) seats.items → ⊥ }
    ensures { HasEnded N.origin seats.items stopper.used is_untold result.1
        (remains_of D.content D.is_honest D.is_synced D.fault_count result.0) }
{
    if is_untold {
        let ended = service.abandon(seats, stopper);
        let fault = ended.failure.is_some().then_some(faults::FAILED);
        return (ended, fault);
    }
    match service.close(seats, stopper) {
        Ending::Closed(ended) => (ended, None),
        Ending::Fault(ended, fault) => (ended, Some(fault.number())),
        Ending::Missing(_, _, _) => unreachable!(),
    }
}
