//! How a run ends whose sync was put off.

ghost use Rattle.std.specs.Prelude.{◌≡◌};
ghost use Rattle.crash_safe_runs.specs.Concluding.{Concludes, fault_of, is_to_commit, is_well};

use deferred_sync::safe_device::{PagePair, SafeDevice};
use deferred_sync::{Beginning, DeferredSync};
use numbers::faults;
use replays::msgq_cli::{Ending, Output};
use replays::{Ran, tell_end};
use std::io::Write;

/// Ends a run whose sync was put off. Where it asked for its sync, told all and ended well, what it
/// wrote is committed: where a transfer fails then, that is told as one at the closing. Else it is
/// abandoned.
pub fn conclude<P: PagePair, N: Beginning, W: Write + Drop>(
    ran: Ran<DeferredSync<P, N>>,
    output: &mut Output<W>,
) -> Ran<SafeDevice<P>>
    ensures concludes { Concludes P.is_honest P.moment P.left_since P.may_leave
        N.start N.left (is_to_commit ran.device.is_due ran.is_untold ran.ending)
        ran.device.device result.device output.old output.new ran.ending result.ending }
    ensures untold { result.is_untold ≡ ran.is_untold }
{
    let Ran {
        device,
        failure,
        is_untold,
        ending,
    } = ran;
    if !device.is_due() || is_untold || !is_well(ending) {
        return Ran {
            device: device.abandon(),
            failure,
            is_untold,
            ending,
        };
    }
    let (device, is_done) = device.commit();
    let ending = tell_end(fault_of(is_done), ending, output);
    Ran {
        device,
        failure,
        is_untold,
        ending,
    }
}

/// Whether no fault was told but those of lines.
fn is_well(ending: Ending) -> bool
    ensures { result ≡ is_well ending }
{
    matches!(ending, Ending::Done | Ending::Faulty)
}

/// What is told where the device is synced, or a transfer has failed.
fn fault_of(is_done: bool) -> Option<u8>
    ensures { result ≡ fault_of is_done }
{
    if is_done { None } else { Some(faults::DEVICE) }
}
