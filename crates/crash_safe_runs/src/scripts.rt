//! A script run line by line over a file and its journal.

ghost use Rattle.std.specs.Prelude.{◌≡◌, IsTrue};
ghost use Rattle.crash_safe_runs.specs.Scripts.{RunsOver, effects_on};
ghost use Rattle.crash_safe_runs.specs.deferred_sync.Deferred.{IsLent, IsSettled, start_of};
ghost use Rattle.session_runs.specs.PlainRuns.{RunsPlainly};
ghost use Rattle.session_runs.specs.Serves.{RunsOn};

use crate::concluding::conclude;
use deferred_sync::safe_device::{PagePair, SafeDevice};
use deferred_sync::{Beginning, DeferredSync, a_settled_device_is_lent};
use replays::Ran;
use replays::msgq_cli::{Output, Script};
use session_runs::run_on;
use std::alloc::Global;
use std::io::Write;
use std::marker::Brand;

/// Runs a script of one seat on the file of a device, line by line, as `session_runs::run_on` does.
///
/// Cut off at any moment, it leaves what the next opening finds as the file of before, or as that
/// of the system which the lines left by their replies, all of which were printed; once it has
/// ended well, only as the latter. Where the output refused a write, or a line has failed, only as
/// the former.
pub fn run_over<P: PagePair + Drop, W: Write + Drop>(
    alloc: Global,
    device: SafeDevice<P>,
    script: &Script,
    output: &mut Output<W>,
) -> Ran<SafeDevice<P>>
    requires settled { IsTrue P.is_honest → IsSettled P.may_leave device }
    ensures served { RunsOn script.now P.is_honest
        (effects_on device result.device output.old output.new result.is_untold) result.ending }
    ensures plain { RunsPlainly script.now P.is_honest
        (effects_on device result.device output.old output.new result.is_untold) result.ending }
    ensures over { RunsOver P.is_honest P.moment P.left_since P.may_leave
        (P.moment device.pair) (P.left_since device.pair) script.now
        (effects_on device result.device output.old output.new result.is_untold)
        result.ending result.device.pair }
{
    a_settled_device_is_lent(&device);
    run_since::<Brand, P, W>(alloc, device, script, output)
}

/// So since a beginning.
fn run_since<N: Beginning, P: PagePair + Drop, W: Write + Drop>(
    alloc: Global,
    device: SafeDevice<P>,
    script: &Script,
    output: &mut Output<W>,
) -> Ran<SafeDevice<P>>
    requires lent { IsLent P.is_honest P.moment P.left_since N.start N.left device }
    requires start { N.start ≡ start_of P.moment device }
    ensures served { RunsOn script.now P.is_honest
        (effects_on device result.device output.old output.new result.is_untold) result.ending }
    ensures plain { RunsPlainly script.now P.is_honest
        (effects_on device result.device output.old output.new result.is_untold) result.ending }
    ensures over { RunsOver P.is_honest P.moment P.left_since P.may_leave N.start.moment N.left
        script.now
        (effects_on device result.device output.old output.new result.is_untold)
        result.ending result.device.pair }
{
    let device = DeferredSync::<P, N>::new(device);
    conclude(run_on(alloc, device, script, output), output)
}
