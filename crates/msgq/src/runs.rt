//! Scripts run on the file of a device, a thread a seat.

ghost use Rattle.std.specs.Prelude.{◌≡◌, IsTrue, false};
ghost use Rattle.crash_safe_runs.specs.Scripts.{effects_on};
ghost use Rattle.crash_safe_runs.specs.deferred_sync.Deferred.{IsLent, IsSettled, start_of};
ghost use Rattle.msgq.specs.Runs.{RunsScriptOver, RunsSeatsOver};
ghost use Rattle.msgq.specs.Scripts.{RunsScriptOn};
ghost use Rattle.msgq.specs.Spelled.{RunsScriptSpelled};
ghost use Rattle.service_runs.specs.Beside.{RunsBesideOn, is_of_one_seat};

use crash_safe_runs::deferred_sync::safe_device::{PagePair, SafeDevice};
use crash_safe_runs::deferred_sync::{Beginning, DeferredSync, a_settled_device_is_lent};
use crash_safe_runs::{conclude, session_runs};
use interleaving_core::OpenFault;
use msgq_cli::{Output, Script};
use page_device::PageDevice;
use replays::{Ran, leave_refused};
use service_runs::{Plan, ThreadASeat, is_of_one_seat, prepare, run_prepared};
use std::io::{Eprint, Write};
use std::marker::Brand;
use std::sync::Wait;
use std::thread::Threads;
use std::time::Clock;

/// Runs a script on the file of a device, the lines of each seat in a thread of its own, and closes
/// the file once all answers were handed on.
///
/// The file is checked first: the first thing that is wrong with it is told by its number alone,
/// and fault 60 alone where there is no memory to begin. Each seat makes its lines in their order,
/// beside the other seats; the replies are printed in the order of the script once all have ended.
/// A call that waits does so until another seat's line or a `stop` ends that, so a script whose
/// calls wait for ever is never done. The lines of a seat for which no thread can be started are
/// replied 60.
///
/// What the lines of a seat were answered is its part of one journal, which of an honest device is
/// legal from the system whose file it has, and first in, first out. The file is then that of the
/// system after it. What can't be told did not happen: where the output refused a write nothing was
/// written, and the file is as it was before. So it is where a step has failed, which fault 62
/// after the replies tells; fault 20 stands there where the file can't be closed. It comes only
/// where a transfer failed, and of an honest device so does fault 62.
///
/// A script all of whose lines are of one seat is run as `session_runs::run_on` does, since nobody
/// could end a wait.
pub fn run_on<
    R: Threads + Wait + Clock + Eprint + Sync,
    D: PageDevice + Drop + Send,
    W: Write + Drop,
>(crew: &ThreadASeat<'_, R>, device: D, script: &Script, output: &mut Output<W>) -> Ran<D>
    ensures ran { RunsScriptOn script.now (D.is_honest device)
        (record {
          content = D.content device;
          left = D.content result.device;
          synced = D.is_synced result.device;
          was = D.fault_count device;
          faults = D.fault_count result.device;
          old = output.old;
          new = output.new;
          untold = result.is_untold;
        }) result.ending }
    // the same in words of the rules, of what is printed and of what pages mean in bytes
    ensures spelled { RunsScriptSpelled script.now (D.is_honest device)
        (record {
          content = D.content device;
          left = D.content result.device;
          synced = D.is_synced result.device;
          was = D.fault_count device;
          faults = D.fault_count result.device;
          old = output.old;
          new = output.new;
          untold = result.is_untold;
        }) result.ending }
    ensures same { D.is_honest result.device ≡ D.is_honest device }
{
    let alloc = crew.alloc();
    if is_of_one_seat(script) {
        return session_runs::run_on(alloc, device, script, output);
    }
    let Ok(plan) = Plan::new(alloc, script) else {
        return Ran::unrun(device, leave_refused(OpenFault::NoMemory, output));
    };
    match prepare(alloc, device, script) {
        Ok(prepared) => run_prepared::<Brand, R, D, W>(crew, prepared, plan, output),
        Err((device, fault)) => Ran::unrun(device, leave_refused(fault, output)),
    }
}

/// Runs a script over a file and its journal, as `run_on` does on the file of a device.
///
/// Cut off at any moment, it leaves what the next opening finds as the file of before, or as that
/// of the system after the journal, of which all answers were printed; once it has ended well, only
/// as the latter. Where the output refused a write, or a step has failed, only as the former.
pub fn run_over<
    R: Threads + Wait + Clock + Eprint + Sync,
    P: PagePair + Drop + Send,
    W: Write + Drop,
>(
    crew: &ThreadASeat<'_, R>,
    device: SafeDevice<P>,
    script: &Script,
    output: &mut Output<W>,
) -> Ran<SafeDevice<P>>
    requires settled { IsTrue P.is_honest → IsSettled P.may_leave device }
    ensures ran { RunsScriptOn script.now P.is_honest
        (effects_on device result.device output.old output.new result.is_untold) result.ending }
    ensures over { RunsScriptOver P.is_honest P.moment P.left_since P.may_leave
        (P.moment device.pair) (P.left_since device.pair) script.now
        (effects_on device result.device output.old output.new result.is_untold)
        result.ending result.device.pair }
{
    if is_of_one_seat(script) {
        return crash_safe_runs::run_over(crew.alloc(), device, script, output);
    }
    a_settled_device_is_lent(&device);
    run_since::<Brand, R, P, W>(crew, device, script, output)
}

/// So a script of several seats since a beginning.
fn run_since<
    N: Beginning + Send + Sync,
    R: Threads + Wait + Clock + Eprint + Sync,
    P: PagePair + Drop + Send,
    W: Write + Drop,
>(
    crew: &ThreadASeat<'_, R>,
    device: SafeDevice<P>,
    script: &Script,
    output: &mut Output<W>,
) -> Ran<SafeDevice<P>>
    requires lent { IsLent P.is_honest P.moment P.left_since N.start N.left device }
    requires start { N.start ≡ start_of P.moment device }
    requires several { is_of_one_seat script.now.lines ≡ false }
    ensures ran { RunsBesideOn script.now P.is_honest
        (effects_on device result.device output.old output.new result.is_untold) result.ending }
    ensures over { RunsSeatsOver P.is_honest P.moment P.left_since P.may_leave
        N.start.moment N.left false script.now
        (effects_on device result.device output.old output.new result.is_untold)
        result.ending result.device.pair }
{
    let device = DeferredSync::<P, N>::new(device);
    conclude(run_on(crew, device, script, output), output)
}
