//! The lines of all seats are made at a service, from its start to its end.

ghost use Rattle.std.specs.Prelude.{◌≡◌, ◌≤◌, ◌||◌, ℕ, false, length};
ghost use Rattle.std.specs.List.{list_any};
ghost use Rattle.bucket_page.specs.Pseudokeys.{sha_key};
ghost use Rattle.msgq_cli.specs.Scripts.{greatest_seat};
ghost use Rattle.service_runs.specs.Beside.{RunsFrom, counted_from};
ghost use Rattle.service_runs.specs.Desks.{AreMade, AreUntouched, IsPlanOf};
ghost use Rattle.service_runs.specs.Lines.{is_stop};
ghost use Rattle.workers.specs.Opening.{origin_of};

use crate::crew::{ThreadASeat, make_all};
use crate::desk::{Desk, at_desks, seats_of};
use crate::ending::end_service;
use crate::opening::Plan;
use crate::printing::print_all;
use crate::waiter::Shared;
use msgq_cli::{Command, Line, Output};
use page_device::PageDevice;
use queue_model::{Call, Entry};
use replays::{FileKeys, Ran, leave_refused, tell_end};
use std::io::{Eprint, Write};
use std::sync::{Mutex, Wait};
use std::thread::Threads;
use std::time::Clock;
use workers::interleavings::interleaving_core::OpenFault;
use workers::{Base, GaugePass, Open, Prepared, Room, Started, Stopper};

/// Runs a script on a file that was opened for its seats, on a service of this name.
pub fn run_prepared<
    N: Room + Base + Send + Sync,
    R: Threads + Wait + Clock + Eprint + Sync,
    D: PageDevice + Drop + Send,
    W: Write + Drop,
>(
    crew: &ThreadASeat<'_, R>,
    prepared: Prepared<D, FileKeys>,
    plan: Plan<'_>,
    output: &mut Output<W>,
) -> Ran<D>
    requires table { prepared.table ≡ N.table }
    requires origin { origin_of (λ _. sha_key) prepared ≡ N.origin }
    requires frames { length prepared.content ≤ prepared.frames }
    requires many { length prepared.callers ≡ greatest_seat plan.script.now.lines }
    requires plan { IsPlanOf plan.script.now plan }
    ensures ran { (was : ℕ) → was ≤ prepared.faults → RunsFrom plan.entry.script.now
        (counted_from was (origin_of (λ _. sha_key) prepared))
        (record {
          content = prepared.content;
          left = D.content result.device;
          synced = D.is_synced result.device;
          was = was;
          faults = D.fault_count result.device;
          old = output.old;
          new = output.new;
          untold = result.is_untold;
        }) result.ending }
    ensures same { D.is_honest result.device ≡ prepared.honest }
{
    let alloc = crew.alloc();
    let many = plan.seats.len();
    let Ok(desks) = Vec::with_capacity(alloc, many) else {
        return Ran::unrun(
            prepared.abandon(),
            leave_refused(OpenFault::NoMemory, output),
        );
    };
    let Ok(back) = Vec::with_capacity(alloc, many) else {
        return Ran::unrun(
            prepared.abandon(),
            leave_refused(OpenFault::NoMemory, output),
        );
    };
    let started = match prepared.start::<Open, N>(Open) {
        Ok(started) => started,
        Err(device) => return Ran::unrun(device, leave_refused(OpenFault::NoMemory, output)),
    };
    let Started {
        service,
        seats: sitters,
        stopper,
        mut passes,
    } = started;
    let gauge = passes.pop();
    let Plan {
        script,
        seats,
        mut printed,
    } = plan;
    script.keeps_seats();
    let desks = at_desks(sitters, seats, desks);
    let (desks, lent) = make_lines(crew, &service, stopper, gauge, desks, script.lines());
    let (so_far, has_stopped) = print_all(
        script.lines(),
        desks.as_slice(),
        printed.as_mut_slice(),
        output,
    );
    output.flush();
    let is_untold = output.has_refused();
    let stopper = stop_if(crew, &service, lent, has_stopped);
    let (ended, fault) = end_service(service, seats_of(desks, back), stopper, is_untold);
    let ending = tell_end(fault, so_far, output);
    Ran {
        device: ended.device,
        failure: ended.failure,
        is_untold,
        ending,
    }
}

/// Has each desk make its lines, with the stopper where one of the lines is a `stop`. No other line
/// stops the system.
fn make_lines<
    's,
    N: Room + Base + Send + Sync,
    R: Threads + Wait + Clock + Eprint + Sync,
    D: PageDevice + Drop + Send,
>(
    crew: &ThreadASeat<'_, R>,
    service: &Shared<D, N>,
    stopper: Stopper<N>,
    gauge: Option<GaugePass<Entry, Call, N>>,
    desks: Vec<Desk<'s, N>>,
    lines: &[Line],
) -> (Vec<Desk<'s, N>>, Stopper<N>)
    requires fresh { AreUntouched desks.items }
    ensures made { AreMade N.origin desks.entry.items result.0.items }
    ensures none { list_any is_stop lines.now ≡ false → result.1.used ≡ stopper.used }
{
    if !lines.iter().any(is_stop) {
        return (make_all(crew, service, None, gauge, desks), stopper);
    }
    let shared = Mutex::new(stopper);
    let desks = make_all(crew, service, Some(&shared), gauge, desks);
    (desks, shared.into_inner())
}

/// Whether a line is a `stop`.
fn is_stop(line: &Line) -> bool
    ensures { result ≡ is_stop line.now }
{
    matches!(line.command, Command::Stop)
}

/// Where a line was replied that a stop is made the stopper was used: so it is now, whether or not a
/// seat has used it.
fn stop_if<N: Room + Base, R: Wait, D: PageDevice + Drop>(
    crew: &ThreadASeat<'_, R>,
    service: &Shared<D, N>,
    stopper: Stopper<N>,
    has_stopped: bool,
) -> Stopper<N>
    ensures { result.used ≡ (has_stopped || stopper.used) }
{
    let mut stopper = stopper;
    if has_stopped {
        service.stop(crew.rt(), &mut stopper);
    }
    stopper
}
