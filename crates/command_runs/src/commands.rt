//! A command of a shell over a file and its journal.

ghost use Rattle.std.specs.Prelude.{◌≡◌, ◌&&◌, IsTrue, OnOk, is_ok, true};
ghost use Rattle.command_runs.specs.Running.{IfUnprinted, IfUnwritten, RunsOn, seen};
ghost use Rattle.command_runs.specs.Commands.{AsksOver, ConcludesAs, told_of};
ghost use Rattle.deferred_sync.specs.Deferred.{IsLent, IsSettled, start_of};

use crate::error::CommandError;
use crate::printing::Printer;
use crate::running::{Ran, run_on};
use deferred_sync::safe_device::{PagePair, SafeDevice};
use deferred_sync::{Beginning, DeferredSync, a_settled_device_is_lent};
use interleavings::interleaving_core::CloseFault;
use queue_commands::Request;
use queue_model::Caller;
use std::alloc::Global;
use std::io::Write;
use std::marker::Brand;

/// Runs a command of a caller on the file of a device, and prints its text, as `run_on` does.
///
/// Cut off at any moment, it leaves what the next opening finds as the file of before, or, where
/// its text was printed, as that of the system which its calls left; once it is done, only as the
/// latter.
pub fn command_over<P: PagePair + Drop, W: Write + Drop>(
    alloc: Global,
    device: SafeDevice<P>,
    caller: Caller,
    request: &Request,
    output: &mut Printer<W>,
) -> Ran<SafeDevice<P>>
    requires settled { IsTrue P.is_honest → IsSettled P.may_leave device }
    ensures honest { IsTrue P.is_honest → RunsOn caller request.now
        device.content result.device.content
        (seen output.old.held output.new.held device.failed result.device.failed) result.came }
    ensures unwritten { IfUnwritten (result.device.content ≡ device.content) result.came }
    ensures untold { IfUnprinted (output.new.refused ≡ true) result.came }
    ensures synced { IsTrue P.is_honest →
        OnOk result.came (IsTrue result.device.is_synced) }
    ensures over { AsksOver P.is_honest P.moment P.left_since P.may_leave
        (P.moment device.pair) (P.left_since device.pair) caller request.now device.content
        (seen output.old.held output.new.held device.failed result.device.failed)
        result.came result.device.pair }
{
    a_settled_device_is_lent(&device);
    command_since::<Brand, P, W>(alloc, device, caller, request, output)
}

/// So since a beginning.
fn command_since<N: Beginning, P: PagePair + Drop, W: Write + Drop>(
    alloc: Global,
    device: SafeDevice<P>,
    caller: Caller,
    request: &Request,
    output: &mut Printer<W>,
) -> Ran<SafeDevice<P>>
    requires lent { IsLent P.is_honest P.moment P.left_since N.start N.left device }
    requires start { N.start ≡ start_of P.moment device }
    ensures honest { IsTrue P.is_honest → RunsOn caller request.now
        device.content result.device.content
        (seen output.old.held output.new.held device.failed result.device.failed) result.came }
    ensures unwritten { IfUnwritten (result.device.content ≡ device.content) result.came }
    ensures untold { IfUnprinted (output.new.refused ≡ true) result.came }
    ensures synced { IsTrue P.is_honest →
        OnOk result.came (IsTrue result.device.is_synced) }
    ensures over { AsksOver P.is_honest P.moment P.left_since P.may_leave N.start.moment N.left
        caller request.now device.content
        (seen output.old.held output.new.held device.failed result.device.failed)
        result.came result.device.pair }
{
    let device = DeferredSync::<P, N>::new(device);
    conclude(run_on(alloc, device, caller, request, output))
}

/// Ends a command whose sync was put off. Where it is done, and asked for its sync, what it wrote
/// is committed; else it is abandoned.
fn conclude<P: PagePair, N: Beginning>(ran: Ran<DeferredSync<P, N>>) -> Ran<SafeDevice<P>>
    ensures { ConcludesAs P.is_honest P.moment P.left_since P.may_leave N.start N.left
        (ran.device.is_due && is_ok ran.came) ran.device.device result.device ran.came result.came }
{
    let Ran { device, came } = ran;
    if !device.is_due() || came.is_err() {
        return Ran {
            device: device.abandon(),
            came,
        };
    }
    let (device, is_done) = device.commit();
    Ran {
        device,
        came: told_of(is_done),
    }
}

/// What a command comes to whose text was printed, where the device is synced, or a transfer has
/// failed.
fn told_of(is_done: bool) -> Result<(), CommandError>
    ensures { result ≡ told_of is_done }
{
    if is_done {
        Ok(())
    } else {
        Err(CommandError::Unclosed(CloseFault::Device))
    }
}
