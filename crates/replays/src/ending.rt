//! How a replay ends: its replies are printed, and its kernel is closed.

ghost use Rattle.std.specs.Prelude.{◌≡◌, false, None};
ghost use Rattle.replays.specs.Replays.{EndsWith, IsClosedWell, IsReplayed, MayEndWith, may_write};

use crate::keys::FileKeys;
use crate::onlooker::Onlooker;
use crate::printing::print_replies;
use crate::replay::Replay;
use crate::rounds::finish;
use interleavings::interleaving_core::{Failure, Kernel, NotClosed};
use interleavings::{
    a_refining_kernel_answers_as_plain_lists, a_refining_kernel_closes_on_its_file, events_refine,
};
use msgq_cli::{Ending, Output, Stage, fail};
use numbers::faults;
use page_device::PageDevice;
use schedules::Event;
use std::io::Write;

/// What a replay leaves.
#[derive(Drop)]
pub struct Ran<D> {
    /// The device of its kernel.
    pub device: D,
    /// What failed a line, where one failed by a fault of the file.
    pub failure: Option<Failure>,
    /// The output refused a write before the kernel was closed, so nothing was written.
    pub is_untold: bool,
    /// How it ended.
    pub ending: Ending,
}

impl<D: PageDevice> Ran<D> {
    /// Nothing was played on this device, and it ended so.
    pub fn unrun(device: D, ending: Ending) -> Ran<D>
        ensures device { result.device ≡ device }
        ensures told { result.is_untold ≡ false }
        ensures ending { result.ending ≡ ending }
    {
        Ran {
            device,
            failure: None,
            is_untold: false,
            ending,
        }
    }
}

/// Plays the words of a schedule, and then rounds until no line is left, prints the replies that
/// there are in the order of the script, hands them on to the writer, and only then closes the
/// kernel. A round is one event of each seat in turn. After the first that moves nobody the system
/// is stopped; where one after that moves nobody a line is left that no seat can finish: the kernel
/// is let go, and fault 63 is printed after the replies. It is let go as well where the output
/// refuses a write: what can't be told did not happen.
///
/// Whatever the schedule: where the kernel refines a lawful system, as one does that was opened
/// over an honest device, the answers are those of plain lists asked one call at a time, and seat
/// by seat the lines are replied its part of them. Where the output took all replies, and no fault
/// is told after them, an honest device has the file of the system that the lists come to, and is
/// synced. Where the kernel is let go the device has what its pool knew to be stored, which is what
/// it had before where there is a frame for each page. It is as honest as it was. All this is so
/// whoever looks on.
pub fn run<D: PageDevice + Drop, W: Write + Drop, O: Onlooker>(
    replay: Replay<D>,
    events: &[Event],
    output: &mut Output<W>,
    onlooker: &mut O,
) -> Ran<D>
    ensures replayed { IsReplayed events.now replay.entry output.old output.new
        (D.content result.device) (D.is_synced result.device) result.is_untold result.ending }
    ensures same { D.is_honest result.device ≡ replay.entry.kernel.pool.honest }
{
    events_refine::<FileKeys>();
    a_refining_kernel_answers_as_plain_lists::<FileKeys>();
    a_refining_kernel_closes_on_its_file::<FileKeys>();
    let mut replay = replay;
    replay.play_all(events, onlooker);
    let is_over = finish(&mut replay, onlooker);
    replay.is_sound();
    let (kernel, script) = replay.into_parts();
    script.keeps_order();
    let so_far = print_replies(script.lines(), script.replies(), output);
    output.flush();
    let is_untold = output.has_refused();
    let failure = kernel.failure();
    let (device, fault) = end_kernel(kernel, is_over, is_untold);
    let ending = tell_end(fault, so_far, output);
    Ran {
        device,
        failure,
        is_untold,
        ending,
    }
}

/// Closes a kernel, or lets it go where a line is left or the output refused a write, and tells why
/// it was not closed well, if it was not.
fn end_kernel<D: PageDevice + Drop>(
    kernel: Kernel<D, FileKeys>,
    is_over: bool,
    is_untold: bool,
) -> (D, Option<u8>)
    ensures closes { MayEndWith is_over is_untold kernel result.1 }
    ensures well { is_untold ≡ false → result.1 ≡ None →
        IsClosedWell kernel (D.content result.0) (D.is_synced result.0) }
    ensures unwritten { may_write is_over is_untold kernel ≡ false →
        D.content result.0 ≡ kernel.pool.stored }
    ensures same { D.is_honest result.0 ≡ kernel.pool.honest }
{
    if !is_over {
        return (kernel.abandon().device, Some(faults::BUSY));
    }
    if is_untold {
        let fault = kernel.has_failed().then_some(faults::FAILED);
        return (kernel.abandon().device, fault);
    }
    match kernel.close() {
        Ok(closed) => (closed.device, None),
        Err(NotClosed::Busy(kernel)) => (kernel.abandon().device, Some(faults::BUSY)),
        Err(NotClosed::Fault(closed, fault)) => (closed.device, Some(fault.number())),
    }
}

/// A fault is printed after the replies, or none.
pub fn tell_end<W: Write + Drop>(
    fault: Option<u8>,
    so_far: Ending,
    output: &mut Output<W>,
) -> Ending
    ensures { EndsWith fault output.old so_far output.new result }
{
    match fault {
        Some(fault) => fail(Stage::Closing, fault, output),
        None => so_far,
    }
}
