//! What is done with one line of a seat: it is begun, steps of it are made, and it is replied.

ghost use Rattle.std.specs.Prelude.{◌≡◌, Some, None, length};
ghost use Rattle.interleavings.specs.interleaving_core.Words.{IsSeat};
ghost use Rattle.replays.specs.Events.{BeginsCall, BeginsCommand, BeginsNext, StepsLine, deed_at_once, told};
ghost use Rattle.replays.specs.Places.{place_of};

use crate::deed::{Deed, deed_by, reply_by};
use crate::keys::FileKeys;
use crate::onlooker::{Onlooker, Sight};
use crate::progress::Progress;
use interleavings::interleaving_core::Kernel;
use msgq_cli::{Command, Line, Reply};
use numbers::faults;
use page_device::PageDevice;
use page_locks::LockTable;
use queue_model::Call;

/// The next line of a seat is begun, if one is left. It is replied at once where it is a `stop`, or
/// where its call is refused.
pub(crate) fn begin_next<D: PageDevice + Drop, O: Onlooker>(
    kernel: &mut Kernel<D, FileKeys>,
    script: &mut Progress,
    seat: u8,
    onlooker: &mut O,
) -> Deed
    requires seats { length script.old.places ≡ length kernel.old.locks }
    requires idle { (place_of script.old.places seat).under_way ≡ None }
    ensures { BeginsNext seat (place_of script.old.places seat).next result
        (record { kernel = kernel.old; script = script.old })
        (record { kernel = kernel.new; script = script.new }) }
{
    let Some(place) = script.place(seat).next else {
        return Deed::Nothing;
    };
    script.keeps_order();
    let reply = begin_command(kernel, seat, &script.lines()[place].command);
    let deed = deed_at_once(&reply);
    script.begin(seat, place);
    tell(script, seat, place, reply);
    show(script.lines(), place, deed, kernel.locks(), onlooker);
    deed
}

/// One step of the call that is under way at a seat.
pub(crate) fn step_line<D: PageDevice + Drop, O: Onlooker>(
    kernel: &mut Kernel<D, FileKeys>,
    script: &mut Progress,
    seat: u8,
    place: usize,
    onlooker: &mut O,
) -> Deed
    requires seats { length script.old.places ≡ length kernel.old.locks }
    requires under_way { (place_of script.old.places seat).under_way ≡ Some place }
    ensures { StepsLine seat place result
        (record { kernel = kernel.old; script = script.old })
        (record { kernel = kernel.new; script = script.new }) }
{
    let step = kernel.step(seat);
    let deed = deed_by(&step);
    tell(script, seat, place, reply_by(step));
    show(script.lines(), place, deed, kernel.locks(), onlooker);
    deed
}

/// A line that is under way is replied this, or goes on.
fn tell(script: &mut Progress, seat: u8, place: usize, reply: Option<Reply>)
    requires { (place_of script.old.places seat).under_way ≡ Some place }
    ensures { script.new ≡ told seat place reply script.old }
{
    if let Some(reply) = reply {
        script.reply(seat, place, reply);
    }
}

/// Shows what came of an event at the line at a place, after which the seats hold these locks.
fn show<O: Onlooker>(
    lines: &[Line],
    place: usize,
    deed: Deed,
    locks: &LockTable,
    onlooker: &mut O,
) {
    if let Some(line) = lines.get(place) {
        let sight = Sight::Event {
            seat: line.seat,
            line: line.number,
            deed,
        };
        onlooker.see(sight, locks);
    }
}

/// A command of a seat is begun. It is replied at once, or its call is under way.
fn begin_command<D: PageDevice + Drop>(
    kernel: &mut Kernel<D, FileKeys>,
    seat: u8,
    command: &Command,
) -> Option<Reply>
    requires { IsSeat kernel.old.locks seat }
    ensures { BeginsCommand seat command.now result kernel.old kernel.new }
{
    match command {
        Command::Call(call) => begin_call(kernel, seat, call),
        Command::Stop => {
            kernel.stop();
            Some(Reply::Stopped)
        }
    }
}

/// A call of a seat is begun, or replied the number of what is in the way.
fn begin_call<D: PageDevice + Drop>(
    kernel: &mut Kernel<D, FileKeys>,
    seat: u8,
    call: &Call,
) -> Option<Reply>
    requires { IsSeat kernel.old.locks seat }
    ensures { BeginsCall seat call.now result kernel.old kernel.new }
{
    let Ok(copy) = call.try_copy() else {
        return Some(Reply::Failed(faults::NO_MEMORY));
    };
    match kernel.begin(seat, copy) {
        Ok(()) => None,
        Err((_, fault)) => Some(Reply::Failed(fault.number())),
    }
}

/// What came of a line that was begun and replied this, or not yet.
fn deed_at_once(reply: &Option<Reply>) -> Deed
    ensures { result ≡ deed_at_once reply.now }
{
    match reply {
        Some(_) => Deed::Replied,
        None => Deed::Begun,
    }
}
