//! Events are played on a kernel, one after the other.

ghost use Rattle.std.specs.Prelude.{◌≡◌, ℕ, IfErr, IfOk, length};
ghost use Rattle.interleavings.specs.Headline.{AnswersRightly};
ghost use Rattle.interleavings.specs.Rooms.{TellsNoRoomRightly};
ghost use Rattle.interleavings.specs.Runs.{AreOfSeats, Happens, IsLinearized, IsOfSeat, IsToldItsPart, Runs};

use crate::event::{Event, Outcome};
use crate::laws::{
    a_refining_kernel_answers_as_plain_lists, a_step_does_what_its_seat_is_told, events_refine,
    steps_refine,
};
use bucket_page::PseudoKey;
use interleaving_core::Kernel;
use page_device::PageDevice;
use queue_model::NoMemory;
use std::alloc::Global;

/// Plays events on a kernel, in their order, and tells what came of each. Memory for the outcomes is
/// taken first; without it nothing is played.
///
/// The answers that a seat is told are its part of what joins the journal, in the journal's order,
/// each once; but for one that it is still owed.
///
/// The journal is a linearization of the calls (Herlihy and Wing 1990): each joins it between its
/// begin and its answer, so a call that began after another was answered stands after it.
///
/// Whatever the order of the events: where the kernel refines a lawful system, as one does that
/// was opened over an honest device, its answers are those of plain lists asked one call at a time;
/// and once no seat has a call the file holds exactly what the lists do. A seat is told that a
/// record has no room only where, at a step of these events, its call found none in the pages of
/// the kernel as they were then; or had found none before them.
pub fn run<D: PageDevice + Drop, K: PseudoKey + Drop>(
    alloc: Global,
    kernel: &mut Kernel<D, K>,
    events: Vec<Event>,
) -> Result<Vec<Outcome>, NoMemory>
    requires { AreOfSeats (length kernel.old.locks) events.items }
    ensures runs { IfOk result (λ outcomes. Runs (K.of_key kernel.old.keys) events.items
        outcomes.items kernel.old kernel.new) }
    ensures headline { IfOk result (λ _. AnswersRightly (K.of_key kernel.old.keys)
        kernel.old kernel.new) }
    ensures told { IfOk result (λ outcomes. (seat : ℕ) →
        IsToldItsPart seat events.items outcomes.items kernel.old kernel.new) }
    ensures linear { IfOk result (λ outcomes. IsLinearized (K.of_key kernel.old.keys)
        events.items outcomes.items kernel.old kernel.new) }
    ensures no_room { IfOk result (λ outcomes. TellsNoRoomRightly (K.of_key kernel.old.keys)
        events.items outcomes.items kernel.old kernel.new) }
    ensures err { IfErr result (λ _. kernel.new ≡ kernel.old) }
{
    events_refine::<K>();
    steps_refine::<K>();
    a_step_does_what_its_seat_is_told::<K>();
    a_refining_kernel_answers_as_plain_lists::<K>();
    let mut outcomes = Vec::with_capacity(alloc, events.len())?;
    for event in events {
        outcomes.push(play(kernel, event)).unwrap();
    }
    Ok(outcomes)
}

/// Plays one event, and tells what came of it.
fn play<D: PageDevice + Drop, K: PseudoKey + Drop>(
    kernel: &mut Kernel<D, K>,
    event: Event,
) -> Outcome
    requires { IsOfSeat (length kernel.old.locks) event }
    ensures { Happens (K.of_key kernel.old.keys) event result kernel.old kernel.new }
{
    match event {
        Event::Begin(seat, call) => match kernel.begin(seat, call) {
            Ok(()) => Outcome::Begun,
            Err((call, fault)) => Outcome::Refused(call, fault),
        },
        Event::Step(seat) => Outcome::Stepped(kernel.step(seat)),
        Event::Drive(seat) => Outcome::Driven(kernel.drive(seat)),
        Event::Stop => {
            kernel.stop();
            Outcome::Stopped
        }
    }
}
