//! Events are played over the file of a device, from its opening to its closing.

ghost use Rattle.std.specs.Prelude.{◌≡◌, ◌↔◌, ◌+◌, ◌*◌, ◌≤◌, ◌<◌, IfErr, IfOk, IsErrAnd, IsTrue, length};
ghost use Rattle.page_device.specs.Device.{HasRisen};
ghost use Rattle.page_locks.specs.declared.lock_table.TheConstants.{MAX_SEATS};
ghost use Rattle.interleaving_core.specs.Beginning.{MayRefuse};
ghost use Rattle.interleaving_core.specs.Fault.{device_failed};
ghost use Rattle.interleavings.specs.Ending.{HasEnded};
ghost use Rattle.interleavings.specs.Playing.{HasPlayed, HasReason, PlaysAsPlainLists};
ghost use Rattle.interleavings.specs.Runs.{AreOfSeats};
ghost use Rattle.files_at_rest.specs.Spelled.{SpellsSystem};
ghost use Rattle.interleavings.specs.Words.{IsFileOf};

use crate::event::{Event, Outcome};
use crate::laws::{
    a_refining_kernel_answers_as_plain_lists, a_refining_kernel_closes_on_its_file,
    a_step_does_what_its_seat_is_told, an_opened_kernel_refines, drives_end, events_refine,
    steps_refine,
};
use crate::running::run;
use bucket_page::PseudoKey;
use interleaving_core::{CloseFault, Closed, Kernel, NotClosed, OpenFault};
use page_device::PageDevice;
use queue_model::{Caller, Entry};
use std::alloc::Global;

/// What events over the file of a device came to.
#[derive(Drop)]
pub struct Played<D> {
    /// The device.
    pub device: D,
    /// What came of the events, one outcome each.
    pub outcomes: Vec<Outcome>,
    /// What was decided, in its order.
    pub journal: Vec<Entry>,
    /// Why the file was not closed well, if it was not: then what was changed may be lost.
    pub fault: Option<EndFault>,
}

/// Why a file was not closed well after the last event.
#[derive(Clone, Copy)]
pub enum EndFault {
    /// A seat has a call under way.
    Busy,
    /// A step has failed, or the pages could not be written.
    Close(CloseFault),
}

/// Opens the file of a device for callers, one a seat, with so many frames for its pages; plays
/// events, in their order; and closes it.
///
/// Whatever the order of the events, and so of the seats' steps, splits and merges of the file
/// included: over a device that gives back what was written the journal is legal from the one
/// system whose file the device had; that is, the answers are those of plain lists asked one call
/// at a time. Each seat is told its own, in the journal's order, each once; and the journal is a
/// linearization of the calls (Herlihy and Wing 1990). Where each call has ended, and no transfer
/// failed, the device is left with the file of the system after the journal, of as many pages: it
/// holds the messages that nobody took, and no others.
///
/// A seat is told that a record has no room only where its call has something to insert; and where no
/// other seat is in its way then, only where the records of the system, with what it inserts, are more
/// bytes than a bucket holds.
///
/// Once a step has failed no call begins, and each that is under way is told of that, and of nothing
/// else.
///
/// # Errors
///
/// `TooFewFrames` where there are fewer than 4 a seat and 8; else the first thing that is wrong with
/// the file; and where nothing is, `NoMemory` where there is none for the seats, the frames or the
/// outcomes. The device comes back, and nothing was written.
pub fn play_on<D: PageDevice + Drop, K: PseudoKey + Drop>(
    alloc: Global,
    device: D,
    keys: K,
    callers: &[Caller],
    frames: usize,
    events: Vec<Event>,
) -> Result<Played<D>, (D, OpenFault)>
    requires some { 1 ≤ length callers.now }
    requires few { length callers.now ≤ MAX_SEATS }
    requires seats { AreOfSeats (length callers.now) events.items }
    ensures headline { IsTrue (D.is_honest device) → IfOk result (λ played.
        PlaysAsPlainLists SpellsSystem callers.now events.items (D.content device)
        (D.content played.device) (D.is_synced played.device) played) }
    ensures played { IfOk result (λ played. HasPlayed events.items played) }
    // the same of files that `check` says yes to, and what it says of others
    ensures checked { IsTrue (D.is_honest device) → IfOk result (λ played.
        PlaysAsPlainLists (IsFileOf (K.of_key keys)) callers.now events.items (D.content device)
        (D.content played.device) (D.is_synced played.device) played)
        × IfErr result (λ refusal. MayRefuse (K.of_key keys) (D.content device) refusal.1) }
    ensures few { IsErrAnd result (λ refusal. refusal.1 ≡ OpenFault.TooFewFrames) ↔
        (frames < 4 * length callers.now + 8) }
    ensures same { IfOk result (λ played. D.is_honest played.device ≡ D.is_honest device)
        × IfErr result (λ refusal. (D.content refusal.0 ≡ D.content device)
        × (D.is_honest refusal.0 ≡ D.is_honest device)) }
    ensures cause { IfOk result (λ played. HasReason (D.is_honest device)
        (D.fault_count device) (D.fault_count played.device) played)
        × IfErr result (λ refusal. refusal.1 ≡ device_failed →
        HasRisen (D.fault_count device) (D.fault_count refusal.0)) }
{
    an_opened_kernel_refines::<K>();
    events_refine::<K>();
    steps_refine::<K>();
    drives_end::<K>();
    a_step_does_what_its_seat_is_told::<K>();
    a_refining_kernel_answers_as_plain_lists::<K>();
    a_refining_kernel_closes_on_its_file::<K>();
    let mut kernel = Kernel::open(alloc, device, keys, callers, frames)?;
    let Ok(outcomes) = run(alloc, &mut kernel, events) else {
        return Err((kernel.abandon().device, OpenFault::NoMemory));
    };
    let (closed, fault) = end(kernel);
    Ok(Played {
        device: closed.device,
        outcomes,
        journal: closed.journal,
        fault,
    })
}

/// Closes a kernel, or gives it up where a seat has a call under way.
fn end<D: PageDevice + Drop, K: PseudoKey + Drop>(
    kernel: Kernel<D, K>,
) -> (Closed<D>, Option<EndFault>)
    ensures { HasEnded kernel result.1 result.0.journal.items (D.content result.0.device)
        (D.is_honest result.0.device) (D.is_synced result.0.device)
        (D.fault_count result.0.device) }
{
    match kernel.close() {
        Ok(closed) => (closed, None),
        Err(NotClosed::Busy(kernel)) => (kernel.abandon(), Some(EndFault::Busy)),
        Err(NotClosed::Fault(closed, fault)) => (closed, Some(EndFault::Close(fault))),
    }
}
