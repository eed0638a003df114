//! A kernel is opened for the seats of a script.

ghost use Rattle.std.specs.Prelude.{◌≡◌, ◌≢◌, ◌≤◌, IfErr, IfOk, IsTrue, length};
ghost use Rattle.bucket_page.specs.Pseudokeys.{sha_key};
ghost use Rattle.interleavings.specs.interleaving_core.Beginning.{HasSystem, MayRefuseUnchecked};
ghost use Rattle.interleavings.specs.interleaving_core.Fault.{device_failed, open_number_of};
ghost use Rattle.msgq_cli.specs.Refusals.{IsFaultAlone};
ghost use Rattle.msgq_cli.specs.Scripts.{greatest_seat};
ghost use Rattle.page_device.specs.Device.{HasRisen};
ghost use Rattle.page_locks.specs.declared.lock_table.TheConstants.{MAX_SEATS};
ghost use Rattle.replays.specs.Replays.{IsOpenedFor, IsOpenedForSeats, callers_of};

use crate::keys::FileKeys;
use crate::progress::Progress;
use crate::replay::Replay;
use bucket_page::{KeptKeys, ShaKey};
use interleavings::an_opened_kernel_refines;
use interleavings::interleaving_core::{FRAMES_BESIDE, Kernel, OpenFault};
use msgq_cli::{Ending, Output, Script, Stage, fail, print_fault};
use page_device::PageDevice;
use queue_model::{Caller, NoMemory};
use std::alloc::Global;
use std::io::Write;

/// The frames that are needed for each seat.
const FRAMES_A_SEAT: usize = 4;

/// Opens the file of a device for the seats of a script, of which no line was begun. All memory for
/// the seats and for the replies is taken here. The file is checked first, and refused by the first
/// thing that is wrong with it. Each refusal gives the device back, and nothing was written. The
/// kernel that is opened of an honest device is led from the system whose file it has.
///
/// # Errors
///
/// `NoMemory` where there is none for the seats, the replies or the frames, else what is wrong with
/// the file; never `TooFewFrames`.
pub fn open<'a, D: PageDevice + Drop>(
    alloc: Global,
    device: D,
    script: &'a Script,
) -> Result<Replay<'a, D>, (D, OpenFault)>
    ensures ok { IfOk result (IsOpenedFor script.now (D.content device) (D.is_honest device)) }
    ensures refused { IsTrue (D.is_honest device) → IfErr result (λ refusal.
        MayRefuseUnchecked sha_key (D.content device) refusal.1) }
    ensures enough { IfErr result (λ refusal. refusal.1 ≢ OpenFault.TooFewFrames) }
    ensures err { IfErr result (λ refusal. (D.content refusal.0 ≡ D.content device)
        × (D.is_honest refusal.0 ≡ D.is_honest device)) }
    ensures cause { IfErr result (λ refusal. refusal.1 ≡ device_failed →
        HasRisen (D.fault_count device) (D.fault_count refusal.0)) }
{
    an_opened_kernel_refines::<FileKeys>();
    let seats = seats_of(script);
    let Ok(progress) = Progress::new(alloc, script.lines(), seats) else {
        return Err((device, OpenFault::NoMemory));
    };
    match open_kernel(alloc, device, script) {
        Ok(kernel) => Ok(Replay::new(kernel, progress)),
        Err(refusal) => Err(refusal),
    }
}

/// Opens a kernel on the file of a device for the seats of a script, from seat 1 to the greatest,
/// with as many frames as the file has pages, and no fewer than the seats need. So it writes no page
/// before it is closed. The file is checked first, and refused by the first thing that is wrong with
/// it. Each refusal gives the device back, and nothing was written.
///
/// # Errors
///
/// `NoMemory` where there is none for the seats or the frames, else what is wrong with the file;
/// never `TooFewFrames`.
pub fn open_kernel<D: PageDevice + Drop>(
    alloc: Global,
    device: D,
    script: &Script,
) -> Result<Kernel<D, FileKeys>, (D, OpenFault)>
    ensures ok { IfOk result
        (IsOpenedForSeats script.now (D.content device) (D.is_honest device)) }
    ensures file { IsTrue (D.is_honest device) →
        IfOk result (λ _. HasSystem sha_key (D.content device)) }
    ensures refused { IsTrue (D.is_honest device) → IfErr result (λ refusal.
        MayRefuseUnchecked sha_key (D.content device) refusal.1) }
    ensures enough { IfErr result (λ refusal. refusal.1 ≢ OpenFault.TooFewFrames) }
    ensures err { IfErr result (λ refusal. (D.content refusal.0 ≡ D.content device)
        × (D.is_honest refusal.0 ≡ D.is_honest device)) }
    ensures cause { IfOk result (λ k. D.fault_count device ≤ k.pool.faults)
        × IfErr result (λ refusal. refusal.1 ≡ device_failed →
        HasRisen (D.fault_count device) (D.fault_count refusal.0)) }
{
    let seats = seats_of(script);
    let Ok(callers) = callers(alloc, script, seats) else {
        return Err((device, OpenFault::NoMemory));
    };
    let least = FRAMES_A_SEAT * usize::from(seats) + FRAMES_BESIDE;
    let frames = (device.pages() as usize).max(least);
    let Ok(keys) = KeptKeys::new(alloc, ShaKey) else {
        return Err((device, OpenFault::NoMemory));
    };
    Kernel::open(alloc, device, keys, callers.as_slice(), frames)
}

/// Ends a run whose file is refused: the number of what is wrong with it is printed alone.
pub fn leave_refused<W: Write + Drop>(fault: OpenFault, output: &mut Output<W>) -> Ending
    ensures { IsFaultAlone (open_number_of fault) output.old output.new result }
{
    match fault {
        OpenFault::Wrong(wrong) => {
            print_fault(wrong.number(), output);
            Ending::Unopened(wrong)
        }
        OpenFault::NoMemory | OpenFault::TooFewFrames => {
            fail(Stage::Opening, fault.number(), output)
        }
    }
}

/// How many seats a script has.
fn seats_of(script: &Script) -> u8
    ensures value { result ≡ greatest_seat script.now.lines }
    ensures some { 1 ≤ result }
    ensures few { result ≤ MAX_SEATS }
{
    script.keeps_seats();
    script.greatest_seat()
}

/// The callers of so many seats.
fn callers(alloc: Global, script: &Script, seats: u8) -> Result<Vec<Caller>, NoMemory>
    ensures many { IfOk result (λ made. length made.items ≡ seats) }
    ensures ok { IfOk result (λ made. made.items ≡ callers_of script.now.ids seats) }
{
    let mut made = Vec::with_capacity(alloc, usize::from(seats))?;
    for place in 0..seats {
        made.push(script.caller(place + 1))?;
    }
    Ok(made)
}
