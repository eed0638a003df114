//! What is taken for a script before its lines are made, and the file that they are made on.

ghost use Rattle.std.specs.Prelude.{◌≡◌, ◌≢◌, ◌≤◌, IfErr, IfOk, IsTrue, length};
ghost use Rattle.bucket_page.specs.Pseudokeys.{sha_key};
ghost use Rattle.interleavings.specs.interleaving_core.Beginning.{MayRefuseUnchecked};
ghost use Rattle.interleavings.specs.interleaving_core.Fault.{device_failed};
ghost use Rattle.msgq_cli.specs.Scripts.{greatest_seat};
ghost use Rattle.page_device.specs.Device.{HasRisen};
ghost use Rattle.replays.specs.Replays.{callers_of};
ghost use Rattle.service_runs.specs.Beside.{is_of_one_seat};
ghost use Rattle.service_runs.specs.Desks.{AreFresh, IsPlanOf, IsPreparedFor};

use crate::seat_lines::SeatLines;
use bucket_page::{KeptKeys, ShaKey};
use msgq_cli::Script;
use page_device::PageDevice;
use queue_model::{Caller, NoMemory};
use replays::FileKeys;
use std::alloc::Global;
use workers::Prepared;
use workers::interleavings::interleaving_core::{FRAMES_BESIDE, OpenFault};

/// The frames that are needed for each seat.
const FRAMES_A_SEAT: usize = 4;

/// What is taken for a script before its file is opened.
#[derive(Drop)]
pub struct Plan<'s> {
    /// The script.
    pub script: &'s Script,
    /// The lines of each seat from 1 on.
    pub seats: Vec<SeatLines<'s>>,
    /// How many replies of each seat were printed.
    pub printed: Vec<usize>,
}

impl<'s> Plan<'s> {
    /// That of a script, of which no line was made.
    pub fn new(alloc: Global, script: &'s Script) -> Result<Plan<'s>, NoMemory>
        ensures { IfOk result (IsPlanOf script.now) }
    {
        let many = script.greatest_seat();
        Ok(Plan {
            script,
            seats: seats(alloc, script, many)?,
            printed: vec![in alloc; 0; usize::from(many)]?,
        })
    }
}

/// The lines of so many seats, none of which is made.
fn seats<'s>(alloc: Global, script: &'s Script, many: u8) -> Result<Vec<SeatLines<'s>>, NoMemory>
    ensures { IfOk result (λ seats. AreFresh script.now.lines many seats.items) }
{
    let mut seats = Vec::with_capacity(alloc, usize::from(many))?;
    for place in 0..many {
        seats.push(SeatLines::new(alloc, place + 1, script.lines())?)?;
    }
    Ok(seats)
}

/// Whether all lines of a script are of one seat.
pub fn is_of_one_seat(script: &Script) -> bool
    ensures { result ≡ is_of_one_seat script.now.lines }
{
    let seat = script.greatest_seat();
    script.lines().iter().all(|line| line.seat == seat)
}

/// Opens the file of a device for the seats of a script, as `replays::open_kernel` does: with a
/// frame for each page, so that its device may be spared.
///
/// # Errors
///
/// `NoMemory` where there is none for the seats or the frames, else what is wrong with the file;
/// never `TooFewFrames`.
pub fn prepare<D: PageDevice + Drop>(
    alloc: Global,
    device: D,
    script: &Script,
) -> Result<Prepared<D, FileKeys>, (D, OpenFault)>
    ensures ok { IfOk result (IsPreparedFor script.now (D.content device)
        (D.is_honest device)) }
    ensures refused { IsTrue (D.is_honest device) → IfErr result (λ refusal.
        MayRefuseUnchecked sha_key (D.content device) refusal.1) }
    ensures enough { IfErr result (λ refusal. refusal.1 ≢ OpenFault.TooFewFrames) }
    ensures err { IfErr result (λ refusal. (D.content refusal.0 ≡ D.content device)
        × (D.is_honest refusal.0 ≡ D.is_honest device)) }
    ensures cause { IfOk result (λ p. D.fault_count device ≤ p.faults)
        × IfErr result (λ refusal. refusal.1 ≡ device_failed →
        HasRisen (D.fault_count device) (D.fault_count refusal.0)) }
{
    script.keeps_seats();
    let seats = script.greatest_seat();
    let Ok(callers) = callers(alloc, script, seats) else {
        return Err((device, OpenFault::NoMemory));
    };
    let least = FRAMES_A_SEAT * usize::from(seats) + FRAMES_BESIDE;
    let frames = (device.pages() as usize).max(least);
    let Ok(keys) = KeptKeys::new(alloc, ShaKey) else {
        return Err((device, OpenFault::NoMemory));
    };
    Prepared::open(alloc, device, keys, callers.as_slice(), frames)
}

/// The callers of so many seats.
fn callers(alloc: Global, script: &Script, seats: u8) -> Result<Vec<Caller>, NoMemory>
    ensures { IfOk result (λ made. made.items ≡ callers_of script.now.ids seats) }
{
    let mut made = Vec::with_capacity(alloc, usize::from(seats))?;
    for place in 0..seats {
        made.push(script.caller(place + 1))?;
    }
    Ok(made)
}
