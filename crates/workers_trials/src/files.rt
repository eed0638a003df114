//! New files, opened for services.

ghost use Rattle.std.specs.Prelude.{◌≤◌};

use crate::plain::{have_same_queues, replayed};
use bucket_page::NumberKey;
use file_check::{Checked, check};
use page_device::{MemDevice, PageDevice};
use queue_model::{Caller, Entry};
use record_file::format;
use std::alloc::Global;
use std::test::Fail;
use workers::Prepared;
use workers::interleavings::interleaving_core::OpenFault;

/// The most seats.
pub const SEATS: usize = 64;

/// Frames enough for all pages of a file here.
pub const FRAMES: usize = 352;

/// Those at the seats: their pids are the numbers of the seats.
fn callers() -> [Caller; SEATS] {
    let mut pid: u32 = 0;
    let mut callers = [Caller {
        pid,
        uid: 0,
        gid: 0,
    }; SEATS];
    for caller in &mut callers {
        pid = pid.wrapping_add(1);
        caller.pid = pid;
    }
    callers
}

/// A new file of so many pages.
pub fn new_file(alloc: Global, pages: u32) -> Result<MemDevice, Fail> {
    let mut device = MemDevice::new(alloc);
    format(&mut device, pages.clamp(258, 352))?;
    Ok(device)
}

/// Whether a device has a right file, that of the queues that a journal leaves.
pub fn is_file_of(alloc: Global, device: MemDevice, journal: &[Entry]) -> bool {
    let Checked { device: _, found } = check(alloc, device, &NumberKey);
    match (found, replayed(alloc, journal)) {
        (Ok(found), Some(system)) => have_same_queues(&found, &system),
        _ => false,
    }
}

/// What is prepared on a device for so many seats, or the device.
pub fn open<D: PageDevice + Drop>(
    alloc: Global,
    device: D,
    seats: u8,
    frames: usize,
) -> Result<Prepared<D, NumberKey>, (D, OpenFault)>
    requires some { 1 ≤ seats }
    requires few { seats ≤ 64 }
{
    let callers = callers();
    Prepared::open(alloc, device, NumberKey, &callers[..seats as usize], frames)
}

/// What is prepared on a new file with frames for all pages.
pub fn prepared(
    alloc: Global,
    pages: u32,
    seats: u8,
) -> Result<Prepared<MemDevice, NumberKey>, Fail>
    requires some { 1 ≤ seats }
    requires few { seats ≤ 64 }
{
    match open(alloc, new_file(alloc, pages)?, seats, FRAMES) {
        Ok(prepared) => Ok(prepared),
        Err((_, fault)) => Err(fault.into()),
    }
}
