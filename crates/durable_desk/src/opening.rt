//! A file is opened: its pages are read into memory, and the calls behind them are made again.

ghost use Rattle.std.specs.Prelude.{◌≡◌, IfErr, IfOk, IsTrue, length};
ghost use Rattle.durable_desk.specs.Opening.{IsRead, IsRemade, MayNotOpenFile, unread};

use crate::remaking::make_again;
use desk::Desk;
use desk::session::{MAX_PAGES, OpenFault};
use file_walk::StructureFault;
use interleaving_core::file_check::CheckFault;
use queue_records::QUEUE;
use record_walk::read_tested;
use safe_device::page_device::{DeviceFault, MemDevice, PAGE_BYTES, Page, PageDevice};
use safe_device::{PagePair, SafeDevice};
use std::alloc::Global;
use thiserror::Error;

/// Why a file is not opened. Nothing was written.
#[derive(Clone, Copy, Debug, PartialEq, Eq, Error)]
pub enum OpenRefusal {
    /// The first thing that is wrong with its pages, a transfer failed, or there is no memory.
    #[error("{0}")]
    File(OpenFault),
    /// The calls in its journal do not lead on from its pages: one of both was exchanged.
    #[error("the calls in its journal are not of this file")]
    Calls,
}

impl From<OpenFault> for OpenRefusal {
    ghost use Rattle.std.specs.Prelude.{◌≡◌};
    ghost use Rattle.durable_desk.specs.declared.opening.OpenRefusal.TheVariants.{File};

    ghost from_gives = { λ fault given. given ≡ File fault };

    fn from(fault: OpenFault) -> OpenRefusal {
        OpenRefusal::File(fault)
    }
}

/// A desk over the pages of a device, on which the calls behind them were made again. Nothing is
/// written, so it is for who only looks, too. So many calls may wait on it at a time. The ids of
/// its queues are put last among those that were seen, and those of queues that were made and
/// removed by the calls.
///
/// # Errors
///
/// The first thing that is wrong with the file, a transfer that failed, or no memory; `Calls` where
/// a call behind the pages is answered otherwise than it was.
pub fn remade<P: PagePair>(
    alloc: Global,
    device: &mut SafeDevice<P>,
    most: usize,
    seen: &mut Vec<u32>,
) -> Result<Desk, OpenRefusal>
    ensures made { IfOk result (IsRemade P.is_honest device.old most) }
    ensures same { IsRead device.old device.new }
    ensures refused { IfErr result (MayNotOpenFile P.is_honest device.old) }
{
    if device.pages() > MAX_PAGES {
        return Err(OpenRefusal::File(OpenFault::Wrong(CheckFault::Structure(
            StructureFault::BadHeader,
        ))));
    }
    let file = match read_all(alloc, device, seen) {
        Ok(file) => file,
        Err(fault) => return Err(OpenRefusal::File(unread(fault))),
    };
    let mut desk = Desk::on(alloc, file, most)?;
    let Err(why) = make_again(alloc, device, &mut desk, seen) else {
        return Ok(desk);
    };
    Err(why)
}

/// The pages of a device, in memory, and the ids of the queues on them.
fn read_all<P: PagePair>(
    alloc: Global,
    device: &mut SafeDevice<P>,
    seen: &mut Vec<u32>,
) -> Result<MemDevice, DeviceFault>
    ensures ok { IsTrue P.is_honest → IfOk result (λ file. file ≡ device.old.content) }
    ensures as_many { IfOk result (λ file. length file ≡ length device.old.content) }
    ensures same { IsRead device.old device.new }
{
    let mut file = MemDevice::new(alloc);
    let mut page = [0; PAGE_BYTES];
    for number in 0..device.pages() {
        device.read(number, &mut page)?;
        file.extend(&page)?;
        if !see_queues(&page, seen) {
            return Err(DeviceFault::NoMemory);
        }
    }
    Ok(file)
}

/// Puts the ids of the queues on a page last; false where there is no memory.
fn see_queues(page: &Page, seen: &mut Vec<u32>) -> bool {
    let Some(bucket) = read_tested(page) else {
        return true;
    };
    for record in bucket.records() {
        if record.key.kind == QUEUE
            && record.key.number == 0
            && seen.push(record.key.queue).is_err()
        {
            return false;
        }
    }
    true
}

/// Why a file is not opened whose pages can't be read into memory.
fn unread(fault: DeviceFault) -> OpenFault
    ensures { result ≡ unread fault }
{
    match fault {
        DeviceFault::Device => OpenFault::Wrong(CheckFault::Structure(StructureFault::Device)),
        _ => OpenFault::NoMemory,
    }
}
