//! A device in memory, of which each transfer fails in turn.

use page_device::{DeviceFault, FaultyDevice, MemDevice, PAGE_BYTES, PageDevice};
use std::alloc::Global;

/// Two pages, the first of which is written again.
fn fill<D: PageDevice>(device: &mut D) -> Result<(), DeviceFault> {
    device.extend(&[1; PAGE_BYTES])?;
    device.extend(&[2; PAGE_BYTES])?;
    device.write(0, &[3; PAGE_BYTES])?;
    device.sync()
}

/// Whether the device has the pages of `fill`.
fn is_filled<D: PageDevice>(device: &mut D) -> Result<bool, DeviceFault> {
    let mut first = [0; PAGE_BYTES];
    let mut second = [0; PAGE_BYTES];
    device.read(0, &mut first)?;
    device.read(1, &mut second)?;
    Ok(first == [3; PAGE_BYTES] && second == [2; PAGE_BYTES] && device.pages() == 2)
}

/// What comes of both on a device whose nth transfer is to fail, and how many pages the device below
/// has then; none where another number of transfers has failed than should.
fn filled(alloc: Global, nth: u64) -> Option<(Result<bool, DeviceFault>, u32)> {
    let mut device = FaultyDevice::new(MemDevice::new(alloc), nth);
    let run = fill(&mut device).and_then(|()| is_filled(&mut device));
    let failed = device.faults();
    let inner = device.into_inner();
    let is_right = failed == u64::from(run.is_err()) && inner.faults() == 0;
    is_right.then_some((run, inner.pages()))
}

#[test]
fn each_transfer_fails_in_turn(rt: HostRuntime) {
    let failed = Err(DeviceFault::Device);
    for (nth, run, pages) in [
        (1, failed, 0),
        (2, failed, 1),
        (3, failed, 2),
        (4, failed, 2),
        (5, failed, 2),
        (6, failed, 2),
        (7, Ok(true), 2),
    ] {
        assert!(rt;
            filled(rt.alloc(), nth) == Some((run, pages)),
            "transfer {nth}"
        );
    }
}
