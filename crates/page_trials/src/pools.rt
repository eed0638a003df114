//! Pools of one to three frames over three pages.

ghost use Rattle.std.specs.Prelude.{IfOk};
ghost use Rattle.buffer_pool.specs.Pool.{IsAtRest};

use buffer_pool::{FilePage, Pool, PoolFault};
use page_device::{
    DeviceFault, FaultyDevice, MemDevice, PAGE_BYTES, PAYLOAD_BYTES, Page, PageDevice, seal,
};
use std::alloc::Global;
use std::process::Abort;
use std::test::Fail;

/// A free page that names another.
fn naming(next: u32) -> FilePage {
    let mut page = FilePage::blank();
    page.write_free(next);
    page
}

/// Three free pages, each of which names itself.
fn three_pages(alloc: Global) -> Result<MemDevice, DeviceFault> {
    let mut device = MemDevice::new(alloc);
    for page in 0..3u32 {
        device.extend(&seal(page, naming(page).payload()))?;
    }
    Ok(device)
}

/// Stores a free page that names this one.
fn put<D: PageDevice>(pool: &mut Pool<D>, page: u32, next: u32) -> Result<(), PoolFault>
    requires { IsAtRest pool.old }
    ensures { IsAtRest pool.new }
{
    let frame = pool.pin(page)?;
    pool.store(&frame, naming(next));
    pool.unpin(frame);
    Ok(())
}

/// The page that the image of a free page names.
fn get<D: PageDevice>(pool: &mut Pool<D>, page: u32) -> Result<u32, PoolFault>
    requires { IsAtRest pool.old }
    ensures { IsAtRest pool.new }
{
    let frame = pool.pin(page)?;
    let next = pool.image(&frame).next_free();
    pool.unpin(frame);
    Ok(next.unwrap_or(0))
}

/// Changes the image of a page in place.
fn change<D: PageDevice>(pool: &mut Pool<D>, page: u32, next: u32) -> Result<Option<u32>, PoolFault>
    requires { IsAtRest pool.old }
{
    let frame = pool.pin(page)?;
    pool.image_mut(&frame).write_free(next);
    let named = pool.image(&frame).next_free();
    pool.unpin(frame);
    Ok(named)
}

/// The pages that three free pages name.
fn get_all<D: PageDevice>(pool: &mut Pool<D>) -> Result<[u32; 3], PoolFault>
    requires { IsAtRest pool.old }
    ensures { IsAtRest pool.new }
{
    Ok([get(pool, 2)?, get(pool, 0)?, get(pool, 1)?])
}

/// Stores two pages, reads all three and flushes them.
fn run<D: PageDevice>(pool: &mut Pool<D>) -> Result<[u32; 3], PoolFault>
    requires { IsAtRest pool.old }
    ensures { IsAtRest pool.new }
{
    put(pool, 0, 10)?;
    put(pool, 1, 11)?;
    let read = get_all(pool)?;
    pool.flush()?;
    Ok(read)
}

/// A pool of so many frames over a device.
fn open<D: PageDevice + Drop>(alloc: Global, device: D, frames: usize) -> Result<Pool<D>, Fail>
    ensures { IfOk result IsAtRest }
{
    match Pool::open(alloc, device, frames) {
        Ok(pool) => Ok(pool),
        Err((_, fault)) => Err(fault.into()),
    }
}

/// A pool of so many frames over the three pages, whose nth transfer fails.
fn faulty_pool(
    alloc: Global,
    frames: usize,
    nth: u64,
) -> Result<Pool<FaultyDevice<MemDevice>>, Fail>
    ensures { IfOk result IsAtRest }
{
    open(alloc, FaultyDevice::new(three_pages(alloc)?, nth), frames)
}

/// What a transfer that fails is told.
const FAILED: PoolFault = PoolFault::Device(DeviceFault::Device);

/// What a run reads.
const READ: [u32; 3] = [2, 10, 11];

/// Whether the nth transfer of a run fails, and nothing is lost by that.
fn fails_once(alloc: Global, frames: usize, nth: u64) -> Result<bool, Fail> {
    let mut pool = faulty_pool(alloc, frames, nth)?;
    let failed = run(&mut pool);
    let faults = pool.faults();
    Ok(failed == Err(FAILED) && faults == 1 && run(&mut pool) == Ok(READ))
}

/// Whether a run makes so many transfers: the one behind them is to fail, and is the first of another
/// pool.
fn makes(alloc: Global, frames: usize, transfers: u64) -> Result<bool, Fail> {
    let mut pool = faulty_pool(alloc, frames, transfers.saturating_add(1))?;
    let is_read = run(&mut pool) == Ok(READ);
    let mut again = open(alloc, pool.into_device(), 2)?;
    Ok(
        is_read
            && get_all(&mut again).is_err()
            && get_all(&mut again) == Ok(READ)
            && get(&mut again, 3) == Err(PoolFault::Device(DeviceFault::PastEnd)),
    )
}

/// With three frames: three reads, two writes and a sync. With fewer, two pages are read again.
const TRANSFERS: [(usize, u64); 3] = [(1, 8), (2, 8), (3, 6)];

#[test]
fn each_transfer_fails_in_turn(rt: HostRuntime) -> Result<(), Fail> {
    for (frames, transfers) in TRANSFERS {
        for nth in 1..=transfers {
            assert!(rt; fails_once(rt.alloc(), frames, nth)?, "{frames}, {nth}");
        }
    }
    Ok(())
}

#[test]
fn a_run_makes_so_many_transfers(rt: HostRuntime) -> Result<(), Fail> {
    for (frames, transfers) in TRANSFERS {
        assert!(rt; makes(rt.alloc(), frames, transfers)?, "{frames} frames");
    }
    Ok(())
}

/// Whether page 1 with these bytes is refused by this fault, and another one is read and changed.
fn refuses(alloc: Global, bytes: &Page, fault: PoolFault) -> Result<bool, Fail> {
    let mut device = three_pages(alloc)?;
    device.write(1, bytes)?;
    let mut pool = open(alloc, device, 1)?;
    Ok(
        get(&mut pool, 1) == Err(fault)
            && get(&mut pool, 2) == Ok(2)
            && change(&mut pool, 2, 7) == Ok(Some(7)),
    )
}

#[test]
fn a_page_that_no_pool_wrote_is_refused(rt: HostRuntime) -> Result<(), Fail> {
    let digest = PoolFault::Device(DeviceFault::BadDigest);
    let spells_none = seal(1, &[7; PAYLOAD_BYTES]);
    assert!(rt; refuses(rt.alloc(), &spells_none, PoolFault::Malformed)?);
    assert!(rt; refuses(rt.alloc(), &[1; PAGE_BYTES], digest)?);
    assert!(rt; (PoolFault::Malformed.number(), digest.number()) == (40, 21));
    Ok(())
}

/// Whether two pages can be pinned at once.
fn has_two_frames<D: PageDevice>(pool: &mut Pool<D>) -> Result<bool, PoolFault>
    requires { IsAtRest pool.old }
{
    let first = pool.pin(0)?;
    let has_two = match pool.pin(1) {
        Ok(second) => {
            pool.unpin(second);
            true
        }
        Err(_) => false,
    };
    pool.unpin(first);
    Ok(has_two)
}

/// How many pages a device has that comes back where a pool is to have no frame, and the fault.
fn without_frames(alloc: Global) -> Result<Option<(u32, u8)>, Fail> {
    let Err((device, fault)) = Pool::open(alloc, three_pages(alloc)?, 0) else {
        return Ok(None);
    };
    Ok(Some((device.pages(), fault.number())))
}

#[test]
fn too_few_frames_are_refused(rt: HostRuntime) -> Result<(), Fail> {
    assert!(rt; without_frames(rt.alloc())? == Some((3, 30)));
    let mut pool = open(rt.alloc(), three_pages(rt.alloc())?, 1)?;
    assert!(rt; has_two_frames(&mut pool) == Ok(false));
    Ok(())
}
