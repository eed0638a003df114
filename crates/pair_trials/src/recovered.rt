//! A recovery that is over outlasts a loss of power.

use pair_transfers::recover_over;
use safe_device::page_device::PAGE_BYTES;
use safe_device::{Loss, MemPair, PageImage, PagePair};
use std::test::Fail;

/// Writes twos over page 0, of which the journal has ones, and puts these back.
fn put_back<P: PagePair>(pair: &mut P) -> Result<(), Fail> {
    let ones = PageImage {
        page: 0,
        bytes: [1; PAGE_BYTES],
    };
    pair.append_images(2, &[ones])?;
    pair.store(0, &[2; PAGE_BYTES])?;
    pair.sync_file()?;
    recover_over(pair)?;
    Ok(())
}

#[test]
fn what_is_put_back_outlasts_a_loss_of_power(rt: HostRuntime) -> Result<(), Fail> {
    let alloc = rt.alloc();
    let pages = Vec::from_array(alloc, [[1; PAGE_BYTES]; 2])?;
    let mut pair = MemPair::new(alloc, pages, 100)?;
    put_back(&mut pair)?;
    let left = pair.crash(Loss::Everything, false, 100)?;
    let mut page = [0; PAGE_BYTES];
    left.load(0, &mut page)?;
    assert!(rt; page == [1; PAGE_BYTES], "page 0");
    Ok(())
}
