//! Pages between a device and the frames.
ghost use Rattle.std.specs.Prelude.{◌≡◌, ◌<◌, ◌≤◌, length, is_ok, None, IsSome, IsTrue, OnOk};
ghost use Rattle.page_device.specs.Device.{HasCause, MayOnlyFail};
ghost use Rattle.buffer_pool.specs.Pool.{IsSoundPool, IsClean, PoolHasCause, images_of};
ghost use Rattle.buffer_pool.specs.Table.{place_of, page_of, count_pinned};
ghost use Rattle.buffer_pool.specs.Transfer.{AreWritten, KeepsDevice, KeepsPages, KeepsPins, MayBeUnread};

use crate::fault::PoolFault;
use crate::file_page::FilePage;
use crate::table::Table;
use page_device::{DeviceFault, PAGE_BYTES, PageDevice, unseal};

/// Writes the page of a frame to the device where the frame was changed.
pub fn write_back<D: PageDevice>(
    device: &mut D,
    table: &mut Table,
    frame: usize,
) -> Result<(), DeviceFault>
    requires sound { IsSoundPool (D.content device.old) (D.is_honest device.old) table.old }
    requires within { frame < length table.old.pages }
    ensures sound { IsSoundPool (D.content device.new) (D.is_honest device.new) table.new }
    ensures ok { OnOk result (IsClean table.new frame) }
    ensures images { images_of (D.content device.new) table.new ≡
        images_of (D.content device.old) table.old }
    ensures pages { KeepsPages table.old table.new }
    ensures device { KeepsDevice (page_of table.old frame ≡ None) (is_ok result)
        (D.is_honest device.old) (D.is_honest device.new)
        (D.content device.old) (D.content device.new) }
    ensures cause { HasCause MayOnlyFail
        (D.fault_count device.old) (D.fault_count device.new) result }
{
    let Some(page) = table.page(frame) else {
        return Ok(());
    };
    if !table.is_changed(frame) {
        return Ok(());
    }
    let sealed = table.sealed(frame, page);
    device.write(page, &sealed)?;
    table.clean(frame);
    Ok(())
}

/// Sees that a page is in a frame. Where it is in none it is read and tested, and comes into a
/// frame whose page may go, and which is written to the device before.
pub fn bring_in<D: PageDevice>(
    device: &mut D,
    table: &mut Table,
    page: u32,
) -> Result<(), PoolFault>
    requires sound { IsSoundPool (D.content device.old) (D.is_honest device.old) table.old }
    requires page { page < length table.old.places }
    requires room { place_of table.old page ≡ None →
        count_pinned table.old.pins < length table.old.pages }
    ensures sound { IsSoundPool (D.content device.new) (D.is_honest device.new) table.new }
    ensures ok { OnOk result (IsSome (place_of table.new page)) }
    ensures images { IsTrue (D.is_honest device.old) →
        images_of (D.content device.new) table.new ≡ images_of (D.content device.old) table.old }
    ensures pins { KeepsPins table.old table.new }
    ensures device { KeepsDevice (length (D.content device.old) ≤ length table.old.pages)
        (is_ok result) (D.is_honest device.old) (D.is_honest device.new)
        (D.content device.old) (D.content device.new) }
    ensures cause { PoolHasCause (MayBeUnread (D.is_honest device.old) page
        (D.content device.old) (images_of (D.content device.old) table.old))
        (D.fault_count device.old) (D.fault_count device.new) result }
{
    if let Some(frame) = table.place(page) {
        table.touch(frame);
        return Ok(());
    }
    read_in(device, table, page)
}

/// Brings in a page that is in no frame. Where there is a frame for each page of the device one is
/// empty, and nothing is written. It stands apart from `bring_in`, so that a pin of a page that is
/// in one sets up no room for the page's bytes.
fn read_in<D: PageDevice>(device: &mut D, table: &mut Table, page: u32) -> Result<(), PoolFault>
    requires sound { IsSoundPool (D.content device.old) (D.is_honest device.old) table.old }
    requires page { page < length table.old.places }
    requires outside { place_of table.old page ≡ None }
    requires room { count_pinned table.old.pins < length table.old.pages }
    ensures sound { IsSoundPool (D.content device.new) (D.is_honest device.new) table.new }
    ensures ok { OnOk result (IsSome (place_of table.new page)) }
    ensures images { IsTrue (D.is_honest device.old) →
        images_of (D.content device.new) table.new ≡ images_of (D.content device.old) table.old }
    ensures pins { KeepsPins table.old table.new }
    ensures device { KeepsDevice (length (D.content device.old) ≤ length table.old.pages)
        (is_ok result) (D.is_honest device.old) (D.is_honest device.new)
        (D.content device.old) (D.content device.new) }
    ensures cause { PoolHasCause (MayBeUnread (D.is_honest device.old) page
        (D.content device.old) (images_of (D.content device.old) table.old))
        (D.fault_count device.old) (D.fault_count device.new) result }
{
    let mut bytes = [0; PAGE_BYTES];
    device.read(page, &mut bytes)?;
    let payload = unseal(page, &bytes)?;
    let Some(read) = FilePage::read(&payload) else {
        return Err(PoolFault::Malformed);
    };
    let frame = table.free_frame();
    write_back(device, table, frame)?;
    table.move_in(frame, page, read);
    Ok(())
}

/// Writes each page that was changed to the device, and syncs it.
pub fn write_all<D: PageDevice>(device: &mut D, table: &mut Table) -> Result<(), DeviceFault>
    requires { IsSoundPool (D.content device.old) (D.is_honest device.old) table.old }
    ensures sound { IsSoundPool (D.content device.new) (D.is_honest device.new) table.new }
    ensures ok { OnOk result
        (AreWritten (D.is_honest device.old) (D.is_synced device.new) table.new) }
    ensures images { images_of (D.content device.new) table.new ≡
        images_of (D.content device.old) table.old }
    ensures pages { KeepsPages table.old table.new }
    ensures device { KeepsDevice (⊥) (is_ok result)
        (D.is_honest device.old) (D.is_honest device.new)
        (D.content device.old) (D.content device.new) }
    ensures cause { HasCause MayOnlyFail
        (D.fault_count device.old) (D.fault_count device.new) result }
{
    for frame in 0..table.frames() {
        write_back(device, table, frame)?;
    }
    device.sync()
}
