//! Pages that are copied one by one.

ghost use Rattle.std.specs.Prelude.{◌≡◌, ◌≤◌, IfOk, IsErrOf, IsTrue, length};
ghost use Rattle.page_device.specs.Device.{HasRisen};

use crate::device::PageDevice;
use crate::fault::DeviceFault;
use crate::memory::MemDevice;
use crate::page::PAGE_BYTES;
use std::alloc::Global;

/// The pages of a device in memory.
///
/// # Errors
///
/// `Device` where a read failed; `DeviceFull` where there are more pages than a file has at most;
/// `NoMemory`.
pub fn copied<D: PageDevice>(alloc: Global, device: &mut D) -> Result<MemDevice, DeviceFault>
    ensures ok { IsTrue (D.is_honest device.old) →
        IfOk result (λ file. file ≡ D.content device.old) }
    ensures as_many { IfOk result (λ file. length file ≡ length (D.content device.old)) }
    ensures same { D.content device.new ≡ D.content device.old }
    ensures honest { D.is_honest device.new ≡ D.is_honest device.old }
    ensures later { D.fault_count device.old ≤ D.fault_count device.new }
    ensures failed { IsErrOf result DeviceFault.Device →
        HasRisen (D.fault_count device.old) (D.fault_count device.new) }
{
    let mut file = MemDevice::new(alloc);
    let mut page = [0; PAGE_BYTES];
    for number in 0..device.pages() {
        device.read(number, &mut page)?;
        file.extend(&page)?;
    }
    Ok(file)
}
