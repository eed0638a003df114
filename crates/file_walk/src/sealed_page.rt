//! A page is read from a device, before a pool has it.

ghost use Rattle.std.specs.Prelude.{◌≡◌, ◌⊎◌, IsTrue, IfErr, OnOk};
ghost use Rattle.file_walk.specs.Order.{HasReadCause, IsOfMachine, IsUnread};
ghost use Rattle.file_walk.specs.Readings.{IsPayloadOf};

use crate::fault::StructureFault;
use page_device::{DeviceFault, PAGE_BYTES, PageDevice, Payload, unseal_into};

/// Reads the payload of a page, and tests its digest.
pub fn read_sealed<D: PageDevice>(
    device: &mut D,
    page: u32,
    payload: &mut Payload,
) -> Result<(), StructureFault>
    ensures ok { IsTrue (D.is_honest device.old) →
        OnOk result (IsPayloadOf (D.content device.old) page payload.new) }
    ensures err { IsTrue (D.is_honest device.old) →
        IfErr result (λ fault. IsOfMachine fault ⊎ IsUnread (D.content device.old) page fault) }
    ensures same { D.content device.new ≡ D.content device.old }
    ensures honest { D.is_honest device.new ≡ D.is_honest device.old }
    ensures cause { HasReadCause (D.fault_count device.old) (D.fault_count device.new) result }
{
    let mut bytes = [0; PAGE_BYTES];
    match device.read(page, &mut bytes) {
        Ok(()) => {}
        Err(DeviceFault::PastEnd) => return Err(StructureFault::PastEnd),
        Err(_) => return Err(StructureFault::Device),
    }
    match unseal_into(page, &bytes, payload) {
        Ok(()) => Ok(()),
        Err(_) => Err(StructureFault::BadDigest { page }),
    }
}
