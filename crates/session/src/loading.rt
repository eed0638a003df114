//! The pages of a file, from its bytes.

ghost use Rattle.std.specs.Prelude.{◌≡◌, ◌/◌, ◌≤◌, ◌++◌, ◌∷◌, [], IfErr, IfOk, IsErrOf, length};
ghost use Rattle.session.specs.Session.{MayNotLoad, pages_in, unloaded_by};
ghost use Rattle.page_device.specs.declared.page.TheConstants.{MAX_PAGES, PAGE_BYTES};

use file_walk::StructureFault;
use interleaving_core::OpenFault;
use interleaving_core::file_check::CheckFault;
use page_device::{DeviceFault, MemDevice, PAGE_BYTES, PageDevice};
use std::alloc::Global;

/// The pages that these bytes are. Bytes that are not whole pages are those of a file that is cut,
/// and more pages than a file can have are none of its header.
pub(crate) fn loaded(alloc: Global, bytes: &[u8]) -> Result<MemDevice, OpenFault>
    ensures ok { IfOk result
        (λ device. device ≡ pages_in (length bytes.now / PAGE_BYTES) bytes.now) }
    ensures refused { IfErr result (MayNotLoad bytes.now) }
{
    if bytes.len() % PAGE_BYTES != 0 {
        return Err(OpenFault::Wrong(CheckFault::Structure(StructureFault::PastEnd)));
    }
    let mut device = MemDevice::new(alloc);
    for page in 0..bytes.len() / PAGE_BYTES {
        let at = page * PAGE_BYTES;
        if let Err(fault) = add(&mut device, &bytes[at..at + PAGE_BYTES]) {
            return Err(refusal(fault));
        }
    }
    Ok(device)
}

/// Adds a page behind the others.
fn add(device: &mut MemDevice, bytes: &[u8]) -> Result<(), DeviceFault>
    requires { length bytes.now ≡ PAGE_BYTES }
    ensures ok { IfOk result (λ _. device.new ≡ device.old ++ bytes.now ∷ []) }
    ensures full { IsErrOf result DeviceFault.DeviceFull → MAX_PAGES ≤ length device.old }
{
    let mut page = [0; PAGE_BYTES];
    page.copy_from_slice(bytes);
    device.extend(&page)
}

/// Why pages are not loaded.
fn refusal(fault: DeviceFault) -> OpenFault
    ensures { result ≡ unloaded_by fault }
{
    match fault {
        DeviceFault::DeviceFull => {
            OpenFault::Wrong(CheckFault::Structure(StructureFault::BadHeader))
        }
        _ => OpenFault::NoMemory,
    }
}
