//! Page 0, which tells whether there is a file.

ghost use Rattle.std.specs.Prelude.{◌≡◌, ◌⊎◌, length, IsTrue, IfOk, IfErr};
ghost use Rattle.directory.specs.Layouts.{IsLayout};
ghost use Rattle.file_walk.specs.Order.{HasReadCause, IsHeaderFaultIn, IsOfMachine};
ghost use Rattle.file_walk.specs.Readings.{IsHeaderOf};

use crate::fault::StructureFault;
use crate::sealed_page::read_sealed;
use directory::{Header, HeaderFault, Layout, read_header_in};
use page_device::{PAYLOAD_BYTES, PageDevice};

/// The header: first its digest is tested, then its own bytes, then its number of pages.
pub fn header_of<D: PageDevice>(layout: &Layout, device: &mut D) -> Result<Header, StructureFault>
    requires layout { IsLayout layout.now }
    ensures ok { IfOk result
        (IsHeaderOf layout.now (D.is_honest device.old) (D.content device.old)) }
    ensures err { IsTrue (D.is_honest device.old) → IfErr result (λ fault.
        IsOfMachine fault ⊎ IsHeaderFaultIn layout.now (D.content device.old) fault) }
    ensures same { D.content device.new ≡ D.content device.old }
    ensures honest { D.is_honest device.new ≡ D.is_honest device.old }
    ensures cause { HasReadCause (D.fault_count device.old) (D.fault_count device.new) result }
{
    let pages = device.pages();
    let mut payload = [0; PAYLOAD_BYTES];
    read_sealed(device, 0, &mut payload)?;
    let header = match read_header_in(layout, &payload) {
        Ok(header) => header,
        Err(HeaderFault::BadHeader) => return Err(StructureFault::BadHeader),
        Err(HeaderFault::BadVersion) => return Err(StructureFault::BadVersion),
    };
    if pages < header.pages {
        return Err(StructureFault::PastEnd);
    }
    if pages > header.pages {
        return Err(StructureFault::BadHeader);
    }
    Ok(header)
}
