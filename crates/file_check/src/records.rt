//! Each record of a file is tested by itself.

ghost use Rattle.std.specs.Prelude.{◌≡◌, ◌⊎◌, IsTrue, IfErr, OnOk};
ghost use Rattle.file_check.specs.Fault.{IsOfMachineToo};
ghost use Rattle.file_check.specs.Records.{AreRightRecordsIn, HasCheckCause, IsFirstWrongRecord};
ghost use Rattle.file_check.specs.Words.{IsLayout, IsRightStructureIn, file_in};

use crate::bucket::test_page;
use crate::fault::CheckFault;
use bucket_page::PseudoKey;
use directory::Layout;
use page_device::PageDevice;

/// Tests each record of a file whose structure is right: that it stands in the bucket of its
/// pseudokey, and then that it is a record. They are tested in the order of the chain, on each page
/// from the lowest key on; the first that is wrong is answered. Nothing is written.
pub fn test_records<D: PageDevice, K: PseudoKey>(
    layout: &Layout,
    device: &mut D,
    keys: &K,
    chain: &[u32],
) -> Result<(), CheckFault>
    requires layout { IsLayout layout.now }
    requires structure { IsTrue (D.is_honest device.old) →
        IsRightStructureIn layout.now (D.content device.old) chain.now }
    ensures ok { IsTrue (D.is_honest device.old) → OnOk result (AreRightRecordsIn layout.now
        (K.of_key keys.now) (file_in layout.now (D.content device.old)) chain.now) }
    ensures err { IsTrue (D.is_honest device.old) → IfErr result (λ fault. IsOfMachineToo fault
        ⊎ IsFirstWrongRecord layout.now (K.of_key keys.now)
        (file_in layout.now (D.content device.old)) chain.now fault) }
    ensures same { D.content device.new ≡ D.content device.old }
    ensures honest { D.is_honest device.new ≡ D.is_honest device.old }
    ensures cause { HasCheckCause (D.fault_count device.old) (D.fault_count device.new) result }
{
    for page in chain {
        test_page(layout, device, keys, *page)?;
    }
    Ok(())
}
