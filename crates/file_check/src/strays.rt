//! The records of a file that its system does not need.

ghost use Rattle.std.specs.Prelude.{◌≡◌, ◌⊎◌, IsTrue, IfErr, OnOk};
ghost use Rattle.std.specs.List.{All};
ghost use Rattle.file_check.specs.Fault.{IsOfMachineToo};
ghost use Rattle.file_check.specs.Records.{HasCheckCause, IsLivePage};
ghost use Rattle.file_check.specs.Strays.{AreNeeded, AreNeededOn, IsFirstStray, IsNeeded, IsStrayIn};
ghost use Rattle.file_check.specs.Words.{IsLayout, IsRightStructureIn, bucket_at, file_in};

use crate::bucket::{bucket_in, read_again};
use crate::fault::CheckFault;
use crate::needs::needs;
use bucket_page::RecordKey;
use directory::Layout;
use page_device::{PAGE_BYTES, PageDevice};
use queue_model::System;
use record_walk::TestedBucket;

/// Tests of each record of a file whose structure is right that a system needs it. They are tested
/// in the order of the chain, on each page from the lowest key on; the first that it does not need
/// is answered. Nothing is written.
pub fn test_strays<D: PageDevice>(
    layout: &Layout,
    device: &mut D,
    chain: &[u32],
    system: &System,
) -> Result<(), CheckFault>
    requires layout { IsLayout layout.now }
    requires structure { IsTrue (D.is_honest device.old) →
        IsRightStructureIn layout.now (D.content device.old) chain.now }
    ensures ok { IsTrue (D.is_honest device.old) → OnOk result
        (AreNeeded system.now (file_in layout.now (D.content device.old)) chain.now) }
    ensures err { IsTrue (D.is_honest device.old) → IfErr result (λ fault. IsOfMachineToo fault
        ⊎ IsFirstStray system.now
        (file_in layout.now (D.content device.old)) chain.now fault) }
    ensures same { D.content device.new ≡ D.content device.old }
    ensures honest { D.is_honest device.new ≡ D.is_honest device.old }
    ensures cause { HasCheckCause (D.fault_count device.old) (D.fault_count device.new) result }
{
    for page in chain {
        test_strays_on(layout, device, *page, system)?;
    }
    Ok(())
}

/// Tests the records on a page of the chain.
fn test_strays_on<D: PageDevice>(
    layout: &Layout,
    device: &mut D,
    page: u32,
    system: &System,
) -> Result<(), CheckFault>
    requires { IsTrue (D.is_honest device.old) →
        IsLivePage layout.now (D.content device.old) page }
    ensures ok { IsTrue (D.is_honest device.old) → OnOk result
        (AreNeededOn system.now (file_in layout.now (D.content device.old)) page) }
    ensures err { IsTrue (D.is_honest device.old) → IfErr result (λ fault. IsOfMachineToo fault
        ⊎ IsStrayIn system.now
        (bucket_at (file_in layout.now (D.content device.old)) page) page fault) }
    ensures same { D.content device.new ≡ D.content device.old }
    ensures honest { D.is_honest device.new ≡ D.is_honest device.old }
    ensures cause { HasCheckCause (D.fault_count device.old) (D.fault_count device.new) result }
{
    // The layout is seen by the contract alone.
    let _ = layout;
    let mut bytes = [0; PAGE_BYTES];
    read_again(device, page, &mut bytes)?;
    test_strays_in(page, &bucket_in(&bytes, page)?, system)
}

/// Tests the records of a bucket, from the lowest key on.
fn test_strays_in(page: u32, bucket: &TestedBucket, system: &System) -> Result<(), CheckFault>
    ensures ok { OnOk result (All (IsNeeded system.now) bucket.now.records) }
    ensures err { IfErr result (IsStrayIn system.now bucket.now page) }
{
    for record in bucket.records() {
        if !needs(system, &record.key, record.value) {
            return Err(stray(page, &record.key));
        }
    }
    Ok(())
}

fn stray(page: u32, key: &RecordKey) -> CheckFault
    ensures { result ≡ CheckFault.Stray page key.now.kind key.now.queue key.now.number }
{
    CheckFault::Stray {
        page,
        kind: key.kind,
        queue: key.queue,
        number: key.number,
    }
}
