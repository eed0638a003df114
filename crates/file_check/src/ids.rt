//! The buckets of a file are read once more, for the ids of its queues.

ghost use Rattle.std.specs.Prelude.{◌≡◌, ◌++◌, IsTrue, IfOk, IfErr, OnOk};
ghost use Rattle.record_walk.specs.Systems.{AreQueueIds};
ghost use Rattle.file_walk.specs.declared.fault.StructureFault.TheVariants as structure;
ghost use Rattle.file_check.specs.declared.fault.CheckFault.TheVariants as faults;
ghost use Rattle.file_check.specs.Fault.{IsOfMachineToo};
ghost use Rattle.file_check.specs.Ids.{HasChain, ids_in};
ghost use Rattle.file_check.specs.Records.{HasCheckCause, IsLivePage};
ghost use Rattle.file_check.specs.Words.{file_in, held_in, records_at};

use crate::bucket::{bucket_in, read_again};
use crate::fault::CheckFault;
use directory::Layout;
use page_device::{PAGE_BYTES, PageDevice};
use queue_records::QUEUE;
use record_walk::TestedBucket;
use std::alloc::Global;

/// The ids of all Queues of a file whose structure is right, in ascending order. Nothing is
/// written.
pub fn queue_ids<D: PageDevice>(
    alloc: Global,
    layout: &Layout,
    device: &mut D,
    chain: &[u32],
) -> Result<Vec<u32>, CheckFault>
    requires { IsTrue (D.is_honest device.old) →
        HasChain layout.now (D.content device.old) chain.now }
    ensures ok { IsTrue (D.is_honest device.old) → IfOk result (λ ids. AreQueueIds
        (held_in layout.now (file_in layout.now (D.content device.old))) ids.items) }
    ensures err { IsTrue (D.is_honest device.old) → IfErr result IsOfMachineToo }
    ensures same { D.content device.new ≡ D.content device.old }
    ensures honest { D.is_honest device.new ≡ D.is_honest device.old }
    ensures cause { HasCheckCause (D.fault_count device.old) (D.fault_count device.new) result }
{
    let mut ids = Vec::new(alloc);
    for page in chain {
        put_ids_on(layout, device, *page, &mut ids)?;
    }
    ids.sort_unstable();
    ids.dedup();
    Ok(ids)
}

/// Puts the ids of the Queues on a page of the chain behind others.
fn put_ids_on<D: PageDevice>(
    layout: &Layout,
    device: &mut D,
    page: u32,
    ids: &mut Vec<u32>,
) -> Result<(), CheckFault>
    requires { IsTrue (D.is_honest device.old) →
        IsLivePage layout.now (D.content device.old) page }
    ensures ok { IsTrue (D.is_honest device.old) → OnOk result (ids.new.items ≡ ids.old.items
        ++ ids_in (records_at (file_in layout.now (D.content device.old)) page)) }
    ensures err { IsTrue (D.is_honest device.old) → IfErr result IsOfMachineToo }
    ensures same { D.content device.new ≡ D.content device.old }
    ensures honest { D.is_honest device.new ≡ D.is_honest device.old }
    ensures cause { HasCheckCause (D.fault_count device.old) (D.fault_count device.new) result }
{
    // The layout is seen by the contract alone.
    let _ = layout;
    let mut bytes = [0; PAGE_BYTES];
    read_again(device, page, &mut bytes)?;
    put_ids_in(&bucket_in(&bytes, page)?, ids)
}

/// Puts the ids of the Queues of a bucket behind others.
fn put_ids_in(bucket: &TestedBucket, ids: &mut Vec<u32>) -> Result<(), CheckFault>
    ensures ok { OnOk result (ids.new.items ≡ ids.old.items ++ ids_in bucket.now.records) }
    ensures err { IfErr result (λ fault. fault ≡ faults.Structure structure.NoMemory) }
{
    for record in bucket.records() {
        if record.key.kind == QUEUE && record.key.number == 0 {
            ids.push(record.key.queue)?;
        }
    }
    Ok(())
}
