//! The buckets of a file are read once more, and their records tested.

ghost use Rattle.std.specs.Prelude.{◌≡◌, ◌≤◌, ◌⊎◌, ℕ, List, length, IsTrue, Ok, IfOk, IfErr, OnOk};
ghost use Rattle.std.specs.List.{All};
ghost use Rattle.page_device.specs.Sealed.{payload_of};
ghost use Rattle.directory.specs.declared.pseudokey.TheConstants.{PSEUDOKEY_BITS};
ghost use Rattle.file_check.specs.Fault.{IsOfMachineToo};
ghost use Rattle.file_check.specs.Records.{AreRightOn, HasCheckCause, IsLivePage, IsRightRecordIn, IsWrongIn};
ghost use Rattle.file_check.specs.Words.{Layout, bucket_at, file_in, payload_on};

use crate::fault::CheckFault;
use bucket_page::{PseudoKey, RecordKey};
use directory::{Layout, Range};
use file_walk::StructureFault;
use page_device::{DeviceFault, PAGE_BYTES, Page, PageDevice};
use record_walk::{TestedBucket, decode_in, read_tested};

/// Reads a page whose digest was tested before.
pub(crate) fn read_again<D: PageDevice>(
    device: &mut D,
    page: u32,
    bytes: &mut Page,
) -> Result<(), CheckFault>
    ensures ok { IsTrue (D.is_honest device.old) →
        OnOk result (payload_of bytes.new ≡ payload_on (D.content device.old) page) }
    ensures err { IfErr result (λ fault.
        IsOfMachineToo fault ⊎ (length (D.content device.old) ≤ page)) }
    ensures same { D.content device.new ≡ D.content device.old }
    ensures honest { D.is_honest device.new ≡ D.is_honest device.old }
    ensures cause { HasCheckCause (D.fault_count device.old) (D.fault_count device.new) result }
{
    match device.read(page, bytes) {
        Ok(()) => Ok(()),
        Err(DeviceFault::PastEnd) => Err(CheckFault::Changed { page }),
        Err(_) => Err(CheckFault::Structure(StructureFault::Device)),
    }
}

/// The bucket of a page that is known to be a bucket's.
pub(crate) fn bucket_in(bytes: &Page, page: u32) -> Result<TestedBucket<'_>, CheckFault>
    ensures ok { (l : Layout) (content : List (List ℕ)) → IsLivePage l content page →
        payload_of bytes.now ≡ payload_on content page →
        result ≡ Ok (bucket_at (file_in l content) page) }
    ensures within { IfOk result (λ bucket. bucket.depth ≤ PSEUDOKEY_BITS) }
    ensures err { IfErr result (λ fault. fault ≡ CheckFault.Changed page) }
{
    match read_tested(bytes) {
        Some(bucket) => Ok(bucket),
        None => Err(CheckFault::Changed { page }),
    }
}

/// Tests the records of the bucket on a page of the chain.
pub(crate) fn test_page<D: PageDevice, K: PseudoKey>(
    layout: &Layout,
    device: &mut D,
    keys: &K,
    page: u32,
) -> Result<(), CheckFault>
    requires { IsTrue (D.is_honest device.old) →
        IsLivePage layout.now (D.content device.old) page }
    ensures ok { IsTrue (D.is_honest device.old) → OnOk result (AreRightOn layout.now
        (K.of_key keys.now) (file_in layout.now (D.content device.old)) page) }
    ensures err { IsTrue (D.is_honest device.old) → IfErr result (λ fault. IsOfMachineToo fault
        ⊎ IsWrongIn layout.now (K.of_key keys.now)
        (bucket_at (file_in layout.now (D.content device.old)) page) page fault) }
    ensures same { D.content device.new ≡ D.content device.old }
    ensures honest { D.is_honest device.new ≡ D.is_honest device.old }
    ensures cause { HasCheckCause (D.fault_count device.old) (D.fault_count device.new) result }
{
    let mut bytes = [0; PAGE_BYTES];
    read_again(device, page, &mut bytes)?;
    test_bucket(layout, keys, page, &bucket_in(&bytes, page)?)
}

/// Tests the records of a bucket, from the lowest key on.
pub(crate) fn test_bucket<K: PseudoKey>(
    layout: &Layout,
    keys: &K,
    page: u32,
    bucket: &TestedBucket,
) -> Result<(), CheckFault>
    requires { bucket.now.depth ≤ PSEUDOKEY_BITS }
    ensures ok { OnOk result
        (All (IsRightRecordIn layout.now (K.of_key keys.now) bucket.now) bucket.now.records) }
    ensures err { IfErr result (IsWrongIn layout.now (K.of_key keys.now) bucket.now page) }
{
    let range = Range {
        depth: bucket.depth(),
        pattern: bucket.pattern(),
    };
    for record in bucket.records() {
        if !range.covers(keys.of(&record.key)) {
            return Err(misplaced(page, &record.key));
        }
        match decode_in(layout, &record.key, record.value) {
            Ok(_) => {}
            Err(_) => return Err(bad_record(page, &record.key)),
        }
    }
    Ok(())
}

fn misplaced(page: u32, key: &RecordKey) -> CheckFault
    ensures { result ≡ CheckFault.Misplaced page key.now.kind key.now.queue key.now.number }
{
    CheckFault::Misplaced {
        page,
        kind: key.kind,
        queue: key.queue,
        number: key.number,
    }
}

fn bad_record(page: u32, key: &RecordKey) -> CheckFault
    ensures { result ≡ CheckFault.BadRecord page key.now.kind key.now.queue key.now.number }
{
    CheckFault::BadRecord {
        page,
        kind: key.kind,
        queue: key.queue,
        number: key.number,
    }
}
