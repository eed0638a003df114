//! A page is read once more, and what it has of a key.

ghost use Rattle.std.specs.Prelude.{◌≡◌, ◌≤◌, ◌⊎◌, ℕ, List, Option, Some, None, length, IsTrue, IfErr, IfOk, IfSome, IfNone, IsOk, OnOk};
ghost use Rattle.page_device.specs.Sealed.{payload_of};
ghost use Rattle.record_walk.specs.Answers.{AnswersFor, entry_for};
ghost use Rattle.record_walk.specs.Versions.{today_in};
ghost use Rattle.record_walk.specs.LookupWords.{IsOfMachine, IsCaused, RecordKey, payload_on};

use crate::fault::WalkFault;
use crate::tested::read_tested;
use bucket_page::{PseudoKey, RecordKey};
use directory::{Layout, index};
use file_walk::Outline;
use page_device::{DeviceFault, Page, PageDevice};

/// The page that the directory names for a key.
pub(crate) fn page_of<K: PseudoKey>(outline: &Outline, keys: &K, key: &RecordKey) -> u32
    ensures { result ≡ entry_for outline.now (K.of_key keys.now key.now) }
{
    outline.keeps_layout();
    outline.entry(index(keys.of(key), outline.depth()))
}

/// Reads a page whose digest was tested before.
pub(crate) fn read_again<D: PageDevice>(
    device: &mut D,
    page: u32,
    bytes: &mut Page,
) -> Result<(), WalkFault>
    ensures ok { IsTrue (D.is_honest device.old) →
        OnOk result (payload_of bytes.new ≡ payload_on (D.content device.old) page) }
    ensures err { IfErr result (λ fault.
        IsOfMachine fault ⊎ (length (D.content device.old) ≤ page)) }
    ensures same { D.content device.new ≡ D.content device.old }
    ensures honest { D.is_honest device.new ≡ D.is_honest device.old }
    ensures later { D.fault_count device.old ≤ D.fault_count device.new }
    ensures cause { IsCaused (D.fault_count device.old) (D.fault_count device.new) result }
{
    match device.read(page, bytes) {
        Ok(()) => Ok(()),
        Err(DeviceFault::PastEnd) => Err(WalkFault::Changed { page }),
        Err(_) => Err(WalkFault::Device),
    }
}

/// The value of a key, lent by the page of a bucket, as the layout of the file has it. A page of
/// another kind has changed since it was tested.
pub(crate) fn value_in<'p>(
    layout: &Layout,
    bytes: &'p Page,
    page: u32,
    key: &RecordKey,
) -> Result<Option<&'p [u8]>, WalkFault>
    ensures some { (held : RecordKey → Option (List ℕ)) →
        AnswersFor layout.now held key.now bytes.now → IfOk result (λ found. IfSome found
        (λ value. held key.now ≡ Some (today_in layout.now key.now value.now))) }
    ensures none { (held : RecordKey → Option (List ℕ)) →
        AnswersFor layout.now held key.now bytes.now →
        IfOk result (λ found. IfNone found (held key.now ≡ None)) }
    ensures ok { (held : RecordKey → Option (List ℕ)) →
        AnswersFor layout.now held key.now bytes.now → IsOk result }
    ensures err { IfErr result (λ fault. fault ≡ WalkFault.Changed page) }
{
    match read_tested(bytes) {
        Some(bucket) => Ok(bucket.find(key)),
        None => Err(WalkFault::Changed { page }),
    }
}
