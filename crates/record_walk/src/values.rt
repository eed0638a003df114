//! The record that a page has at a key.

ghost use Rattle.std.specs.Prelude.{◌≡◌, ℕ, List, Option, IfErr, IfOk, IfSome, IsOk};
ghost use Rattle.record_walk.specs.Answers.{AnswersFor, IsRecordAt, StandsAt};
ghost use Rattle.record_walk.specs.LookupWords.{RecordKey};

use crate::fault::WalkFault;
use crate::page::value_in;
use crate::versions::decode_in;
use bucket_page::RecordKey;
use directory::Layout;
use page_device::Page;
use queue_records::Record;

/// The record at a key, none where there is none. One that can't be read has changed since it was
/// tested.
pub(crate) fn record_in<'p>(
    layout: &Layout,
    bytes: &'p Page,
    page: u32,
    key: &RecordKey,
) -> Result<Option<Record<'p>>, WalkFault>
    ensures ok { (held : RecordKey → Option (List ℕ)) →
        AnswersFor layout.now held key.now bytes.now → IfOk result (IsRecordAt held key.now) }
    ensures stands { (held : RecordKey → Option (List ℕ)) →
        AnswersFor layout.now held key.now bytes.now →
        IfOk result (λ found. IfSome found (StandsAt held key.now)) }
    ensures read { (held : RecordKey → Option (List ℕ)) →
        AnswersFor layout.now held key.now bytes.now → IsOk result }
    ensures err { IfErr result (λ fault. fault ≡ WalkFault.Changed page) }
{
    let Some(value) = value_in(layout, bytes, page, key)? else {
        return Ok(None);
    };
    match decode_in(layout, key, value) {
        Ok(found) => Ok(Some(found)),
        Err(_) => Err(WalkFault::Changed { page }),
    }
}
