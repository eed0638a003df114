//! The bucket of a page that was tested before, lent by the page. What was tested is not tested
//! again, but where its records begin and end.

ghost use Rattle.std.specs.Prelude.{◌≡◌, ◌≤◌, Ok, Some, None, length, IfSome, IfNone};
ghost use Rattle.bucket_page.specs.declared.page.PageKind.TheVariants as kinds;
ghost use Rattle.directory.specs.declared.layout.TheConstants.{GREATEST_DEPTH};
ghost use Rattle.page_device.specs.declared.page.TheConstants.{PAYLOAD_BYTES};
ghost use Rattle.page_device.specs.Sealed.{payload_of};
ghost use Rattle.record_walk.specs.Tested.{tested_in};
ghost use Rattle.record_walk.specs.LookupWords.{Bucket, lookup, reading};

use bucket_page::{BUCKET, ROOM_BYTES, RecordKey, Records};
use directory::{GREATEST_DEPTH, HEAD_BYTES};
use numbers::fields::{four_at, two_at};
use page_device::{PAYLOAD_BYTES, Page};
use std::marker::Model;

/// A bucket. Its keys need not ascend, since nothing tests that of a page that has changed.
#[derive(Drop)]
pub struct TestedBucket<'p> {
    depth: u8,
    pattern: u32,
    next: u32,
    records: Records<'p>,
}

impl<'p> Model for TestedBucket<'p> {
    ghost use Rattle.bucket_page.specs.Bucket.{Bucket, bucket};

    ghost Value = { Bucket };

    ghost view = { λ b. bucket b.depth b.pattern b.next b.records };
}

impl<'p> TestedBucket<'p> {
    /// The local depth.
    pub fn depth(&self) -> u8
        ensures { result ≡ self.now.depth }
    {
        self.depth
    }

    /// The low bits of its records' pseudokeys.
    pub fn pattern(&self) -> u32
        ensures { result ≡ self.now.pattern }
    {
        self.pattern
    }

    /// The records, from the lowest key on.
    pub fn records(&self) -> Records<'p>
        ensures { result ≡ self.now.records }
    {
        self.records.again()
    }

    /// The value of a key, lent by the page.
    pub fn find(&self, key: &RecordKey) -> Option<&'p [u8]>
        ensures some { IfSome result (λ value. lookup key.now self.now.records ≡ Some value.now) }
        ensures none { IfNone result (lookup key.now self.now.records ≡ None) }
    {
        value_of(&self.records, key)
    }
}

/// The value of the first record of a key.
fn value_of<'p>(records: &Records<'p>, key: &RecordKey) -> Option<&'p [u8]>
    ensures some { IfSome result (λ value. lookup key.now records.now ≡ Some value.now) }
    ensures none { IfNone result (lookup key.now records.now ≡ None) }
{
    for record in records.again() {
        if record.key == *key {
            return Some(record.value);
        }
    }
    None
}

/// The bucket of a page whose payload was read as one. A page that is none has changed since.
pub fn read_tested(page: &Page) -> Option<TestedBucket<'_>>
    ensures ok { (bucket : Bucket) → reading (payload_of page.now) ≡ Ok (kinds.Bucket bucket) →
        result ≡ Some bucket }
    ensures within { IfSome result (λ bucket. bucket.depth ≤ GREATEST_DEPTH) }
{
    let (payload, _) = page.split_at(PAYLOAD_BYTES);
    tested_in(payload)
}

fn tested_in(payload: &[u8]) -> Option<TestedBucket>
    requires { length payload.now ≡ PAYLOAD_BYTES }
    ensures value { result ≡ tested_in payload.now }
    ensures within { IfSome result (λ bucket. bucket.depth ≤ GREATEST_DEPTH) }
{
    let depth = payload[1];
    let used = two_at(payload, 12) as usize;
    if payload[0] != BUCKET || depth > GREATEST_DEPTH || used > ROOM_BYTES {
        return None;
    }
    let (area, _) = payload[HEAD_BYTES..].split_at(used);
    let Some(records) = Records::of(two_at(payload, 2), area) else {
        return None;
    };
    Some(TestedBucket {
        depth,
        pattern: four_at(payload, 4),
        next: four_at(payload, 8),
        records,
    })
}
