//! Buckets, lent by the payload that spells them.

ghost use Rattle.std.specs.Prelude.{◌≡◌, length, IfSome, IfNone, Some, None};
ghost use Rattle.bucket_page.specs.Records.{record_bytes, lookup};
ghost use Rattle.bucket_page.specs.Changes.{place_in};

use crate::place::Sought;
use crate::record_key::RecordKey;
use crate::records::Records;
use std::marker::Model;

/// A bucket.
#[derive(Drop)]
pub struct BucketView<'a> {
    pub(crate) depth: u8,
    pub(crate) pattern: u32,
    pub(crate) next: u32,
    pub(crate) records: Records<'a>,
}

impl<'a> Model for BucketView<'a> {
    ghost use Rattle.std.specs.Prelude.{◌≡◌, true};
    ghost use Rattle.bucket_page.specs.Bucket.{Bucket, bucket};
    ghost use Rattle.bucket_page.specs.Records.{ascend};

    ghost Value = { Bucket };

    ghost view = { λ b. bucket b.depth b.pattern b.next b.records };

    ghost invariant = { λ b. ascend b.records ≡ true };
}

impl<'a> BucketView<'a> {
    /// The local depth: how many low bits of their pseudokeys its records have in common.
    pub fn depth(&self) -> u8
        ensures { result ≡ self.now.depth }
    {
        self.depth
    }

    /// The low bits of its records' pseudokeys.
    pub fn pattern(&self) -> u32
        ensures { result ≡ self.now.pattern }
    {
        self.pattern
    }

    /// The next bucket's page on the chain, 0 for the last.
    pub fn next(&self) -> u32
        ensures { result ≡ self.now.next }
    {
        self.next
    }

    /// The bytes of its records.
    pub fn used(&self) -> usize
        ensures { result ≡ length (record_bytes self.now.records) }
    {
        self.records.used()
    }

    /// The value of a key, lent by the payload.
    pub fn find(&self, key: &RecordKey) -> Option<&'a [u8]>
        ensures some { IfSome result (λ value. lookup key.now self.now.records ≡ Some value.now) }
        ensures none { IfNone result (lookup key.now self.now.records ≡ None) }
    {
        self.records.seek(key).value
    }

    /// Where the record of a key stands or would stand, and its value, in one walk.
    pub fn seek(&self, key: &RecordKey) -> Sought<'a>
        ensures place { result.place ≡ place_in key.now self.now.records }
        ensures some { IfSome result.value
            (λ value. lookup key.now self.now.records ≡ Some value.now) }
        ensures none { IfNone result.value (lookup key.now self.now.records ≡ None) }
    {
        self.records.seek(key)
    }

    /// The records, from the lowest key on.
    pub fn records(&self) -> Records<'a>
        ensures { result ≡ self.now.records }
    {
        self.records.again()
    }
}
