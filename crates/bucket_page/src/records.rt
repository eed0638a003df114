//! Records one after the other, lent by the bytes that hold them.

ghost use Rattle.std.specs.Prelude.{◌≡◌, true, false, length, ◌<◌, ◌+◌, ◌≤◌, ◌^◌, IfSome, IfNone, Some, None};
ghost use Rattle.bucket_page.specs.Keys.{is_below, owner_of};
ghost use Rattle.bucket_page.specs.Records.{Pair, pair_at, after_pair, pairs_of, begins, fills, record_bytes, lookup, ascend, is_above};
ghost use Rattle.bucket_page.specs.Changes.{place_in};
ghost use Rattle.directory.specs.numbers.Numbers.{two_at};

use crate::layout::RECORD_HEAD_BYTES;
use crate::place::{Place, Sought};
use crate::record_key::{RecordKey, key_at, number_at, owner_at};
use directory::fields::two_at;
use std::marker::Model;

/// A record: its key, and its value as the page holds it.
#[derive(Clone, Copy)]
pub struct Record<'a> {
    pub key: RecordKey,
    pub value: &'a [u8],
}

/// The records of a bucket, from the lowest key on.
#[derive(Drop)]
pub struct Records<'a> {
    count: u16,
    bytes: &'a [u8],
}

impl<'a> Model for Records<'a> {
    ghost use Rattle.std.specs.Prelude.{◌≡◌, List, true};
    ghost use Rattle.bucket_page.specs.Records.{Pair, pairs_of, fills};

    ghost Value = { List Pair };

    ghost view = { λ r. pairs_of r.count r.bytes.now };

    ghost invariant = { λ r. fills r.count r.bytes.now ≡ true };
}

impl<'a> Iterator for Records<'a> {
    type Item = Record<'a>;

    ghost use Rattle.std.specs.Iterator.{YieldsFirstBy, item_count};
    ghost use Rattle.bucket_page.specs.Records.{pair};

    ghost next_gives = { YieldsFirstBy (λ r. pair r.key r.value.now) (λ s. s) };

    ghost remaining = { item_count (λ s. s) };

    #[tactic(auto, using(crate::proofs::Steps::fills_rest, crate::proofs::Steps::pairs_first))]
    fn next(&mut self) -> Option<Record<'a>> {
        if self.count == 0 {
            return None;
        }
        let (first, after) = split_record(self.bytes);
        self.count -= 1;
        self.bytes = after;
        Some(first)
    }
}

impl<'a> Records<'a> {
    /// So many records, where they fill the bytes.
    pub fn of(count: u16, bytes: &'a [u8]) -> Option<Records<'a>>
        ensures some { IfSome result (λ records. records ≡ pairs_of count bytes.now) }
        ensures fills { IfSome result (λ _. fills count bytes.now ≡ true) }
        ensures none { IfNone result (fills count bytes.now ≡ false) }
    {
        if !fill(count, bytes) {
            return None;
        }
        Some(Records { count, bytes })
    }

    /// So many records, which are known to fill the bytes.
    pub fn known(count: u16, bytes: &'a [u8]) -> Records<'a>
        requires { fills count bytes.now ≡ true }
        ensures { result ≡ pairs_of count bytes.now }
    {
        Records { count, bytes }
    }

    /// The same records, once more from the lowest key on.
    pub fn again(&self) -> Records<'a>
        ensures { result ≡ self.now }
    {
        Records {
            count: self.count,
            bytes: self.bytes,
        }
    }

    /// The bytes that they take.
    #[tactic(auto, using(crate::proofs::Steps::length_records))]
    pub fn used(&self) -> usize
        ensures { result ≡ length (record_bytes self.now) }
    {
        self.bytes.len()
    }

    /// Where the record of a key stands or would stand, and its value, in one walk. Each record
    /// below it is compared with it once, and none is read behind the first that is not below.
    pub fn seek(&self, key: &RecordKey) -> Sought<'a>
        requires { ascend self.now ≡ true }
        ensures place { result.place ≡ place_in key.now self.now }
        ensures some { IfSome result.value (λ value. lookup key.now self.now ≡ Some value.now) }
        ensures none { IfNone result.value (lookup key.now self.now ≡ None) }
    {
        let bytes = self.bytes;
        let owner = key.owner();
        let mut at = 0;
        'walk: while at < bytes.len() {
            let (_, rest) = bytes.split_at(at);
            let found = first_owner(rest);
            if found == owner {
                let number = first_number(rest);
                if number >= key.number {
                    let place = Place { key: *key, at };
                    if number > key.number {
                        return Sought { place, value: None };
                    }
                    let (record, _) = split_record(rest);
                    return Sought {
                        place,
                        value: Some(record.value),
                    };
                }
            } else if found > owner {
                let place = Place { key: *key, at };
                return Sought { place, value: None };
            }
            at += first_len(rest);
        }
        Sought {
            place: Place { key: *key, at },
            value: None,
        }
    }

    /// Whether each key stands above the one before it.
    pub fn ascend(&self) -> bool
        ensures { result ≡ ascend self.now }
    {
        let mut low: Option<RecordKey> = None;
        for record in self.again() {
            if !is_above(&low, &record.key) {
                return false;
            }
            low = Some(record.key);
        }
        true
    }
}

/// Whether a key stands above the one before it, where there is one.
fn is_above(low: &Option<RecordKey>, key: &RecordKey) -> bool
    ensures { result ≡ is_above low.now key.now }
{
    match low {
        None => true,
        Some(low) => low.is_below(key),
    }
}

/// Whether a record lies whole within the bytes.
fn begins(bytes: &[u8]) -> bool
    ensures { result ≡ begins bytes.now }
{
    bytes.len() >= RECORD_HEAD_BYTES
        && two_at(bytes, 0) as usize <= bytes[RECORD_HEAD_BYTES..].len()
}

/// The kind and the queue of the key of the record that stands first.
fn first_owner(bytes: &[u8]) -> u64
    requires { begins bytes.now ≡ true }
    ensures value { result ≡ owner_of (pair_at bytes.now).key }
    ensures small { (pair_at bytes.now).key.queue < 2 ^ 32 }
{
    owner_at(&bytes[2..])
}

/// The number of its key.
fn first_number(bytes: &[u8]) -> u64
    requires { begins bytes.now ≡ true }
    ensures { result ≡ (pair_at bytes.now).key.number }
{
    number_at(&bytes[2..])
}

/// The bytes of the record that stands first.
fn first_len(bytes: &[u8]) -> usize
    requires { begins bytes.now ≡ true }
    ensures { result ≡ RECORD_HEAD_BYTES + two_at 0 bytes.now }
{
    RECORD_HEAD_BYTES + two_at(bytes, 0) as usize
}

/// The record that stands first, and the bytes after it.
fn split_record(bytes: &[u8]) -> (Record, &[u8])
    requires { begins bytes.now ≡ true }
    ensures key { result.0.key ≡ (pair_at bytes.now).key }
    ensures value { result.0.value.now ≡ (pair_at bytes.now).value }
    ensures after { result.1.now ≡ after_pair bytes.now }
{
    let len = two_at(bytes, 0) as usize;
    let (_, rest) = bytes.split_at(RECORD_HEAD_BYTES);
    let (value, after) = rest.split_at(len);
    (
        Record {
            key: key_at(&bytes[2..]),
            value,
        },
        after,
    )
}

/// Whether so many records fill the bytes.
#[tactic(auto, using(crate::proofs::Steps::fills_more, crate::proofs::Steps::fills_none))]
fn fill(count: u16, bytes: &[u8]) -> bool
    ensures { result ≡ fills count bytes.now }
{
    let mut rest = bytes;
    for _ in 0..count {
        if !begins(rest) {
            return false;
        }
        let (_, after) = split_record(rest);
        rest = after;
    }
    rest.is_empty()
}
