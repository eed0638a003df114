//! Changes of a bucket in its payload.

ghost use Rattle.std.specs.Prelude.{[], ◌∷◌, ◌++◌, true, ◌≡◌, ◌↔◌, ◌+◌, ◌<◌, ◌≤◌, IsErr, IsSome, OnErr, OnOk, Some, None, length};
ghost use Rattle.bucket_page.specs.Records.{ascend, pair, lookup, record_bytes};
ghost use Rattle.bucket_page.specs.Reading.{records_in, used_at};
ghost use Rattle.bucket_page.specs.Changes.{Appends, Changes, InsertsAt, IsBucketPage, IsPlace, fronted, inserted, place_in, removed, value_of_key};

use crate::head::set_counts;
use crate::layout::{RECORD_HEAD_BYTES, ROOM_BYTES};
use crate::place::Place;
use crate::record_key::RecordKey;
use crate::records::Records;
use crate::splice::{insert, take_out};
use directory::HEAD_BYTES;
use directory::fields::{set_bytes, two_at};
use directory::page_device::{PAYLOAD_BYTES, Payload};
use thiserror::Error;

/// A record has more bytes than its bucket has room. The bucket is as it was.
#[derive(Clone, Copy, Debug, PartialEq, Eq, Error)]
#[error("the record does not fit its bucket")]
pub struct DoesNotFit;

/// Puts a record into a bucket that has none of its key, in its place by the order of keys.
#[tactic(auto, using(crate::proofs::ChangeLaws::opened))]
pub fn put(payload: &mut Payload, key: &RecordKey, value: &[u8]) -> Result<(), DoesNotFit>
    requires bucket { IsBucketPage payload.old }
    requires absent { lookup key.now (records_in payload.old) ≡ None }
    ensures ok { OnOk result (Changes (inserted (pair key.now value.now)) payload.old payload.new) }
    ensures full { IsErr result ↔ ROOM_BYTES
        < length (record_bytes (records_in payload.old)) + (RECORD_HEAD_BYTES + length value.now) }
    ensures err { OnErr result (payload.new ≡ payload.old) }
{
    let used = two_at(payload, 12) as usize;
    if value.len() > ROOM_BYTES {
        return Err(DoesNotFit);
    }
    if used + (RECORD_HEAD_BYTES + value.len()) > ROOM_BYTES {
        return Err(DoesNotFit);
    }
    put_fitting(payload, key, value);
    Ok(())
}

/// Puts a record that fits.
pub(crate) fn put_fitting(payload: &mut Payload, key: &RecordKey, value: &[u8])
    requires bucket { IsBucketPage payload.old }
    requires absent { lookup key.now (records_in payload.old) ≡ None }
    requires room { used_at payload.old + (RECORD_HEAD_BYTES + length value.now) ≤ ROOM_BYTES }
    ensures { Changes (inserted (pair key.now value.now)) payload.old payload.new }
{
    let place = place(payload, key);
    put_at(payload, &place, value);
}

/// Puts a record that fits at the place of its key, which has none.
pub fn put_at(payload: &mut Payload, place: &Place, value: &[u8])
    requires bucket { IsBucketPage payload.old }
    requires place { IsPlace place.now (records_in payload.old) }
    requires absent { lookup place.now.key (records_in payload.old) ≡ None }
    requires room { length (record_bytes (records_in payload.old))
        + (RECORD_HEAD_BYTES + length value.now) ≤ ROOM_BYTES }
    ensures { Changes (inserted (pair place.now.key value.now)) payload.old payload.new }
{
    insert_record(payload, place.at, &place.key, value);
}

/// Puts a record that fits behind all others, where it keeps the order.
pub(crate) fn append(payload: &mut Payload, key: &RecordKey, value: &[u8])
    requires bucket { IsBucketPage payload.old }
    requires order { ascend (records_in payload.old ++ pair key.now value.now ∷ []) ≡ true }
    requires room { used_at payload.old + (RECORD_HEAD_BYTES + length value.now) ≤ ROOM_BYTES }
    ensures { Appends (pair key.now value.now) payload.old payload.new }
{
    let used = two_at(payload, 12) as usize;
    insert_record(payload, used, key, value);
}

/// Replaces the first bytes of the value of a key that the bucket has. The others
/// stay where they are.
pub fn replace_front(payload: &mut Payload, key: &RecordKey, front: &[u8])
    requires bucket { IsBucketPage payload.old }
    requires there { IsSome (lookup key.now (records_in payload.old)) }
    requires long { length front.now ≤ length (value_of_key key.now (records_in payload.old)) }
    ensures ok { Changes (fronted key.now front.now) payload.old payload.new }
{
    let place = place(payload, key);
    replace_front_at(payload, &place, front);
}

/// Replaces the first bytes of the value that stands at a place. The others stay where they are.
pub fn replace_front_at(payload: &mut Payload, place: &Place, front: &[u8])
    requires bucket { IsBucketPage payload.old }
    requires place { IsPlace place.now (records_in payload.old) }
    requires there { IsSome (lookup place.now.key (records_in payload.old)) }
    requires long { length front.now
        ≤ length (value_of_key place.now.key (records_in payload.old)) }
    ensures ok { Changes (fronted place.now.key front.now) payload.old payload.new }
{
    let (_, body) = payload.split_at_mut(HEAD_BYTES);
    set_bytes(body, place.at + RECORD_HEAD_BYTES, front);
}

/// Takes the record of a key that the bucket has.
pub fn remove(payload: &mut Payload, key: &RecordKey)
    requires bucket { IsBucketPage payload.old }
    requires there { IsSome (lookup key.now (records_in payload.old)) }
    ensures ok { Changes (removed key.now) payload.old payload.new }
{
    let place = place(payload, key);
    remove_at(payload, &place);
}

/// Takes the record out that stands at a place.
pub fn remove_at(payload: &mut Payload, place: &Place)
    requires bucket { IsBucketPage payload.old }
    requires place { IsPlace place.now (records_in payload.old) }
    requires there { IsSome (lookup place.now.key (records_in payload.old)) }
    ensures ok { Changes (removed place.now.key) payload.old payload.new }
{
    let count = two_at(payload, 2);
    let used = two_at(payload, 12) as usize;
    let (front, body) = payload.split_at_mut(HEAD_BYTES);
    let len = RECORD_HEAD_BYTES + two_at(body, place.at) as usize;
    take_out(body, used, place.at, len);
    set_counts(front, count - 1, (used - len) as u16);
}

/// Puts a record at a place among the bytes of records.
#[tactic(auto, using(crate::proofs::ChangeLaws::opened))]
fn insert_record(payload: &mut Payload, at: usize, key: &RecordKey, value: &[u8])
    requires bucket { IsBucketPage payload.old }
    requires at { at ≤ used_at payload.old }
    requires room { used_at payload.old + (RECORD_HEAD_BYTES + length value.now) ≤ ROOM_BYTES }
    ensures { InsertsAt at (pair key.now value.now) payload.old payload.new }
{
    key.fits_bytes();
    let count = two_at(payload, 2);
    let used = two_at(payload, 12) as usize;
    let (front, body) = payload.split_at_mut(HEAD_BYTES);
    insert(body, used, at, key, value);
    let len = RECORD_HEAD_BYTES + value.len();
    set_counts(front, count + 1, (used + len) as u16);
}

/// The place of a key.
#[tactic(auto, using(crate::proofs::ChangeLaws::opened))]
fn place(bytes: &[u8], key: &RecordKey) -> Place
    requires long { length bytes.now ≡ PAYLOAD_BYTES }
    requires bucket { IsBucketPage bytes.now }
    ensures { result ≡ place_in key.now (records_in bytes.now) }
{
    records_of(bytes).seek(key).place
}

/// The records of a bucket's payload.
#[tactic(auto, using(crate::proofs::ChangeLaws::opened))]
pub(crate) fn records_of(bytes: &[u8]) -> Records
    requires long { length bytes.now ≡ PAYLOAD_BYTES }
    requires bucket { IsBucketPage bytes.now }
    ensures { result ≡ records_in bytes.now }
{
    let (_, body) = bytes.split_at(HEAD_BYTES);
    let (area, _) = body.split_at(two_at(bytes, 12) as usize);
    Records::known(two_at(bytes, 2), area)
}
