//! A bucket cut in two, and two buddies joined, written into payloads that are handed in.

ghost use Rattle.std.specs.Prelude.{[], Bool, ◌≡◌, ◌+◌, ◌<◌, ◌≤◌, ◌==◌, length, true};
ghost use Rattle.bucket_page.specs.Reading.{bucket_in, records_in};
ghost use Rattle.bucket_page.specs.Changes.{IsBucketPage, SpellsBucket};
ghost use Rattle.bucket_page.specs.Dividing.{AreBuddies, FitTogether, MayWiden, ShareNoKey, has_bit_as, half_of, joined, lower_half, pattern_of_half, upper_half, widened};

use crate::change::{append, put_fitting, records_of};
use crate::head::Head;
use crate::pseudokey::PseudoKey;
use crate::write::write_bucket;
use directory::fields::four_at;
use directory::page_device::Payload;
use directory::{GREATEST_DEPTH, HEAD_BYTES};

/// Cuts a bucket in two: the old one keeps the records whose pseudokeys have 0 in the next bit, and
/// the new one, which is to stand on `page`, gets the others and follows it (Fagin et al. 1979).
pub fn cut<K: PseudoKey>(keys: &K, full: &Payload, page: u32, old: &mut Payload, new: &mut Payload)
    requires bucket { IsBucketPage full.now }
    requires depth { (bucket_in full.now).depth < GREATEST_DEPTH }
    ensures old { SpellsBucket (lower_half (K.of_key keys.now) page (bucket_in full.now)) old.new }
    ensures new { SpellsBucket (upper_half (K.of_key keys.now) (bucket_in full.now)) new.new }
{
    write_upper_half(keys, full, new);
    write_lower_half(keys, full, page, old);
}

/// Joins two buddies whose records fit one bucket. It is followed by what followed the right one.
pub fn join(left: &Payload, right: &Payload, into: &mut Payload)
    requires left { IsBucketPage left.now }
    requires right { IsBucketPage right.now }
    requires buddies { AreBuddies (bucket_in left.now) (bucket_in right.now) }
    requires apart { ShareNoKey (records_in left.now) (records_in right.now) }
    requires room { FitTogether (records_in left.now) (records_in right.now) }
    ensures { SpellsBucket (joined (bucket_in left.now) (bucket_in right.now)) into.new }
{
    write_widened(left, four_at(right, 8), into);
    for record in records_of(right) {
        put_fitting(into, &record.key, record.value);
    }
}

/// Writes the half of a bucket whose pseudokeys have 0 in the next bit. The other half is to stand
/// on `page`.
pub fn write_lower_half<K: PseudoKey>(keys: &K, full: &Payload, page: u32, into: &mut Payload)
    requires bucket { IsBucketPage full.now }
    requires depth { (bucket_in full.now).depth < GREATEST_DEPTH }
    ensures { SpellsBucket (lower_half (K.of_key keys.now) page (bucket_in full.now)) into.new }
{
    write_half(keys, full, false, page, into);
}

/// Writes the half of a bucket whose pseudokeys have 1 in the next bit.
pub fn write_upper_half<K: PseudoKey>(keys: &K, full: &Payload, into: &mut Payload)
    requires bucket { IsBucketPage full.now }
    requires depth { (bucket_in full.now).depth < GREATEST_DEPTH }
    ensures { SpellsBucket (upper_half (K.of_key keys.now) (bucket_in full.now)) into.new }
{
    write_half(keys, full, true, four_at(full, 8), into);
}

/// Writes the half of a bucket whose pseudokeys have 1 in the next bit, or that of those with 0.
fn write_half<K: PseudoKey>(keys: &K, full: &Payload, set: bool, next: u32, into: &mut Payload)
    requires bucket { IsBucketPage full.now }
    requires depth { (bucket_in full.now).depth < GREATEST_DEPTH }
    ensures { SpellsBucket (half_of set (K.of_key keys.now) next (bucket_in full.now)) into.new }
{
    let depth = full[1];
    let pattern = pattern_of_half(set, full);
    write_bucket(into, depth + 1, pattern, next);
    for record in records_of(full) {
        if has_bit_as(set, depth, keys.of(&record.key)) {
            append(into, &record.key, record.value);
        }
    }
}

/// The pattern of a half of a bucket.
fn pattern_of_half(set: bool, full: &Payload) -> u32
    requires bucket { IsBucketPage full.now }
    requires depth { (bucket_in full.now).depth < GREATEST_DEPTH }
    ensures { result ≡ pattern_of_half set (bucket_in full.now) }
{
    let pattern = four_at(full, 4);
    if set {
        pattern + (1 << full[1])
    } else {
        pattern
    }
}

/// Writes a bucket whose range is twice as wide, with another bucket behind it.
fn write_widened(bucket: &Payload, next: u32, into: &mut Payload)
    requires bucket { IsBucketPage bucket.now }
    requires wide { MayWiden (bucket_in bucket.now) }
    ensures { SpellsBucket (widened next (bucket_in bucket.now)) into.new }
{
    let head = Head::read(bucket);
    into.copy_from_slice(bucket);
    let (front, _) = into.split_at_mut(HEAD_BYTES);
    let wide = Head {
        depth: head.depth - 1,
        next,
        ..head
    };
    wide.write(front);
}

/// Whether the bit of a place, counted from 0 for the lowest, is set, or whether it isn't.
fn has_bit_as(set: bool, place: u8, number: u32) -> bool
    requires { place < 32 }
    ensures { result ≡ has_bit_as set place number }
{
    let bit = number >> place & 1 == 1;
    if set { bit } else { !bit }
}
