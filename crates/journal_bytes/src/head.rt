//! Heads of journals.
ghost use Rattle.std.specs.Prelude.{◌≡◌, ◌++◌, ◌≤◌, length};
ghost use Rattle.numbers.specs.Numbers.{four, eight};
ghost use Rattle.sha2.specs.Sha256.{sha256};
ghost use Rattle.journal_bytes.specs.Bytes.{begins_with, calls_front_of, end_of, front_of, head_in, head_of, named, number_of, page_zero_in, says, under_way};

use crate::image::{Sum, digest, join};
use crate::page_zero::{PageZero, SEAL_BYTES, Seal};
use numbers::fields::{eight_at, four_at, write_eight, write_four};
use page_device::DIGEST_BYTES;

/// Bytes of a head: the magic (8), the version (4), the count of pages (4), the number of the save (8),
/// the first bytes of the digest in page 0 (24), and the SHA-256 of all these (32).
pub const HEAD_BYTES: usize = 80;

/// Begins a journal of which something may have to be put back.
const UNDER_WAY: [u8; 8] = *b"msgqundo";

/// Begins one that was ended.
const ENDED: [u8; 8] = *b"msgqdone";

/// The version of a journal that has no calls.
pub const NEW_VERSION: u32 = 2;

/// Calls may stand behind its head.
pub const VERSION_OF_CALLS: u32 = 3;

/// Its heads have no number of a save.
const FIRST_VERSION: u32 = 1;

/// Bytes before the digest.
const FRONT_BYTES: usize = 48;

/// What the head of a save says that is under way.
#[derive(Clone, Copy)]
pub struct Head {
    /// How many pages the file had.
    pub count: u32,
    /// Whether calls may stand behind it.
    pub takes_calls: bool,
    /// The number of the save; 0 in version 1, where it has none.
    pub number: u64,
    /// Page 0 as it was.
    pub page_zero: PageZero,
    /// The digest with which it ends.
    pub sum: Sum,
}

/// What stands where a head is looked for.
#[derive(Clone, Copy)]
pub enum FoundHead {
    /// No whole head.
    Torn,
    /// That of a save of this number, which was ended.
    Ended(u64),
    /// One of a version that is not known here.
    OtherVersion,
    /// That of a save which is under way, or of calls.
    Whole(Head),
}

impl FoundHead {
    /// The number of its save, where it tells one.
    pub fn number(&self) -> Option<u64>
        ensures { result ≡ number_of self.now }
    {
        match self {
            FoundHead::Torn | FoundHead::OtherVersion => None,
            FoundHead::Ended(number) => Some(*number),
            FoundHead::Whole(head) => Some(head.number),
        }
    }
}

/// The bytes of the head of a save, and the digest with which it ends.
pub fn spell_head(count: u32, number: u64, seal: &Seal) -> ([u8; HEAD_BYTES], Sum)
    ensures bytes { result.0 ≡ head_of (front_of count number seal.now) }
    ensures sum { result.1 ≡ sha256 (front_of count number seal.now) }
{
    let front = spell_front(&UNDER_WAY, NEW_VERSION, count, number, seal);
    finish(&front)
}

/// The same of a head behind which calls stand.
pub fn spell_head_of_calls(count: u32, number: u64, seal: &Seal) -> ([u8; HEAD_BYTES], Sum)
    ensures bytes { result.0 ≡ head_of (calls_front_of count number seal.now) }
    ensures sum { result.1 ≡ sha256 (calls_front_of count number seal.now) }
{
    let front = spell_front(&UNDER_WAY, VERSION_OF_CALLS, count, number, seal);
    finish(&front)
}

/// The bytes that take the place of a head where its save is ended.
pub fn spell_end(number: u64) -> [u8; HEAD_BYTES]
    ensures { result ≡ end_of number }
{
    let front = spell_front(&ENDED, NEW_VERSION, 0, number, &[0; SEAL_BYTES]);
    let (bytes, _) = finish(&front);
    bytes
}

/// All of a head before its digest.
fn spell_front(
    magic: &[u8; 8],
    version: u32,
    count: u32,
    number: u64,
    seal: &Seal,
) -> [u8; FRONT_BYTES]
    ensures { result
        ≡ (magic.now ++ (four version ++ four count)) ++ (eight number ++ seal.now) }
{
    let mut version_bytes = [0; 4];
    write_four(&mut version_bytes, version);
    let mut count_bytes = [0; 4];
    write_four(&mut count_bytes, count);
    let mut versions = [0; 8];
    join(&version_bytes, &count_bytes, &mut versions);
    let mut first = [0; 16];
    join(magic, &versions, &mut first);
    let mut number_bytes = [0; 8];
    write_eight(&mut number_bytes, number);
    let mut last = [0; 32];
    join(&number_bytes, seal, &mut last);
    let mut front = [0; FRONT_BYTES];
    join(&first, &last, &mut front);
    front
}

/// A head with the digest of what stands before.
fn finish(front: &[u8; FRONT_BYTES]) -> ([u8; HEAD_BYTES], Sum)
    ensures bytes { result.0 ≡ head_of front.now }
    ensures sum { result.1 ≡ sha256 front.now }
{
    let sum = digest(front);
    let mut bytes = [0; HEAD_BYTES];
    join(front, &sum, &mut bytes);
    (bytes, sum)
}

/// What the bytes say that stand where a head is looked for.
pub fn read_head(bytes: &[u8; HEAD_BYTES]) -> FoundHead
    ensures { result ≡ says bytes.now }
{
    let (front, sum) = bytes.split_at(FRONT_BYTES);
    let right = digest(front);
    if sum == right.as_slice() {
        return named(front, &right);
    }
    FoundHead::Torn
}

/// What a head says whose digest is right.
fn named(front: &[u8], sum: &Sum) -> FoundHead
    requires long { length front.now ≡ 48 }
    requires sum { sum.now ≡ sha256 front.now }
    ensures { result ≡ named front.now }
{
    if begins_with(&UNDER_WAY, front) {
        return under_way(front, sum);
    }
    if begins_with(&ENDED, front) && four_at(front, 8) == NEW_VERSION {
        return FoundHead::Ended(eight_at(front, 16));
    }
    FoundHead::Torn
}

/// What one says of a save that is under way.
fn under_way(front: &[u8], sum: &Sum) -> FoundHead
    requires long { length front.now ≡ 48 }
    requires sum { sum.now ≡ sha256 front.now }
    ensures { result ≡ under_way front.now }
{
    let version = four_at(front, 8);
    if version < FIRST_VERSION || VERSION_OF_CALLS < version {
        return FoundHead::OtherVersion;
    }
    FoundHead::Whole(Head {
        count: four_at(front, 12),
        takes_calls: version == VERSION_OF_CALLS,
        number: number_in(front),
        page_zero: page_zero_in(front),
        sum: *sum,
    })
}

/// The number of its save.
fn number_in(front: &[u8]) -> u64
    requires { length front.now ≡ 48 }
    ensures { result ≡ (head_in front.now).number }
{
    if four_at(front, 8) == FIRST_VERSION {
        return 0;
    }
    eight_at(front, 16)
}

/// How it knows page 0.
fn page_zero_in(front: &[u8]) -> PageZero
    requires { length front.now ≡ 48 }
    ensures { result ≡ page_zero_in front.now }
{
    if four_at(front, 8) == FIRST_VERSION {
        let (_, named) = front.split_at(16);
        let mut sum = [0; DIGEST_BYTES];
        sum.copy_from_slice(named);
        return PageZero::Digest(sum);
    }
    let (_, named) = front.split_at(24);
    let mut seal = [0; SEAL_BYTES];
    seal.copy_from_slice(named);
    PageZero::Seal(seal)
}

/// Whether this magic stands first.
fn begins_with(magic: &[u8; 8], front: &[u8]) -> bool
    requires { 8 ≤ length front.now }
    ensures { result ≡ begins_with magic.now front.now }
{
    &front[..8] == magic.as_slice()
}
