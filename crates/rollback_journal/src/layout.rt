//! The bytes of a journal: a head, and then calls and images, each with a digest of all that stands
//! before.
ghost use Rattle.std.specs.Prelude.{◌+◌, ◌≤◌, length};

use byteorder::{BigEndian, ByteOrder};
use safe_device::page_device::{DIGEST_BYTES, PAGE_BYTES, PAYLOAD_BYTES, Page};
use sha2::{Digest, Sha256};

/// A digest, SHA-256.
pub type Sum = [u8; DIGEST_BYTES];

/// Bytes of a head: the magic (8), the version (4), the count of pages (4), the number of the save
/// (8), the first bytes of the digest in page 0 as it was (24), and the SHA-256 of all these (32).
pub const HEAD_BYTES: usize = 80;

/// Bytes of an image: its page's number (4), the page (4,096), and the digest (32) of the digest
/// before and of both.
pub const IMAGE_BYTES: usize = 4132;

/// Bytes of the word with which an entry begins.
pub const WORD_BYTES: u64 = 4;

/// Bytes of the shortest entry: its word and its digest.
pub const LEAST_ENTRY: u64 = 36;

/// An addition of calls has no more bytes.
pub const MOST_CALL_BYTES: usize = 0x3fff_ffff;

/// The bit of a word that says that calls follow. The others are how many bytes they have.
const CALLS: u32 = 0x8000_0000;

/// The word that says that all images before it were put back. No page has this number.
const PUT_BACK: u32 = 0x4000_0000;

/// Begins a journal of which something may have to be put back.
const UNDER_WAY: [u8; 8] = *b"msgqundo";

/// Begins one that was ended.
const ENDED: [u8; 8] = *b"msgqdone";

const VERSION: u32 = 2;

/// Calls may stand behind its head. One that has none is of `VERSION`.
const VERSION_OF_CALLS: u32 = 3;

/// Its heads have no number, and in the place of that and of a seal the SHA-256 of page 0.
const FIRST_VERSION: u32 = 1;

const VERSION_AT: usize = 8;

const COUNT_AT: usize = 12;

/// What says of which save and of which file it is.
const NAMED_AT: usize = 16;

const SEAL_AT: usize = 24;

const SUM_AT: usize = 48;

const SEAL_BYTES: usize = 24;

/// The first bytes of the digest with which a page ends.
pub type Seal = [u8; SEAL_BYTES];

/// How a head knows page 0 as it was when the journal began.
#[derive(Clone, Copy)]
pub enum PageZero {
    /// By its seal.
    Seal(Seal),
    /// By its SHA-256, as version 1 does.
    Digest(Sum),
}

impl PageZero {
    /// Whether it is this page.
    pub fn is(&self, page: &Page) -> bool {
        match self {
            PageZero::Seal(seal) => seal_of(page) == *seal,
            PageZero::Digest(sum) => digest(page) == *sum,
        }
    }
}

/// What a head says.
#[derive(Clone, Copy)]
pub struct Head {
    /// How many pages the file had.
    pub count: u32,
    /// Whether calls may stand behind it.
    pub takes_calls: bool,
    /// The number of the save; 0 in version 1, where it has none.
    pub number: u64,
    /// Page 0 as it was.
    pub page_zero: PageZero,
}

/// What stands where a head is looked for.
#[derive(Clone, Copy)]
pub enum FoundHead {
    /// No whole head, as where a kill or a crash has cut off its writing.
    Torn,
    /// The head of a save of this number that was ended.
    Ended(u64),
    /// A head of another version.
    OtherVersion,
    /// A whole head, and the digest with which it ends.
    Whole(Head, Sum),
}

/// The bytes of the head of a save, and the digest with which it ends.
pub fn spell_head(head: &Head, seal: &Seal) -> ([u8; HEAD_BYTES], Sum) {
    let version = if head.takes_calls {
        VERSION_OF_CALLS
    } else {
        VERSION
    };
    let mut bytes = [0; HEAD_BYTES];
    put(&UNDER_WAY, 0, &mut bytes);
    put(&big_endian(head.count), COUNT_AT, &mut bytes);
    put(seal, SEAL_AT, &mut bytes);
    let sum = finish(version, head.number, &mut bytes);
    (bytes, sum)
}

/// The bytes that take the place of a head where its save is ended.
pub fn spell_end(number: u64) -> [u8; HEAD_BYTES] {
    let mut bytes = [0; HEAD_BYTES];
    put(&ENDED, 0, &mut bytes);
    let _ = finish(VERSION, number, &mut bytes);
    bytes
}

/// Puts the version and the number in their places, and the digest of all at the end.
fn finish(version: u32, number: u64, bytes: &mut [u8; HEAD_BYTES]) -> Sum {
    put(&big_endian(version), VERSION_AT, bytes);
    BigEndian::write_u64(&mut bytes[NAMED_AT..SEAL_AT], number);
    let sum = digest(&bytes[..SUM_AT]);
    put(&sum, SUM_AT, bytes);
    sum
}

/// The bytes of an image that ends with this digest.
pub fn spell_image(number: &[u8; 4], page: &Page, sum: &Sum) -> [u8; IMAGE_BYTES] {
    let mut bytes = [0; IMAGE_BYTES];
    put(number, 0, &mut bytes);
    put(page, number.len(), &mut bytes);
    put(sum, IMAGE_BYTES - DIGEST_BYTES, &mut bytes);
    bytes
}

/// Puts a part in its place.
fn put(part: &[u8], at: usize, whole: &mut [u8])
    requires { at + length part.now ≤ length whole.old }
{
    whole[at..at + part.len()].copy_from_slice(part);
}

/// A number in four bytes, the highest first.
pub fn big_endian(number: u32) -> [u8; 4] {
    let mut bytes = [0; 4];
    BigEndian::write_u32(&mut bytes, number);
    bytes
}

/// What the bytes of a head say.
pub fn read_head(bytes: &[u8; HEAD_BYTES]) -> FoundHead {
    let sum = digest(&bytes[..SUM_AT]);
    if &bytes[SUM_AT..] != sum.as_slice() {
        return FoundHead::Torn;
    }
    let version = BigEndian::read_u32(&bytes[VERSION_AT..COUNT_AT]);
    let number = BigEndian::read_u64(&bytes[NAMED_AT..SEAL_AT]);
    let magic = &bytes[..VERSION_AT];
    if magic == ENDED.as_slice() && version == VERSION {
        return FoundHead::Ended(number);
    }
    if magic != UNDER_WAY.as_slice() {
        return FoundHead::Torn;
    }
    let (number, page_zero) = match version {
        VERSION | VERSION_OF_CALLS => (number, PageZero::Seal(seal_at(SEAL_AT, bytes))),
        FIRST_VERSION => (0, PageZero::Digest(sum_at(NAMED_AT, bytes))),
        _ => return FoundHead::OtherVersion,
    };
    let count = BigEndian::read_u32(&bytes[COUNT_AT..NAMED_AT]);
    let head = Head {
        count,
        takes_calls: version == VERSION_OF_CALLS,
        number,
        page_zero,
    };
    FoundHead::Whole(head, sum)
}

/// The digest that stands there.
fn sum_at(at: usize, bytes: &[u8]) -> Sum
    requires { at + 32 ≤ length bytes.now }
{
    let mut sum = [0; DIGEST_BYTES];
    sum.copy_from_slice(&bytes[at..at + DIGEST_BYTES]);
    sum
}

/// The seal that stands there.
fn seal_at(at: usize, bytes: &[u8]) -> Seal
    requires { at + 24 ≤ length bytes.now }
{
    let mut seal = [0; SEAL_BYTES];
    seal.copy_from_slice(&bytes[at..at + SEAL_BYTES]);
    seal
}

/// The seal of a page. It was computed when the page was sealed, and is not computed again.
pub fn seal_of(page: &Page) -> Seal {
    seal_at(PAYLOAD_BYTES, page)
}

/// The digest of bytes.
fn digest(bytes: &[u8]) -> Sum {
    let mut hasher = Sha256::new();
    hasher.update(bytes);
    hasher.finalize()
}

/// The digest with which an entry ends, from that of what stands before it, its word and its bytes.
pub fn chained(before: &Sum, word: &Word, bytes: &[u8]) -> Sum {
    let mut hasher = begin_sum(before, word);
    hasher.update(bytes);
    hasher.finalize()
}

/// The same, where its bytes are yet to come.
pub fn begin_sum(before: &Sum, word: &Word) -> Sha256 {
    let mut hasher = Sha256::new();
    hasher.update(before);
    hasher.update(word);
    hasher
}

/// With which an entry begins.
pub type Word = [u8; 4];

/// What a word says that follows.
#[derive(Clone, Copy, PartialEq, Eq)]
pub enum Entry {
    /// The image of a page.
    Image,
    /// An addition of calls of so many bytes.
    Calls(u32),
    /// Nothing: the images before it were put back.
    PutBack,
}

impl Entry {
    /// How many bytes it has with its word and its digest.
    pub fn bytes(self) -> u64 {
        match self {
            Entry::Image => IMAGE_BYTES as u64,
            Entry::Calls(bytes) => LEAST_ENTRY + bytes as u64,
            Entry::PutBack => LEAST_ENTRY,
        }
    }
}

/// What a word says, behind a head that takes calls or not.
pub fn read_word(word: &Word, takes_calls: bool) -> Entry {
    let number = BigEndian::read_u32(word);
    if takes_calls && number == PUT_BACK {
        return Entry::PutBack;
    }
    if takes_calls && number & CALLS != 0 {
        return Entry::Calls(number & !CALLS);
    }
    Entry::Image
}

/// The word of an addition of so many bytes, no more than the most.
pub fn word_of_calls(bytes: usize) -> Option<Word> {
    if bytes > MOST_CALL_BYTES {
        return None;
    }
    Some(big_endian(CALLS | bytes as u32))
}

/// The bytes of the entry that says that the images before it were put back, and its digest, from that
/// of what stands before it.
pub fn spell_put_back(before: &Sum) -> ([u8; LEAST_ENTRY as usize], Sum) {
    let mut bytes = [0; LEAST_ENTRY as usize];
    let word = big_endian(PUT_BACK);
    let sum = chained(before, &word, &[]);
    put(&word, 0, &mut bytes);
    put(&sum, WORD_BYTES as usize, &mut bytes);
    (bytes, sum)
}

/// Where an image begins, counted from 0, of those that begin there.
pub fn image_at(first: u64, index: u32) -> u64 {
    first.saturating_add(index as u64 * IMAGE_BYTES as u64)
}

/// Where a page begins.
pub fn page_at(page: u32) -> u64 {
    page as u64 * PAGE_BYTES as u64
}
