//! Entries of a journal: which one stands there, and whether it goes on from what stands before it.
ghost use Rattle.std.specs.Prelude.{◌≡◌, ◌≤◌, length};
ghost use Rattle.journal_bytes.specs.Entries.{calls_sum, calls_word, entry_in, image_in, put_back_of, put_back_sum, sum_in};

use crate::image::{Sum, digest_behind, join};
use numbers::fields::{four_at, write_four};
use page_device::{DIGEST_BYTES, PAGE_BYTES, Page};
use sha2::{Digest, Sha256};

/// Bytes of the word with which an entry begins.
pub const WORD_BYTES: usize = 4;

/// Bytes of the shortest entry: its word and its digest.
pub const LEAST_ENTRY: usize = 36;

/// An addition of calls has no more bytes.
pub const MOST_CALLS: u32 = 0x3fff_ffff;

/// The highest bit: calls follow, whose length the others are.
const CALLS: u32 = 0x8000_0000;

/// The images before it were put back. No page has this number.
const PUT_BACK: u32 = 0x4000_0000;

/// Which entry stands there, by its word, where calls may stand.
#[derive(Clone, Copy, PartialEq, Eq)]
pub enum Entry {
    /// The image of a page, if any.
    Image,
    /// An addition of calls of so many bytes.
    Calls(u32),
    /// No bytes: the images before it were put back.
    PutBack,
}

/// An image that was read.
#[derive(Clone, Copy, Drop)]
pub struct Image {
    /// The number of its page.
    pub number: u32,
    pub page: Page,
    /// The digest with which it ends.
    pub sum: Sum,
}

/// Which entry a word begins.
pub fn read_word(word: &[u8]) -> Entry
    requires { 4 ≤ length word.now }
    ensures { result ≡ entry_in word.now }
{
    let number = four_at(word, 0);
    if number == PUT_BACK {
        return Entry::PutBack;
    }
    if number < CALLS || MOST_CALLS < number - CALLS {
        return Entry::Image;
    }
    Entry::Calls(number - CALLS)
}

/// The digest with which an entry ends, of a word, bytes and a digest: told exactly where that is right
/// behind what ends with this digest.
pub fn read_sum(before: &Sum, entry: &[u8]) -> Option<Sum>
    requires { 36 ≤ length entry.now }
    ensures { result ≡ sum_in before.now entry.now }
{
    let (front, told) = entry.split_at(entry.len() - DIGEST_BYTES);
    let sum = digest_behind(before, front);
    if told == sum.as_slice() {
        return Some(sum);
    }
    None
}

/// An image: told exactly where its digest is right behind what ends with this digest.
pub fn read_image(before: &Sum, entry: &[u8]) -> Option<Image>
    requires { length entry.now ≡ 4132 }
    ensures { result ≡ image_in before.now entry.now }
{
    let sum = read_sum(before, entry)?;
    let mut page = [0; PAGE_BYTES];
    page.copy_from_slice(&entry[WORD_BYTES..WORD_BYTES + PAGE_BYTES]);
    Some(Image {
        number: four_at(entry, 0),
        page,
        sum,
    })
}

/// The bytes of the entry that lets the images before it go, behind what ends with this digest, and the
/// digest with which it ends.
pub fn spell_put_back(before: &Sum) -> ([u8; LEAST_ENTRY], Sum)
    ensures bytes { result.0 ≡ put_back_of before.now }
    ensures sum { result.1 ≡ put_back_sum before.now }
{
    let mut word = [0; WORD_BYTES];
    write_four(&mut word, PUT_BACK);
    let sum = digest_behind(before, &word);
    let mut bytes = [0; LEAST_ENTRY];
    join(&word, &sum, &mut bytes);
    (bytes, sum)
}

/// The word of an addition of so many bytes, and the digest with which it ends behind what ends with this
/// digest.
pub fn spell_calls(before: &Sum, calls: &[u8]) -> ([u8; WORD_BYTES], Sum)
    requires { length calls.now ≤ MOST_CALLS }
    ensures word { result.0 ≡ calls_word calls.now }
    ensures sum { result.1 ≡ calls_sum before.now calls.now }
{
    let mut word = [0; WORD_BYTES];
    write_four(&mut word, CALLS + calls.len() as u32);
    let sum = digest_of_calls(before, &word, calls);
    (word, sum)
}

/// The digest with which calls end.
fn digest_of_calls(before: &Sum, word: &[u8; WORD_BYTES], calls: &[u8]) -> Sum
    requires { word.now ≡ calls_word calls.now }
    ensures { result ≡ calls_sum before.now calls.now }
{
    let mut hasher = Sha256::new();
    hasher.update(before);
    hasher.update(word);
    hasher.update(calls);
    hasher.finalize()
}
