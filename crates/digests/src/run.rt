//! Whether sixteen pages that follow one another are sealed.

ghost use Rattle.std.specs.Prelude.{◌≡◌, ℕ, ◌+◌, ◌^◌, ◌<◌, ◌≤◌, ◌↔◌, [], IsTrue, drop, length, slice_index, slice_index_or};
ghost use Rattle.sha2.specs.Sha256.{digest_bytes, hash_after, initial_hash_256};
ghost use Rattle.page_device.specs.Sealed.{IsSealed};
ghost use Rattle.digests.specs.Lanes.{column, padded_page};
ghost use Rattle.digests.specs.Run.{AreSealed};

use crate::compression::{compress, initial};
use crate::row::{Row, WIDTH};
use crate::words::{BLOCKS, words};
use page_device::{DIGEST_BYTES, PAYLOAD_BYTES, Page};

/// How many pages are tested together.
pub const LANES: usize = 16;

/// Whether each of sixteen pages, which are numbered from `first` on, is sealed.
pub fn are_sealed(first: u32, pages: &[Page]) -> bool
    requires lanes { length pages.now ≡ LANES }
    requires room { first + LANES ≤ 2 ^ 32 }
    ensures { IsTrue result ↔ AreSealed first pages.now }
{
    'fours: for four in 0..LANES / WIDTH {
        let at = WIDTH * four;
        if !four_are_sealed(first + at as u32, &pages[at..at + WIDTH]) {
            return false;
        }
    }
    true
}

/// Whether each of four pages is sealed; their digests are computed side by side.
fn four_are_sealed(first: u32, pages: &[Page]) -> bool
    requires lanes { length pages.now ≡ WIDTH }
    requires room { first + WIDTH ≤ 2 ^ 32 }
    ensures { IsTrue result ↔ AreSealed first pages.now }
{
    let state = hash_values(first, pages);
    'lanes: for lane in 0..WIDTH {
        if !ends_in_digest(&pages[lane], &state, lane) {
            return false;
        }
    }
    true
}

/// The hash values of the messages that four pages are sealed by.
fn hash_values(first: u32, pages: &[Page]) -> [Row; 8]
    requires lanes { length pages.now ≡ WIDTH }
    requires room { first + WIDTH ≤ 2 ^ 32 }
    ensures { (lane : ℕ) → lane < WIDTH → column lane result ≡ hash_after initial_hash_256
        (padded_page (first + lane) (slice_index_or pages.now lane [])) BLOCKS }
{
    let mut state = initial();
    'blocks: for block in 0..BLOCKS {
        compress(&mut state, &words(first, pages, block));
    }
    state
}

/// Whether a page ends in the digest whose hash value stands at this lane.
fn ends_in_digest(page: &Page, state: &[Row; 8], lane: usize) -> bool
    requires { lane < WIDTH }
    ensures { (n : ℕ) →
        column lane state.now ≡ hash_after initial_hash_256 (padded_page n page.now) BLOCKS →
        IsTrue result ↔ IsSealed n page.now }
{
    has_end(page, &digest(state, lane))
}

fn has_end(page: &Page, end: &[u8; DIGEST_BYTES]) -> bool
    ensures { IsTrue result ↔ (drop PAYLOAD_BYTES page.now ≡ end.now) }
{
    let (_, stored) = page.split_at(PAYLOAD_BYTES);
    stored == end.as_slice()
}

/// The bytes of the hash value at a lane.
pub(crate) fn digest(state: &[Row; 8], lane: usize) -> [u8; DIGEST_BYTES]
    requires { lane < WIDTH }
    ensures { result ≡ digest_bytes (column lane state.now) 8 }
{
    let mut bytes = [0; DIGEST_BYTES];
    'words: for i in 0..8 {
        let word = word_of(&state[i], lane);
        bytes[4 * i..4 * i + 4].copy_from_slice(&word.to_be_bytes());
    }
    bytes
}

fn word_of(words: &Row, lane: usize) -> u32
    requires { lane < WIDTH }
    ensures { result ≡ slice_index words.now lane }
{
    words.to_array()[lane]
}
