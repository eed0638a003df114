//! The words of the messages that pages are sealed by: the number of a page, its payload, and the
//! padding.

ghost use Rattle.std.specs.Prelude.{◌≡◌, ℕ, ◌+◌, ◌*◌, ◌^◌, ◌<◌, ◌≤◌, [], length, slice_index, slice_index_or};
ghost use Rattle.sha2.specs.Sha256.{word_at};
ghost use Rattle.digests.specs.Lanes.{SpellsBlock, block_of, column, padded_page};

use crate::row::{Row, WIDTH, splat};
use page_device::{PAYLOAD_BYTES, Page};

/// Blocks of a padded message.
pub(crate) const BLOCKS: usize = 64;

/// Words of a payload.
const PAYLOAD_WORDS: usize = PAYLOAD_BYTES / 4;

/// The words of a block of each of four messages.
pub(crate) fn words(first: u32, pages: &[Page], block: usize) -> [Row; 16]
    requires lanes { length pages.now ≡ WIDTH }
    requires room { first + WIDTH ≤ 2 ^ 32 }
    requires block { block < BLOCKS }
    ensures { (lane : ℕ) → lane < WIDTH → SpellsBlock (column lane result)
        (block_of (padded_page (first + lane) (slice_index_or pages.now lane [])) block) }
{
    let mut words = [splat(0); 16];
    'words: for t in 0..16 {
        words[t] = row_at(first, pages, 16 * block + t);
    }
    words
}

/// Word `at` of each of four messages.
#[inline(always)]
fn row_at(first: u32, pages: &[Page], at: usize) -> Row
    requires lanes { length pages.now ≡ WIDTH }
    requires room { first + WIDTH ≤ 2 ^ 32 }
    requires at { at < 16 * BLOCKS }
    ensures { (lane : ℕ) → lane < WIDTH → slice_index result lane
        ≡ word_at (padded_page (first + lane) (slice_index_or pages.now lane [])) (4 * at) }
{
    Row::from_array([
        word(first, &pages[0], at),
        word(first + 1, &pages[1], at),
        word(first + 2, &pages[2], at),
        word(first + 3, &pages[3], at),
    ])
}

/// Word `at` of the message of page `n`.
#[inline(always)]
fn word(n: u32, page: &Page, at: usize) -> u32
    requires { at < 16 * BLOCKS }
    ensures { result ≡ word_at (padded_page n page.now) (4 * at) }
{
    if at == 0 {
        n
    } else if at <= PAYLOAD_WORDS {
        load(page, 4 * at - 4)
    } else if at == PAYLOAD_WORDS + 1 {
        0x8000_0000
    } else if at < 16 * BLOCKS - 1 {
        0
    } else {
        8 * (4 + PAYLOAD_BYTES as u32)
    }
}

/// The word that stands at byte `i`.
#[inline(always)]
pub(crate) fn load(bytes: &[u8], i: usize) -> u32
    requires { i + 4 ≤ length bytes.now }
    ensures { result ≡ word_at bytes.now i }
{
    u32::from_be_bytes([bytes[i], bytes[i + 1], bytes[i + 2], bytes[i + 3]])
}
