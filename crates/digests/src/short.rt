//! Digests of four short messages, computed side by side.

ghost use Rattle.std.specs.Prelude.{◌≡◌, ℕ, ◌+◌, ◌<◌, ◌≤◌, [], ◌∷◌, length, slice_index, slice_index_or};
ghost use Rattle.sha2.specs.Sha256.{padded_message, sha256, word_at};
ghost use Rattle.digests.specs.Lanes.{SpellsBlock, column};

use crate::compression::{compress, initial};
use crate::row::{Row, WIDTH, splat};
use crate::run::digest;
use crate::words::load;
use page_device::DIGEST_BYTES;

/// Bytes of a block.
const BLOCK_BYTES: usize = 64;

/// The most bytes that a message may have which fills one block with its padding.
pub const SHORT_BYTES: usize = 55;

/// The SHA-256 of each of four short messages.
pub fn four_digests(a: &[u8], b: &[u8], c: &[u8], d: &[u8]) -> [[u8; DIGEST_BYTES]; 4]
    requires a { length a.now ≤ SHORT_BYTES }
    requires b { length b.now ≤ SHORT_BYTES }
    requires c { length c.now ≤ SHORT_BYTES }
    requires d { length d.now ≤ SHORT_BYTES }
    ensures { result ≡ sha256 a.now ∷ sha256 b.now ∷ sha256 c.now ∷ sha256 d.now ∷ [] }
{
    let blocks = [padded(a), padded(b), padded(c), padded(d)];
    let mut state = initial();
    compress(&mut state, &rows(&blocks));
    [
        digest(&state, 0),
        digest(&state, 1),
        digest(&state, 2),
        digest(&state, 3),
    ]
}

/// A short message with its padding.
#[inline(always)]
fn padded(message: &[u8]) -> [u8; BLOCK_BYTES]
    requires { length message.now ≤ SHORT_BYTES }
    ensures { result ≡ padded_message message.now }
{
    let mut block = [0; BLOCK_BYTES];
    let (text, padding) = block.split_at_mut(message.len());
    text.copy_from_slice(message);
    let (end, bits) = padding.split_at_mut(SHORT_BYTES + 1 - message.len());
    end[0] = 0x80;
    bits.copy_from_slice(&(8 * message.len() as u64).to_be_bytes());
    block
}

/// The words of four blocks.
fn rows(blocks: &[[u8; BLOCK_BYTES]; WIDTH]) -> [Row; 16]
    ensures { (lane : ℕ) → lane < WIDTH →
        SpellsBlock (column lane result) (slice_index_or blocks.now lane []) }
{
    let mut words = [splat(0); 16];
    'words: for t in 0..16 {
        words[t] = row_at(blocks, 4 * t);
    }
    words
}

/// The word at byte `i` of each of four blocks.
#[inline(always)]
fn row_at(blocks: &[[u8; BLOCK_BYTES]; WIDTH], i: usize) -> Row
    requires { i + 4 ≤ BLOCK_BYTES }
    ensures { (lane : ℕ) → lane < WIDTH →
        slice_index result lane ≡ word_at (slice_index_or blocks.now lane []) i }
{
    let [a, b, c, d] = blocks;
    Row::from_array([load(a, i), load(b, i), load(c, i), load(d, i)])
}
