//! Images of pages.
ghost use Rattle.std.specs.Prelude.{◌≡◌, ◌+◌, ◌++◌, length};
ghost use Rattle.sha2.specs.Sha256.{sha256};
ghost use Rattle.numbers.specs.Numbers.{four};
ghost use Rattle.journal_bytes.specs.Bytes.{image_of, image_sum};

use numbers::fields::write_four;
use page_device::{DIGEST_BYTES, PAGE_BYTES, Page};
use sha2::{Digest, Sha256};

/// A digest, SHA-256.
pub type Sum = [u8; DIGEST_BYTES];

/// Bytes of an image: the number of its page (4), the page (4,096), and a digest (32).
pub const IMAGE_BYTES: usize = 4132;

/// The digest with which the image of a page ends, behind what ends with this digest.
pub fn sum_of_image(before: &Sum, number: u32, page: &Page) -> Sum
    ensures { result ≡ image_sum before.now number page.now }
{
    let mut word = [0; 4];
    write_four(&mut word, number);
    digest_of_image(before, &word, page)
}

fn digest_of_image(before: &Sum, word: &[u8; 4], page: &Page) -> Sum
    ensures { result ≡ sha256 (before.now ++ (word.now ++ page.now)) }
{
    let mut hasher = Sha256::new();
    hasher.update(before);
    hasher.update(word);
    hasher.update(page);
    hasher.finalize()
}

/// Writes the image of a page that ends with this digest.
pub fn put_image(number: u32, page: &Page, sum: &Sum, into: &mut [u8; IMAGE_BYTES])
    ensures { into.new ≡ image_of number page.now sum.now }
{
    let (front, last) = into.split_at_mut(4 + PAGE_BYTES);
    put_page(number, page, front);
    last.copy_from_slice(sum);
}

/// Its number and the page.
fn put_page(number: u32, page: &Page, into: &mut [u8])
    requires { length into.old ≡ 4100 }
    ensures { into.new ≡ four number ++ page.now }
{
    let (word, bytes) = into.split_at_mut(4);
    write_four(word, number);
    bytes.copy_from_slice(page);
}

/// Writes two parts one after the other.
pub(crate) fn join(front: &[u8], back: &[u8], whole: &mut [u8])
    requires { length whole.old ≡ length front.now + length back.now }
    ensures { whole.new ≡ front.now ++ back.now }
{
    let (head, tail) = whole.split_at_mut(front.len());
    head.copy_from_slice(front);
    tail.copy_from_slice(back);
}

/// The digest of a digest and of bytes behind it.
pub(crate) fn digest_behind(before: &Sum, bytes: &[u8]) -> Sum
    ensures { result ≡ sha256 (before.now ++ bytes.now) }
{
    let mut hasher = Sha256::new();
    hasher.update(before);
    hasher.update(bytes);
    hasher.finalize()
}

/// The digest of bytes.
pub(crate) fn digest(bytes: &[u8]) -> Sum
    ensures { result ≡ sha256 bytes.now }
{
    let mut hasher = Sha256::new();
    hasher.update(bytes);
    hasher.finalize()
}
