//! Numbers in slices of bytes, the highest byte first: two, four or eight bytes each.

ghost use Rattle.std.specs.Prelude.{◌≡◌, ◌+◌, ◌*◌, ◌≤◌, length};
ghost use Rattle.numbers.specs.Numbers.{two, four, eight, two_at, four_at, eight_at, is_zero, numbers_bytes, numbers_of, overwritten, union, zeros};

use byteorder::{BigEndian, ByteOrder};

/// The number in the two bytes from `at` on.
#[tactic(auto, unfolding(crate::specs::Numbers::two_at))]
pub fn two_at(bytes: &[u8], at: usize) -> u16
    requires { at + 2 ≤ length bytes.now }
    ensures { result ≡ two_at at bytes.now }
{
    BigEndian::read_u16(&bytes[at..])
}

/// The number in the four bytes from `at` on.
#[tactic(auto, unfolding(crate::specs::Numbers::four_at))]
pub fn four_at(bytes: &[u8], at: usize) -> u32
    requires { at + 4 ≤ length bytes.now }
    ensures { result ≡ four_at at bytes.now }
{
    BigEndian::read_u32(&bytes[at..])
}

/// The number in the eight bytes from `at` on.
#[tactic(auto, unfolding(crate::specs::Numbers::eight_at))]
pub fn eight_at(bytes: &[u8], at: usize) -> u64
    requires { at + 8 ≤ length bytes.now }
    ensures { result ≡ eight_at at bytes.now }
{
    BigEndian::read_u64(&bytes[at..])
}

/// Writes these bytes from `at` on.
pub fn set_bytes(bytes: &mut [u8], at: usize, new: &[u8])
    requires { at + length new.now ≤ length bytes.old }
    ensures { bytes.new ≡ overwritten bytes.old at new.now }
{
    bytes[at..at + new.len()].copy_from_slice(new);
}

/// Writes a number into the four bytes from `at` on.
#[tactic(auto, unfolding(crate::specs::Numbers::four))]
pub fn set_four(bytes: &mut [u8], at: usize, number: u32)
    requires { at + 4 ≤ length bytes.old }
    ensures { bytes.new ≡ overwritten bytes.old at (four number) }
{
    let mut new = [0; 4];
    BigEndian::write_u32(&mut new, number);
    set_bytes(bytes, at, &new);
}

/// Writes a number over two bytes.
#[tactic(auto, unfolding(crate::specs::Numbers::two))]
pub fn write_two(bytes: &mut [u8], number: u16)
    requires { length bytes.old ≡ 2 }
    ensures { bytes.new ≡ two number }
{
    BigEndian::write_u16(bytes, number);
}

/// Writes a number over four bytes.
#[tactic(auto, unfolding(crate::specs::Numbers::four))]
pub fn write_four(bytes: &mut [u8], number: u32)
    requires { length bytes.old ≡ 4 }
    ensures { bytes.new ≡ four number }
{
    BigEndian::write_u32(bytes, number);
}

/// Writes a number over eight bytes.
#[tactic(auto, unfolding(crate::specs::Numbers::eight))]
pub fn write_eight(bytes: &mut [u8], number: u64)
    requires { length bytes.old ≡ 8 }
    ensures { bytes.new ≡ eight number }
{
    BigEndian::write_u64(bytes, number);
}

/// Writes numbers of four bytes each, one after the other.
#[tactic(auto, unfolding(crate::specs::Numbers::four))]
pub fn write_numbers(bytes: &mut [u8], numbers: &[u32])
    requires { length bytes.old ≡ 4 * length numbers.now }
    ensures { bytes.new ≡ numbers_bytes numbers.now }
{
    BigEndian::write_u32_into(numbers, bytes);
}

/// Reads numbers of four bytes each, one after the other.
pub fn read_numbers(bytes: &[u8], numbers: &mut [u32])
    requires { length bytes.now ≡ 4 * length numbers.old }
    ensures { numbers.new ≡ numbers_of (length numbers.old) bytes.now }
{
    BigEndian::read_u32_into(bytes, numbers);
}

/// Fills with zeros.
#[tactic(auto, unfolding(crate::specs::Numbers::zeros))]
pub fn blank(bytes: &mut [u8])
    ensures { bytes.new ≡ zeros (length bytes.old) }
{
    bytes.fill(0);
}

/// The bits that are set in one byte or more.
fn union(bytes: &[u8]) -> u8
    ensures { result ≡ union bytes.now }
{
    bytes.iter().fold(0, |bits, byte| bits | *byte)
}

/// Whether all bytes are zero: no jump at each byte, since most of a page is padding.
pub fn is_zero(bytes: &[u8]) -> bool
    ensures { result ≡ is_zero bytes.now }
{
    union(bytes) == 0
}
