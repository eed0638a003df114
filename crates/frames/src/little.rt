//! Numbers in bytes, the lowest byte first: read at a place, and put behind others.

ghost use Rattle.std.specs.Prelude.{◌≡◌, ◌+◌, ◌≤◌, ◌++◌, length, take};
ghost use Rattle.std.specs.Vec.{vec_capacity};
ghost use Rattle.frames.specs.Little.{two, four, eight, two_at, four_at, eight_at};

use byteorder::{ByteOrder, LittleEndian};

/// The number in the two bytes from `at` on.
#[tactic(auto, unfolding(crate::specs::Little::two_at))]
pub fn two_at(bytes: &[u8], at: usize) -> u16
    requires { at + 2 ≤ length bytes.now }
    ensures { result ≡ two_at at bytes.now }
{
    LittleEndian::read_u16(&bytes[at..])
}

/// The number in the four bytes from `at` on.
#[tactic(auto, unfolding(crate::specs::Little::four_at))]
pub fn four_at(bytes: &[u8], at: usize) -> u32
    requires { at + 4 ≤ length bytes.now }
    ensures { result ≡ four_at at bytes.now }
{
    LittleEndian::read_u32(&bytes[at..])
}

/// The number in the eight bytes from `at` on.
#[tactic(auto, unfolding(crate::specs::Little::eight_at))]
pub fn eight_at(bytes: &[u8], at: usize) -> u64
    requires { at + 8 ≤ length bytes.now }
    ensures { result ≡ eight_at at bytes.now }
{
    LittleEndian::read_u64(&bytes[at..])
}

/// Puts the two bytes of a number last.
#[tactic(auto, unfolding(crate::specs::Little::two))]
pub fn put_two(into: &mut Vec<u8>, number: u16)
    requires { length into.old.items + 2 ≤ vec_capacity into.old }
    ensures value { into.new.items ≡ into.old.items ++ two number }
    ensures len { length into.new.items ≡ length into.old.items + 2 }
    ensures room { vec_capacity into.old ≤ vec_capacity into.new }
{
    let mut bytes = [0; 2];
    LittleEndian::write_u16(&mut bytes, number);
    put_all(into, &bytes);
}

/// Puts the four bytes of a number last.
#[tactic(auto, unfolding(crate::specs::Little::four))]
pub fn put_four(into: &mut Vec<u8>, number: u32)
    requires { length into.old.items + 4 ≤ vec_capacity into.old }
    ensures value { into.new.items ≡ into.old.items ++ four number }
    ensures len { length into.new.items ≡ length into.old.items + 4 }
    ensures room { vec_capacity into.old ≤ vec_capacity into.new }
{
    let mut bytes = [0; 4];
    LittleEndian::write_u32(&mut bytes, number);
    put_all(into, &bytes);
}

/// Puts the eight bytes of a number last.
#[tactic(auto, unfolding(crate::specs::Little::eight))]
pub fn put_eight(into: &mut Vec<u8>, number: u64)
    requires { length into.old.items + 8 ≤ vec_capacity into.old }
    ensures value { into.new.items ≡ into.old.items ++ eight number }
    ensures len { length into.new.items ≡ length into.old.items + 8 }
    ensures room { vec_capacity into.old ≤ vec_capacity into.new }
{
    let mut bytes = [0; 8];
    LittleEndian::write_u64(&mut bytes, number);
    put_all(into, &bytes);
}

/// Puts these bytes last.
pub fn put_all(into: &mut Vec<u8>, bytes: &[u8])
    requires { length into.old.items + length bytes.now ≤ vec_capacity into.old }
    ensures value { into.new.items ≡ into.old.items ++ bytes.now }
    ensures len { length into.new.items ≡ length into.old.items + length bytes.now }
    ensures room { vec_capacity into.old ≤ vec_capacity into.new }
{
    into.extend_from_slice(bytes).unwrap();
}

/// Sets the two bytes of a number at a place.
#[tactic(auto, unfolding(crate::specs::Little::two))]
pub(crate) fn set_two(bytes: &mut [u8], at: usize, number: u16)
    requires { at + 2 ≤ length bytes.old }
    ensures front { take (at + 2) bytes.new ≡ take at bytes.old ++ two number }
    ensures len { length bytes.new ≡ length bytes.old }
{
    let mut part = [0; 2];
    LittleEndian::write_u16(&mut part, number);
    set(bytes, at, &part);
}

/// Sets the four bytes of a number at a place.
#[tactic(auto, unfolding(crate::specs::Little::four))]
pub(crate) fn set_four(bytes: &mut [u8], at: usize, number: u32)
    requires { at + 4 ≤ length bytes.old }
    ensures front { take (at + 4) bytes.new ≡ take at bytes.old ++ four number }
    ensures len { length bytes.new ≡ length bytes.old }
{
    let mut part = [0; 4];
    LittleEndian::write_u32(&mut part, number);
    set(bytes, at, &part);
}

/// Sets these bytes at a place.
pub(crate) fn set(bytes: &mut [u8], at: usize, part: &[u8])
    requires { at + length part.now ≤ length bytes.old }
    ensures front { take (at + length part.now) bytes.new ≡ take at bytes.old ++ part.now }
    ensures len { length bytes.new ≡ length bytes.old }
{
    bytes[at..at + part.len()].copy_from_slice(part);
}
