//! Which header a payload spells.

ghost use Rattle.std.specs.Prelude.{◌≡◌, IfOk, Ok, length};
ghost use Rattle.page_device.specs.declared.page.TheConstants.{PAYLOAD_BYTES};
ghost use Rattle.directory.specs.Fault.{number_of};
ghost use Rattle.numbers.specs.Numbers.{numbers_of};
ghost use Rattle.directory.specs.Layouts.{IsLayout};
ghost use Rattle.directory.specs.Reading.{counts_at, header_at, has_layout, has_magic, has_padding, has_range, reading, reading_in};
ghost use Rattle.directory.specs.Spelling.{SpellsHeader, SpellsIn};

use crate::header::Header;
use crate::layout::{
    COUNTS_BEGIN, HEADER, HEADER_BYTES, LAYOUT, LOCAL_DEPTHS, Layout, MAGIC, layouts_are_right,
};
use numbers::fields::{four_at, is_zero, read_numbers};
use page_device::{MAX_PAGES, Payload, faults};
use thiserror::Error;

/// Why a payload is no header.
#[derive(Clone, Copy, Debug, PartialEq, Eq, Error)]
pub enum HeaderFault {
    /// The kind or the magic is wrong; or, under the right version, the depth or the number of
    /// pages is out of range, or a byte that no field names isn't zero.
    #[error("not a header")]
    BadHeader,
    /// The kind and the magic are right, and the version is another.
    #[error("a header of another version")]
    BadVersion,
}

impl HeaderFault {
    /// The number that a program prints for this fault.
    pub fn number(self) -> u8
        ensures { result ≡ number_of self }
    {
        match self {
            HeaderFault::BadHeader => faults::BAD_HEADER,
            HeaderFault::BadVersion => faults::BAD_VERSION,
        }
    }
}

/// The header that a payload spells. The payload is accepted exactly where it is the one spelling
/// of a header in range.
pub fn read_header(payload: &Payload) -> Result<Header, HeaderFault>
    // The first test that fails names the refusal.
    ensures value { result ≡ reading payload.now }
    // What is read is spelled so, and what is spelled so is read.
    ensures ok { IfOk result (λ header. SpellsHeader header payload.now) }
    ensures only { (header : Header) → SpellsHeader header payload.now → result ≡ Ok header }
{
    layouts_are_right();
    read_header_in(&LAYOUT, payload)
}

/// The header that a payload spells in a layout; accepted exactly where it is the one spelling
/// there. Counts of local depths that the layout lacks read as 0.
pub fn read_header_in(layout: &Layout, payload: &Payload) -> Result<Header, HeaderFault>
    requires { IsLayout layout.now }
    // The first test that fails names the refusal.
    ensures value { result ≡ reading_in layout.now payload.now }
    // What is read is spelled so, and what is spelled so is read.
    ensures ok { IfOk result (λ header. SpellsIn layout.now header payload.now) }
    ensures only { (header : Header) → SpellsIn layout.now header payload.now → result ≡ Ok header }
{
    read(layout, payload)
}

/// The header of a payload that is known to spell one. Nothing is tested again.
pub fn header_of(payload: &Payload) -> Header
    ensures { result ≡ header_at payload.now }
{
    header_in(payload)
}

/// The depth alone of a payload that is known to spell a header.
pub fn depth_of(payload: &Payload) -> u8
    ensures { result ≡ (header_at payload.now).depth }
{
    payload[2]
}

fn header_in(bytes: &[u8]) -> Header
    requires { length bytes.now ≡ PAYLOAD_BYTES }
    ensures { result ≡ header_at bytes.now }
{
    Header {
        depth: bytes[2],
        pages: four_at(bytes, 12),
        first_free: four_at(bytes, 16),
        counts: counts_at(bytes),
    }
}

fn read(layout: &Layout, bytes: &[u8]) -> Result<Header, HeaderFault>
    requires layout { IsLayout layout.now }
    requires whole { length bytes.now ≡ PAYLOAD_BYTES }
    ensures { result ≡ reading_in layout.now bytes.now }
{
    if bytes[0] != HEADER || !has_magic(bytes) {
        return Err(HeaderFault::BadHeader);
    }
    if bytes[1] != layout.version {
        return Err(HeaderFault::BadVersion);
    }
    if !has_layout(layout, bytes) {
        return Err(HeaderFault::BadHeader);
    }
    Ok(header_in(bytes))
}

/// Whether the magic stands at its place.
#[tactic(auto, unfolding(crate::specs::Reading::has_magic))]
fn has_magic(bytes: &[u8]) -> bool
    requires { length bytes.now ≡ PAYLOAD_BYTES }
    ensures { result ≡ has_magic bytes.now }
{
    &bytes[4..12] == MAGIC.as_slice()
}

/// Whether the numbers are in range, and each byte that no field names is zero.
#[tactic(auto, unfolding(crate::specs::Reading::has_layout))]
fn has_layout(layout: &Layout, bytes: &[u8]) -> bool
    requires layout { IsLayout layout.now }
    requires whole { length bytes.now ≡ PAYLOAD_BYTES }
    ensures { result ≡ has_layout layout.now bytes.now }
{
    has_range(layout, bytes) && has_padding(layout, bytes)
}

fn has_range(layout: &Layout, bytes: &[u8]) -> bool
    requires layout { IsLayout layout.now }
    requires whole { length bytes.now ≡ PAYLOAD_BYTES }
    ensures { result ≡ has_range layout.now bytes.now }
{
    let pages = four_at(bytes, 12);
    bytes[2] <= layout.greatest_depth && layout.least_pages() <= pages && pages <= MAX_PAGES
}

fn has_padding(layout: &Layout, bytes: &[u8]) -> bool
    requires layout { IsLayout layout.now }
    requires whole { length bytes.now ≡ PAYLOAD_BYTES }
    ensures { result ≡ has_padding layout.now bytes.now }
{
    let (_, rest) = bytes.split_at(layout.header_size());
    bytes[3] == 0 && is_zero(rest)
}

/// The counts of live buckets.
#[tactic(auto, unfolding(crate::specs::Reading::counts_at, crate::specs::Reading::counts_area))]
fn counts_at(bytes: &[u8]) -> [u32; LOCAL_DEPTHS]
    requires { length bytes.now ≡ PAYLOAD_BYTES }
    ensures { result ≡ counts_at bytes.now }
{
    let mut counts = [0; LOCAL_DEPTHS];
    read_numbers(&bytes[COUNTS_BEGIN..HEADER_BYTES], &mut counts);
    counts
}
