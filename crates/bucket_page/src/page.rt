//! Which page a payload spells.

ghost use Rattle.std.specs.Prelude.{◌≡◌, IfOk, Ok, drop, length, take};
ghost use Rattle.directory.specs.numbers.declared.faults.TheConstants.{MALFORMED};
ghost use Rattle.directory.specs.page_device.declared.page.TheConstants.{PAYLOAD_BYTES};
ghost use Rattle.directory.specs.numbers.Numbers.{four_at};
ghost use Rattle.bucket_page.specs.Reading.{answer, bucket_in, bucket_fault, link_fault, reading};
ghost use Rattle.bucket_page.specs.Spelling.{Spells};
ghost use Rattle.bucket_page.specs.Changes.{IsBucketPage};

use crate::change::records_of;
use crate::layout::{BUCKET, FREE, LINK_BYTES, ROOM_BYTES, TOMBSTONE};
use crate::records::Records;
use crate::view::BucketView;
use directory::faults::MALFORMED;
use directory::fields::{four_at, is_zero, two_at};
use directory::page_device::{PAYLOAD_BYTES, Payload};
use directory::{DIRECTORY, DirectoryView, GREATEST_DEPTH, HEAD_BYTES, read_entries};
use thiserror::Error;

/// The first test that a payload fails.
#[derive(Clone, Copy, Debug, PartialEq, Eq, Error)]
pub enum Malformed {
    /// The first byte is that of no bucket, directory page, tombstone or free page.
    #[error("not a kind of page")]
    Kind,
    /// The local depth is above the greatest.
    #[error("the local depth is too great")]
    Depth,
    /// The pattern has a bit beyond the local depth.
    #[error("the pattern has too many bits")]
    Pattern,
    /// The records don't fill their bytes exactly so, or those don't fit the page.
    #[error("the records don't fill their bytes")]
    Lengths,
    /// The keys don't ascend strictly.
    #[error("the keys don't ascend")]
    Order,
    /// A byte that no field names isn't zero.
    #[error("a byte that no field names is not zero")]
    Padding,
}

impl Malformed {
    /// The number that a program prints, whichever test fails.
    pub fn number(self) -> u8
        ensures { result ≡ MALFORMED }
    {
        MALFORMED
    }
}

/// A page that isn't the header.
#[derive(Drop)]
pub enum PageKind<'a> {
    /// A bucket of records.
    Bucket(BucketView<'a>),
    /// A page of the directory.
    Directory(DirectoryView<'a>),
    /// A bucket that was merged into the one on the page that it names.
    Tombstone { link: u32 },
    /// A free page, and the next one on the list of free pages, 0 for the last.
    Free { next: u32 },
}

/// The page that a payload spells. It is accepted exactly where it is the one spelling of a page.
pub fn read_page(payload: &Payload) -> Result<PageKind<'_>, Malformed>
    // The first test that fails names the refusal.
    ensures value { result ≡ reading payload.now }
    // What is read is spelled so, and what is spelled so is read.
    ensures ok { IfOk result (λ page. Spells page payload.now) }
    ensures only { (page : PageKind) → Spells page payload.now → result ≡ Ok page }
{
    read(payload)
}

/// The bucket of a payload that is known to be a bucket's. Nothing is tested again.
pub fn bucket_of(payload: &Payload) -> BucketView<'_>
    requires { IsBucketPage payload.now }
    ensures { result ≡ bucket_in payload.now }
{
    view_of(payload)
}

/// The page that the payload of a tombstone or of a free page names. Nothing is tested.
pub fn link_of(payload: &Payload) -> u32
    ensures { result ≡ four_at 4 payload.now }
{
    four_at(payload, 4)
}

#[tactic(auto, using(crate::proofs::ChangeLaws::opened))]
fn view_of(bytes: &[u8]) -> BucketView
    requires long { length bytes.now ≡ PAYLOAD_BYTES }
    requires bucket { IsBucketPage bytes.now }
    ensures { result ≡ bucket_in bytes.now }
{
    BucketView {
        depth: bytes[1],
        pattern: four_at(bytes, 4),
        next: four_at(bytes, 8),
        records: records_of(bytes),
    }
}

fn read(bytes: &[u8]) -> Result<PageKind, Malformed>
    requires { length bytes.now ≡ PAYLOAD_BYTES }
    ensures { result ≡ reading bytes.now }
{
    match bytes[0] {
        BUCKET => Ok(PageKind::Bucket(read_bucket(bytes)?)),
        DIRECTORY => Ok(PageKind::Directory(read_entries(bytes).ok_or(Malformed::Padding)?)),
        TOMBSTONE => Ok(PageKind::Tombstone {
            link: read_link(bytes)?,
        }),
        FREE => Ok(PageKind::Free {
            next: read_link(bytes)?,
        }),
        _ => Err(Malformed::Kind),
    }
}

fn read_bucket(bytes: &[u8]) -> Result<BucketView, Malformed>
    requires { length bytes.now ≡ PAYLOAD_BYTES }
    ensures { result ≡ answer (bucket_fault bytes.now) (bucket_in bytes.now) }
{
    let depth = bytes[1];
    if depth > GREATEST_DEPTH {
        return Err(Malformed::Depth);
    }
    let pattern = four_at(bytes, 4);
    if pattern >= 1 << depth {
        return Err(Malformed::Pattern);
    }
    let used = two_at(bytes, 12) as usize;
    if used > ROOM_BYTES {
        return Err(Malformed::Lengths);
    }
    let (area, after) = bytes[HEAD_BYTES..].split_at(used);
    let Some(records) = Records::of(two_at(bytes, 2), area) else {
        return Err(Malformed::Lengths);
    };
    if !records.ascend() {
        return Err(Malformed::Order);
    }
    if !is_zero(&bytes[14..HEAD_BYTES]) || !is_zero(after) {
        return Err(Malformed::Padding);
    }
    Ok(BucketView {
        depth,
        pattern,
        next: four_at(bytes, 8),
        records,
    })
}

/// The page that a tombstone or a free page names.
fn read_link(bytes: &[u8]) -> Result<u32, Malformed>
    requires { length bytes.now ≡ PAYLOAD_BYTES }
    ensures { result ≡ answer (link_fault bytes.now) (four_at 4 bytes.now) }
{
    if !is_zero(&bytes[1..4]) {
        return Err(Malformed::Padding);
    }
    if !is_zero(&bytes[LINK_BYTES..]) {
        return Err(Malformed::Padding);
    }
    Ok(four_at(bytes, 4))
}
