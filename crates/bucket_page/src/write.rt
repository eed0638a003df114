//! Pages written whole.

ghost use Rattle.std.specs.Prelude.{[], ◌≡◌, ◌<◌, ◌≤◌, ◌^◌, length};
ghost use Rattle.bucket_page.specs.Bucket.{bucket};
ghost use Rattle.bucket_page.specs.Spelling.{Spells, link_bytes};
ghost use Rattle.bucket_page.specs.Changes.{SpellsBucket};

use crate::head::Head;
use crate::layout::{FREE, TOMBSTONE};
use crate::page::PageKind;
use directory::fields::{blank, write_four};
use directory::page_device::{PAYLOAD_BYTES, Payload};
use directory::{GREATEST_DEPTH, HEAD_BYTES};

/// Writes a tombstone, whose link is the page of the bucket that took its records.
pub fn write_tombstone(payload: &mut Payload, link: u32)
    ensures { Spells (PageKind.Tombstone link) payload.new }
{
    write_link(payload, TOMBSTONE, link);
}

/// Writes a free page; the next one on the list of free pages is 0 for the last.
pub fn write_free(payload: &mut Payload, next: u32)
    ensures { Spells (PageKind.Free next) payload.new }
{
    write_link(payload, FREE, next);
}

/// Writes a bucket without records.
pub fn write_bucket(payload: &mut Payload, depth: u8, pattern: u32, next: u32)
    requires depth { depth ≤ GREATEST_DEPTH }
    requires pattern { pattern < 2 ^ depth }
    ensures { SpellsBucket (bucket depth pattern next []) payload.new }
{
    let head = Head {
        depth,
        count: 0,
        pattern,
        next,
        used: 0,
    };
    let (front, body) = payload.split_at_mut(HEAD_BYTES);
    head.write(front);
    blank(body);
}

/// Writes a page that says no more than one page's number.
fn write_link(bytes: &mut [u8], kind: u8, page: u32)
    requires { length bytes.old ≡ PAYLOAD_BYTES }
    ensures { bytes.new ≡ link_bytes kind page }
{
    let (first, others) = bytes.split_at_mut(1);
    let (reserved, others) = others.split_at_mut(3);
    let (link, last) = others.split_at_mut(4);
    first[0] = kind;
    blank(reserved);
    write_four(link, page);
    blank(last);
}
