//! Pages of the directory: written whole, and read.

ghost use Rattle.std.specs.Prelude.{◌≡◌, ◌<◌, length, slice_index};
ghost use Rattle.page_device.specs.declared.page.TheConstants.{PAYLOAD_BYTES};
ghost use Rattle.directory.specs.Pages.{IsDirectoryPage, SpellsDirectory, directory_bytes, entries_at, entries_read, has_entries_padding};

use crate::layout::{DIRECTORY, ENTRIES_BYTES, HEAD_BYTES, PAGE_ENTRIES};
use numbers::fields::{blank, four_at, is_zero, write_numbers};
use page_device::Payload;
use std::marker::Model;

/// The entries of a page of the directory, lent by its payload: the buckets' pages
/// that its slots name.
#[derive(Drop)]
pub struct DirectoryView<'a> {
    entries: &'a [u8],
}

impl<'a> Model for DirectoryView<'a> {
    ghost use Rattle.std.specs.Prelude.{◌≡◌, ℕ, List, length};
    ghost use Rattle.directory.specs.declared.layout.TheConstants.{ENTRIES_BYTES};
    ghost use Rattle.directory.specs.Pages.{entries_of};

    ghost Value = { List ℕ };

    ghost view = { λ d. entries_of d.entries.now };

    ghost invariant = { λ d. length d.entries.now ≡ ENTRIES_BYTES };
}

impl<'a> DirectoryView<'a> {
    /// The bucket's page that a slot names.
    #[tactic(auto, using(crate::proofs::PageLaws::entry_is))]
    pub fn entry(&self, slot: usize) -> u32
        requires { slot < PAGE_ENTRIES }
        ensures { result ≡ slice_index self.now slot }
    {
        four_at(self.entries, 4 * slot)
    }
}

/// The entries of a payload that is known to be a directory page's. Nothing is tested again.
pub fn directory_of(payload: &Payload) -> DirectoryView<'_>
    ensures { result ≡ entries_at payload.now }
{
    view_of(payload)
}

fn view_of(bytes: &[u8]) -> DirectoryView
    requires { length bytes.now ≡ PAYLOAD_BYTES }
    ensures { result ≡ entries_at bytes.now }
{
    let (entries, _) = bytes[HEAD_BYTES..].split_at(ENTRIES_BYTES);
    DirectoryView { entries }
}

/// The entries of a payload whose first byte is a directory page's; none where a byte that no
/// field names isn't zero.
pub fn read_entries(bytes: &[u8]) -> Option<DirectoryView>
    requires { length bytes.now ≡ PAYLOAD_BYTES }
    ensures { result ≡ entries_read bytes.now }
{
    if has_padding(bytes) {
        Some(view_of(bytes))
    } else {
        None
    }
}

/// Whether each byte that is neither the kind nor an entry's is zero.
fn has_padding(bytes: &[u8]) -> bool
    requires { length bytes.now ≡ PAYLOAD_BYTES }
    ensures { result ≡ has_entries_padding bytes.now }
{
    let (_, after) = bytes[HEAD_BYTES..].split_at(ENTRIES_BYTES);
    is_zero(&bytes[1..HEAD_BYTES]) && is_zero(after)
}

/// Writes a page of the directory.
pub fn write_directory(payload: &mut Payload, entries: &[u32; PAGE_ENTRIES])
    ensures ok { SpellsDirectory entries.now payload.new }
    ensures directory { IsDirectoryPage payload.new }
{
    write_slots(payload, entries);
}

fn write_slots(bytes: &mut [u8], entries: &[u32])
    requires long { length bytes.old ≡ PAYLOAD_BYTES }
    requires whole { length entries.now ≡ PAGE_ENTRIES }
    ensures { bytes.new ≡ directory_bytes entries.now }
{
    let (first, others) = bytes.split_at_mut(1);
    let (reserved, others) = others.split_at_mut(HEAD_BYTES - 1);
    let (places, last) = others.split_at_mut(ENTRIES_BYTES);
    first[0] = DIRECTORY;
    blank(reserved);
    write_numbers(places, entries);
    blank(last);
}
