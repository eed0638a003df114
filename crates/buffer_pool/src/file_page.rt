//! A payload that spells a page, and what it says.

ghost use Rattle.std.specs.Prelude.{◌≡◌, ◌↔◌, IsSome, IsTrue, IfNone, IfSome};
ghost use Rattle.bucket_page.specs.Changes.{IsBucketPage};
ghost use Rattle.bucket_page.specs.numbers.Numbers.{four_at};
ghost use Rattle.bucket_page.specs.Reading.{bucket_in, page_in};
ghost use Rattle.bucket_page.specs.Spelling.{Spells};
ghost use Rattle.bucket_page.specs.directory.Pages.{IsDirectoryPage, entries_at};
ghost use Rattle.bucket_page.specs.directory.Reading.{header_at};
ghost use Rattle.buffer_pool.specs.Forms.{IsFreePage, IsHeaderPage, IsTombstonePage, IsWell, blank_page};

use bucket_page::directory::{
    DIRECTORY, DirectoryView, HEADER, Header, depth_of, directory_of, header_of, read_header,
};
use bucket_page::page_device::{PAYLOAD_BYTES, Payload};
use bucket_page::{BUCKET, BucketView, FREE, TOMBSTONE, bucket_of, link_of, read_page, write_free};
use std::marker::Model;

/// A payload that spells a page of a file, whatever the page's number is. A clause sees its bytes.
///
/// It was tested when it came from the device, and each change leaves it a page. So what it says is
/// read off its first byte and its fields, and nothing is tested again.
#[derive(Drop)]
pub struct FilePage {
    pub(crate) payload: Payload,
}

impl Model for FilePage {
    ghost use Rattle.std.specs.Prelude.{ℕ, List};
    ghost use Rattle.buffer_pool.specs.Forms.{IsWell};

    ghost Value = { List ℕ };

    ghost view = { λ p. p.payload };

    ghost invariant = { λ p. IsWell p.payload };
}

impl FilePage {
    /// A free page behind which there is none.
    pub fn blank() -> FilePage
        ensures { result ≡ blank_page }
    {
        let mut payload = [0; PAYLOAD_BYTES];
        write_free(&mut payload, 0);
        FilePage { payload }
    }

    /// The same page, once more.
    pub fn copy(&self) -> FilePage
        ensures { result ≡ self.now }
    {
        FilePage {
            payload: self.payload,
        }
    }

    /// The page that a payload spells, none where it spells none. This is the one test of it.
    pub fn read(payload: &Payload) -> Option<FilePage>
        ensures some { IfSome result (λ page. page ≡ payload.now) }
        ensures well { IsSome result ↔ IsWell payload.now }
    {
        if spells_page(payload) || spells_header(payload) {
            return Some(FilePage { payload: *payload });
        }
        None
    }

    /// Its bytes.
    pub fn payload(&self) -> &Payload
        ensures { result.now ≡ self.now }
    {
        &self.payload
    }

    /// What it says where it is a header.
    pub fn header(&self) -> Option<Header>
        ensures some { IfSome result
            (λ header. IsHeaderPage self.now × (header ≡ header_at self.now)) }
        ensures none { IfNone result (IsHeaderPage self.now → ⊥) }
    {
        if self.payload[0] != HEADER {
            return None;
        }
        Some(header_of(&self.payload))
    }

    /// The depth of the directory where it is a header. Its other fields are not read.
    pub fn depth(&self) -> Option<u8>
        ensures some { IfSome result
            (λ depth. IsHeaderPage self.now × (depth ≡ (header_at self.now).depth)) }
        ensures none { IfNone result (IsHeaderPage self.now → ⊥) }
    {
        if self.payload[0] != HEADER {
            return None;
        }
        Some(depth_of(&self.payload))
    }

    /// What it says where it is a bucket.
    pub fn bucket(&self) -> Option<BucketView<'_>>
        ensures some { IfSome result
            (λ bucket. IsBucketPage self.now × (bucket ≡ bucket_in self.now)) }
        ensures none { IfNone result (IsBucketPage self.now → ⊥) }
    {
        if self.payload[0] != BUCKET {
            return None;
        }
        Some(bucket_of(&self.payload))
    }

    /// Its entries where it is a page of the directory.
    pub fn directory(&self) -> Option<DirectoryView<'_>>
        ensures some { IfSome result
            (λ entries. IsDirectoryPage self.now × (entries ≡ entries_at self.now)) }
        ensures none { IfNone result (IsDirectoryPage self.now → ⊥) }
    {
        if self.payload[0] != DIRECTORY {
            return None;
        }
        Some(directory_of(&self.payload))
    }

    /// Where it is a tombstone: the page of the bucket that took its records.
    pub fn link(&self) -> Option<u32>
        ensures some { IfSome result
            (λ link. IsTombstonePage self.now × (link ≡ four_at 4 self.now)) }
        ensures none { IfNone result (IsTombstonePage self.now → ⊥) }
    {
        if self.payload[0] != TOMBSTONE {
            return None;
        }
        Some(link_of(&self.payload))
    }

    /// Where it is a free page: the next one on the list, 0 for the last.
    pub fn next_free(&self) -> Option<u32>
        ensures some { IfSome result (λ next. IsFreePage self.now × (next ≡ four_at 4 self.now)) }
        ensures none { IfNone result (IsFreePage self.now → ⊥) }
    {
        if self.payload[0] != FREE {
            return None;
        }
        Some(link_of(&self.payload))
    }
}

/// Whether a payload spells a header.
fn spells_header(payload: &Payload) -> bool
    ensures { IsTrue result ↔ IsHeaderPage payload.now }
{
    read_header(payload).is_ok()
}

/// Whether a payload spells another page.
fn spells_page(payload: &Payload) -> bool
    ensures { IsTrue result ↔ Spells (page_in payload.now) payload.now }
{
    read_page(payload).is_ok()
}
