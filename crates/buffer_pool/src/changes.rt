//! Changes of a page in place.

ghost use Rattle.std.specs.Prelude.{◌≡◌, ◌↔◌, ℕ, ◌+◌, ◌<◌, ◌≤◌, IsErr, IsSome, None, OnErr, OnOk, length};
ghost use Rattle.bucket_page.specs.page_device.declared.page.TheConstants.{MAX_PAGES};
ghost use Rattle.bucket_page.specs.declared.layout.TheConstants.{RECORD_HEAD_BYTES, ROOM_BYTES};
ghost use Rattle.bucket_page.specs.declared.page.PageKind.TheVariants as kinds;
ghost use Rattle.bucket_page.specs.Changes.{Changes, IsBucketPage, IsPlace, fronted, inserted, removed, value_of_key};
ghost use Rattle.bucket_page.specs.Reading.{records_in};
ghost use Rattle.bucket_page.specs.Records.{lookup, pair, record_bytes};
ghost use Rattle.bucket_page.specs.Spelling.{Spells};
ghost use Rattle.bucket_page.specs.directory.declared.layout.TheConstants.{DIRECTORY_PAGES, FIRST_DIRECTORY_PAGE, GREATEST_DEPTH, LEAST_PAGES};
ghost use Rattle.bucket_page.specs.directory.Entries.{copied, entry_in, page_of, retargeted};
ghost use Rattle.bucket_page.specs.directory.Pages.{IsDirectoryPage};
ghost use Rattle.bucket_page.specs.directory.Spelling.{SpellsHeader};

use crate::file_page::FilePage;
use bucket_page::directory::{Header, Range, copy_upper, retarget, write_header};
use bucket_page::{
    DoesNotFit, Place, RecordKey, put, put_at, remove, remove_at, replace_front, replace_front_at,
    write_free, write_tombstone,
};

impl FilePage {
    /// Puts a record into a bucket that has none of its key. Where it does not fit
    /// nothing is changed.
    pub fn put(&mut self, key: &RecordKey, value: &[u8]) -> Result<(), DoesNotFit>
        requires bucket { IsBucketPage self.old }
        requires absent { lookup key.now (records_in self.old) ≡ None }
        ensures ok { OnOk result (Changes (inserted (pair key.now value.now)) self.old self.new) }
        ensures full { IsErr result ↔ ROOM_BYTES
            < length (record_bytes (records_in self.old)) + (RECORD_HEAD_BYTES + length value.now) }
        ensures err { OnErr result (self.new ≡ self.old) }
    {
        put(&mut self.payload, key, value)
    }

    /// Replaces the first bytes of the value of a key that the bucket has. The others
    /// stay where they are.
    pub fn replace_front(&mut self, key: &RecordKey, front: &[u8])
        requires bucket { IsBucketPage self.old }
        requires there { IsSome (lookup key.now (records_in self.old)) }
        requires long { length front.now ≤ length (value_of_key key.now (records_in self.old)) }
        ensures { Changes (fronted key.now front.now) self.old self.new }
    {
        replace_front(&mut self.payload, key, front);
    }

    /// Takes the record of a key that the bucket has.
    pub fn remove(&mut self, key: &RecordKey)
        requires bucket { IsBucketPage self.old }
        requires there { IsSome (lookup key.now (records_in self.old)) }
        ensures { Changes (removed key.now) self.old self.new }
    {
        remove(&mut self.payload, key);
    }

    /// Puts a record that fits at the place of its key, which has none.
    pub fn put_at(&mut self, place: &Place, value: &[u8])
        requires bucket { IsBucketPage self.old }
        requires place { IsPlace place.now (records_in self.old) }
        requires absent { lookup place.now.key (records_in self.old) ≡ None }
        requires room { length (record_bytes (records_in self.old))
            + (RECORD_HEAD_BYTES + length value.now) ≤ ROOM_BYTES }
        ensures { Changes (inserted (pair place.now.key value.now)) self.old self.new }
    {
        put_at(&mut self.payload, place, value);
    }

    /// Replaces the first bytes of the value that stands at a place. The others stay where they
    /// are.
    pub fn replace_front_at(&mut self, place: &Place, front: &[u8])
        requires bucket { IsBucketPage self.old }
        requires place { IsPlace place.now (records_in self.old) }
        requires there { IsSome (lookup place.now.key (records_in self.old)) }
        requires long { length front.now
            ≤ length (value_of_key place.now.key (records_in self.old)) }
        ensures { Changes (fronted place.now.key front.now) self.old self.new }
    {
        replace_front_at(&mut self.payload, place, front);
    }

    /// Takes the record out that stands at a place.
    pub fn remove_at(&mut self, place: &Place)
        requires bucket { IsBucketPage self.old }
        requires place { IsPlace place.now (records_in self.old) }
        requires there { IsSome (lookup place.now.key (records_in self.old)) }
        ensures { Changes (removed place.now.key) self.old self.new }
    {
        remove_at(&mut self.payload, place);
    }

    /// The doubling of a directory of a depth, on one of its pages: each entry of the upper
    /// half becomes that of the lower half, which stands on the page `lower`, as it was
    /// (Fagin et al. 1979).
    pub fn copy_upper(&mut self, page: u32, depth: u8, lower: &FilePage)
        requires first { FIRST_DIRECTORY_PAGE ≤ page }
        requires last { page ≤ DIRECTORY_PAGES }
        requires depth { depth < GREATEST_DEPTH }
        requires directory { IsDirectoryPage self.old }
        ensures ok { (i : ℕ) → page_of i ≡ page
            → entry_in self.new i ≡ copied depth lower.now self.old i }
        ensures directory { IsDirectoryPage self.new }
    {
        copy_upper(&mut self.payload, page, depth, &lower.payload);
    }

    /// Has the entries of a range on one page of a directory of a depth name a bucket's page.
    pub fn retarget(&mut self, page: u32, depth: u8, range: Range, bucket: u32)
        requires first { FIRST_DIRECTORY_PAGE ≤ page }
        requires last { page ≤ DIRECTORY_PAGES }
        requires depth { depth ≤ GREATEST_DEPTH }
        requires local_depth { range.depth ≤ GREATEST_DEPTH }
        requires directory { IsDirectoryPage self.old }
        ensures ok { (i : ℕ) → page_of i ≡ page
            → entry_in self.new i ≡ retargeted depth range bucket self.old i }
        ensures directory { IsDirectoryPage self.new }
    {
        retarget(&mut self.payload, page, depth, range, bucket);
    }

    /// Writes a header over the page.
    pub fn write_header(&mut self, header: &Header)
        requires depth { header.now.depth ≤ GREATEST_DEPTH }
        requires least { LEAST_PAGES ≤ header.now.pages }
        requires most { header.now.pages ≤ MAX_PAGES }
        ensures { SpellsHeader header.now self.new }
    {
        write_header(header, &mut self.payload);
    }

    /// Writes a tombstone over the page, whose link is the page of the bucket that
    /// took its records.
    pub fn write_tombstone(&mut self, link: u32)
        ensures { Spells (kinds.Tombstone link) self.new }
    {
        write_tombstone(&mut self.payload, link);
    }

    /// Writes a free page over the page; the next one on the list of free pages is 0 for the last.
    pub fn write_free(&mut self, next: u32)
        ensures { Spells (kinds.Free next) self.new }
    {
        write_free(&mut self.payload, next);
    }
}
