//! What stands in the file is looked at.

use crate::bench::{Bench, Stage};
use crate::bytes::{
    bytes_at, free_behind, next_of, page_at, tell_header, tell_numbers, tell_page, value_of,
};
use crate::file::payload_of;
use crate::line::Line;
use crate::words::{Words, Wrong};
use page_device::Payload;

/// The page of the first bucket.
const ROOT: u32 = 257;

/// Entries of a directory page.
const ENTRIES: u32 = 512;

/// More pages than a file of a row has.
const MOST_PAGES: u32 = 2_000;

/// What is wanted where no page can be looked at.
const NO_PAGE: Wrong = Wrong::Wanted("a page of a file, or records,");

/// Something that is looked at.
#[derive(Clone, Copy)]
pub enum Look {
    Header,
    /// An entry of the directory.
    Entry,
    /// The pages of the chain.
    Chain,
    /// The pages of the free list.
    Free,
    Page,
    /// The numbers of the records on a page.
    Numbers,
    /// So many bytes of a page's payload from a place on.
    Bytes,
    /// The record of this key.
    Record,
}

/// These by their verbs.
pub const LOOKS: [(&[u8], Look); 8] = [
    (b"header", Look::Header),
    (b"entry", Look::Entry),
    (b"chain", Look::Chain),
    (b"free", Look::Free),
    (b"page", Look::Page),
    (b"numbers", Look::Numbers),
    (b"bytes", Look::Bytes),
    (b"record", Look::Record),
];

/// Pages each of which names the next.
#[derive(Clone, Copy)]
enum PageList {
    Chain,
    Free,
}

impl Bench {
    /// Looks, and tells what stands there.
    pub(crate) fn look(
        &mut self,
        look: Look,
        words: &mut Words<'_>,
        line: &mut Line,
    ) -> Result<(), Wrong> {
        match look {
            Look::Header => tell_header(&self.payload(0)?, line),
            Look::Entry => return self.entry(words, line),
            Look::Chain => return self.walk(PageList::Chain, ROOT, line),
            Look::Free => return self.walk_free(line),
            Look::Page => tell_page(&self.page(words)?, line),
            Look::Numbers => tell_numbers(&self.page(words)?, line),
            Look::Bytes => return self.bytes(words, line),
            Look::Record => return self.record(words, line),
        }
        Ok(())
    }

    /// The payload of the page that the next word names.
    fn page(&mut self, words: &mut Words<'_>) -> Result<Payload, Wrong> {
        let page = words.number("a page")?;
        self.payload(page)
    }

    /// Tells an entry of the directory.
    fn entry(&mut self, words: &mut Words<'_>, line: &mut Line) -> Result<(), Wrong> {
        let index = words.number("an index of the directory")?;
        let payload = self.payload(1 + index / ENTRIES)?;
        let at = 16 + 4 * (index % ENTRIES) as usize;
        line.number(u64::from(page_at(&payload, at)));
        Ok(())
    }

    /// Tells bytes of a page.
    fn bytes(&mut self, words: &mut Words<'_>, line: &mut Line) -> Result<(), Wrong> {
        let payload = self.page(words)?;
        let place = words.number("a place in the page")?;
        let many = words.number("a number of bytes")?;
        line.hex(bytes_at(&payload, place as usize, many as usize));
        Ok(())
    }

    /// The payload of a page.
    fn payload(&mut self, page: u32) -> Result<Payload, Wrong> {
        let payload = match &mut self.stage {
            Stage::File(device) => payload_of(device, page).ok(),
            Stage::Machines(machines) => machines.trial.payload(page).ok(),
            _ => None,
        };
        payload.ok_or(NO_PAGE)
    }

    /// Tells the pages of the free list.
    fn walk_free(&mut self, line: &mut Line) -> Result<(), Wrong> {
        let first = page_at(&self.payload(0)?, 16);
        self.walk(PageList::Free, first, line)
    }

    /// Tells the pages of a list from its first page on.
    fn walk(&mut self, list: PageList, first: u32, line: &mut Line) -> Result<(), Wrong> {
        if first == 0 {
            line.word("none");
        }
        let mut page = first;
        for _ in 0..MOST_PAGES {
            if page == 0 {
                return Ok(());
            }
            line.number(u64::from(page));
            let payload = self.payload(page)?;
            page = match list {
                PageList::Chain => next_of(&payload),
                PageList::Free => free_behind(&payload),
            };
        }
        line.word("and on");
        Ok(())
    }

    /// Tells the page of the chain that has the record of a key, and its value.
    fn record(&mut self, words: &mut Words<'_>, line: &mut Line) -> Result<(), Wrong> {
        let key = words.record_key()?;
        let mut page = ROOT;
        for _ in 0..MOST_PAGES {
            if page == 0 {
                break;
            }
            let payload = self.payload(page)?;
            if let Some(value) = value_of(&payload, key) {
                line.number(u64::from(page));
                line.hex(value);
                return Ok(());
            }
            page = next_of(&payload);
        }
        line.word("none");
        Ok(())
    }
}
