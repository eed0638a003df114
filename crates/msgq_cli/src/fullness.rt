//! How full a file is. No claim rests on these words.

use crate::complaint::tell;
use directory::{ROOT_PAGE, read_header};
use page_device::{PAGE_BYTES, PageDevice, unseal};
use std::fmt;
use std::fmt::{Display, Formatter};
use std::io::Write;

/// How many pages a file has, and what they are used for.
#[derive(Clone, Copy)]
pub struct Fullness {
    /// Its pages.
    pub pages: u32,
    /// Those that hold records.
    pub buckets: u32,
    /// Those that are free.
    pub free: u32,
    /// The depth of its directory.
    pub depth: u8,
}

impl Fullness {
    /// Says it on standard error.
    pub fn tell<E: Write>(self, file: &str, errors: &mut E) {
        let Fullness {
            pages,
            buckets,
            free,
            depth,
        } = self;
        tell(
            file,
            format_args!(
                "{pages} pages: {ROOT_PAGE} of the header and the directory, {buckets} of records, \
                {free} free; the directory has depth {depth}"
            ),
            errors,
        );
    }
}

/// How full the file of a device is, where its header can be read.
pub fn read_fullness<D: PageDevice>(device: &mut D) -> Option<Fullness> {
    let mut first = [0; PAGE_BYTES];
    device.read(0, &mut first).ok()?;
    let header = read_header(&unseal(0, &first).ok()?).ok()?;
    // Each page from the root on is a bucket that is counted, or free.
    let mut buckets = 0u32;
    for count in header.counts.iter() {
        buckets = buckets.saturating_add(*count);
    }
    Some(Fullness {
        pages: header.pages,
        buckets,
        free: header
            .pages
            .saturating_sub(ROOT_PAGE)
            .saturating_sub(buckets),
        depth: header.depth,
    })
}

/// What fault 50 of a line says, of a file that is so full.
#[derive(Clone, Copy)]
pub(crate) struct NoRoom(pub Option<Fullness>);

impl Display for NoRoom {
    fn fmt<W: fmt::Write>(&self, f: &mut Formatter<W>) -> fmt::Result {
        f.write_str("there is no room for its records: ")?;
        if let Some(fullness) = self.0 {
            fullness.tell_free(f)?;
        }
        f.write_str("take messages out, or go on in a larger file")
    }
}

impl Fullness {
    /// How many pages are free.
    fn tell_free<W: fmt::Write>(self, f: &mut Formatter<W>) -> fmt::Result {
        let Fullness { pages, free, .. } = self;
        if free == 0 {
            return write!(f, "no page is free ({pages} of {pages} are in use): ");
        }
        write!(
            f,
            "{free} of {pages} pages are free, and none is of use here: "
        )
    }
}
