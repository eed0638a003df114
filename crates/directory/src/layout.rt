//! Where the pages of a file and their fields stand (docs/FORMAT.md, "Pages").

ghost use Rattle.std.specs.Prelude.{◌≡◌};
ghost use Rattle.directory.specs.declared.layout.TheConstants.{LAYOUT, OLDER_LAYOUT};
ghost use Rattle.directory.specs.Layouts.{IsLayout, header_size, least_pages};

/// The numbers in which the layouts of files differ.
#[derive(Clone, Copy)]
pub struct Layout {
    /// The second byte of the header: the version of the format.
    pub version: u8,
    /// The greatest depth of the directory, and the greatest local depth of a bucket.
    pub greatest_depth: u8,
    /// Local depths of buckets, of each of which the header has a count.
    pub local_depths: usize,
    /// Pages of the directory, behind the header.
    pub directory_pages: u32,
    /// The page of the root bucket, behind the directory.
    pub root_page: u32,
}

/// The layout of this version. Each number below that differs between layouts is of it.
pub const LAYOUT: Layout = Layout {
    version: 2,
    greatest_depth: 17,
    local_depths: 18,
    directory_pages: 256,
    root_page: 257,
};

/// The layout of version 1, which is only read.
pub const OLDER_LAYOUT: Layout = Layout {
    version: 1,
    greatest_depth: 14,
    local_depths: 15,
    directory_pages: 32,
    root_page: 33,
};

impl Layout {
    /// Pages of the shortest file: up to the root bucket, with it.
    pub fn least_pages(&self) -> u32
        requires { IsLayout self.now }
        ensures { result ≡ least_pages self.now }
    {
        self.root_page + 1
    }

    /// Bytes of the header up to its last count, with it.
    pub fn header_size(&self) -> usize
        requires { IsLayout self.now }
        ensures { result ≡ header_size self.now }
    {
        COUNTS_BEGIN + 4 * self.local_depths
    }
}

/// Both layouts are right ones.
pub fn layouts_are_right()
    ensures today { IsLayout LAYOUT }
    ensures older { IsLayout OLDER_LAYOUT }
{}

/// The greatest depth of the directory, and the greatest local depth of a bucket.
pub const GREATEST_DEPTH: u8 = LAYOUT.greatest_depth;

/// Local depths of buckets, of each of which the header has a count.
pub const LOCAL_DEPTHS: usize = LAYOUT.local_depths;

/// The first page of the directory, behind the header.
pub const FIRST_DIRECTORY_PAGE: u32 = 1;

/// Pages of the directory.
pub const DIRECTORY_PAGES: u32 = LAYOUT.directory_pages;

/// The page of the root bucket, behind the directory.
pub const ROOT_PAGE: u32 = LAYOUT.root_page;

/// Pages of the shortest file: up to the root bucket, with it.
pub const LEAST_PAGES: u32 = LAYOUT.root_page + 1;

/// The first byte of the header.
pub const HEADER: u8 = 1;

/// The second byte of the header: the version of the format.
pub const VERSION: u8 = LAYOUT.version;

/// What the header has from its fifth byte on.
pub const MAGIC: [u8; 8] = *b"MSGQFILE";

/// Where the counts of the header begin, four bytes each.
pub const COUNTS_BEGIN: usize = 20;

/// Bytes of the counts.
pub const COUNTS_BYTES: usize = 4 * LAYOUT.local_depths;

/// Bytes of the header up to its last field, with it.
pub const HEADER_BYTES: usize = COUNTS_BEGIN + COUNTS_BYTES;

/// The first byte of a directory page.
pub const DIRECTORY: u8 = 2;

/// Bytes at the head of a directory page or of a bucket, before its entries or records.
pub const HEAD_BYTES: usize = 16;

/// Entries of a directory page.
pub const PAGE_ENTRIES: usize = 512;

/// Bytes of the entries of a directory page, four each.
pub const ENTRIES_BYTES: usize = 4 * PAGE_ENTRIES;
