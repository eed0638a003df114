//! What is kept of a page.

ghost use Rattle.std.specs.Prelude.{◌≡◌};

use hash_file::Shape;

/// A page without its records: all that the chain, the list of free pages and the
/// directory see of it.
#[derive(Clone, Copy)]
pub enum Form {
    Bucket(Shape),
    /// A free page, and the next one on the list of free pages, 0 for the last.
    Free { next: u32 },
    /// A bucket that was merged into the one on the page that it names.
    Tombstone { left: u32 },
    /// The header or a directory page.
    Other,
}
