//! What a chain and a directory see of a bucket.

use directory::Range;

/// A bucket without its records.
#[derive(Clone, Copy)]
pub struct Shape {
    /// The pseudokeys that it may hold.
    pub range: Range,
    /// The next page on the chain, 0 for the last.
    pub next: u32,
}
