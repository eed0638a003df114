//! The two changes of a file's shape, step by step: a full bucket is split, with the doubling of the
//! directory where it needs one; and the bucket of a deleted key and its buddy become one.

#![tactic(auto)]

mod entries;
mod look;
mod merge;
mod merge_place;
mod order;
mod place;
mod split;
mod wanted;

pub use merge::Merge;
pub use merge_place::{Buddies, Joint, MergePlace, Own, Seen};
pub use place::SplitPlace;
pub use split::Split;
pub use stale_search;
pub use stale_search::{buffer_pool, file_pages};
pub use wanted::Wanted;

// Machines promise the same of a step, each in the words of its own places: docs/DECISIONS.md,
// "The repository", says why.
