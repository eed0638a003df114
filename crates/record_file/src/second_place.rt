//! Where the second try of an Insert is.

use crate::tried::Tried;
use split_merge::Split;
use split_merge::stale_search::Approach;

/// From which its next step is made. The directory is locked from the end of the approach on.
#[derive(Drop)]
pub enum SecondPlace {
    /// On the way to the bucket of the key.
    Approaching(Approach),
    /// The directory has this depth, and this page, which is locked, is to be read.
    Look(u8, u32),
    /// The page does not answer: the page that it names is to be locked in its place.
    Hop(u8, u32),
    /// The record is to be put on this page, which has so many bytes of records.
    Write(u32, usize),
    /// The bucket on this page is split.
    Splitting(u32, Split),
    /// It has come to this, and the page is to be given back.
    GiveBackPage(u32, Tried),
    /// It has come to this, and the directory is to be given back.
    GiveBackDirectory(Tried),
    /// All locks are given back.
    Ended(Tried),
}
