//! Where a merge is.

ghost use Rattle.std.specs.Prelude.{◌≡◌, ◌≢◌};
ghost use Rattle.split_merge.specs.Places.{AreBuddies, HasEntry, IsJoint, IsMergePlace, IsOwn};
ghost use Rattle.directory.specs.Ranges.{Covers, upper_half_of};
ghost use Rattle.split_merge.specs.Places.{beside, entry_behind, first_entry, joint_of, retargets_from, stride_of};

use directory::{PAGE_ENTRIES, Range};

/// What was seen of a locked bucket beside its range.
#[derive(Clone, Copy)]
pub struct Seen {
    /// The next page on the chain.
    pub next: u32,
    /// The bytes of its records.
    pub used: usize,
}

/// The bucket of the key, which is locked.
#[derive(Clone, Copy)]
pub struct Own {
    /// The depth of the directory.
    pub depth: u8,
    pub page: u32,
    pub range: Range,
    pub seen: Seen,
}

/// The bucket of the key and its buddy: the left one is that of which the last bit
/// that counts is 0.
#[derive(Clone, Copy)]
pub struct Buddies {
    /// The depth of the directory.
    pub depth: u8,
    /// The range of the key's bucket.
    pub range: Range,
    /// The next page of the key's bucket.
    pub next: u32,
    pub left: u32,
    pub right: u32,
}

/// Two buckets that become one, on the left page.
#[derive(Clone, Copy)]
pub struct Joint {
    /// The depth of the directory.
    pub depth: u8,
    pub left: u32,
    pub right: u32,
    /// The range of both together.
    pub whole: Range,
}

/// From which the next step of a merge is made.
#[derive(Clone, Copy)]
pub enum MergePlace {
    /// On the way to the bucket of the key, which is read once it is reached.
    Approaching,
    /// The entry of the bucket's buddy is to be read.
    ReadBuddy(Own),
    /// The key's bucket is the left one: the right page is to be locked.
    GrantRight(Buddies, Seen),
    /// The key's bucket is the right one: it is to be given back, since the left
    /// page is locked first.
    GiveBack(Buddies),
    /// The left page is to be locked.
    GrantLeft(Buddies),
    /// The right page is to be locked again.
    GrantRightAgain(Buddies),
    /// The left page is to be read.
    LookLeft(Buddies),
    /// This was seen of the left page, and the right one is to be read.
    LookRight(Buddies, Seen),
    /// This was seen of the left page and of the right one: the left one is to take
    /// the records of both.
    WriteLeft(Buddies, Seen, Seen),
    /// The right page is to name the left one.
    Tombstone(Joint),
    /// The page of the directory with this entry is next to be retargeted.
    Retarget(Joint, u32),
    /// The header is to count one bucket in place of two.
    SetCounts(Joint),
    /// The right page is to be given back.
    ReleaseRight(Joint),
    /// The left page is to be given back.
    ReleaseLeft(Joint),
    /// The directory's lock is to become exclusive.
    Convert(Joint),
    /// The right page is to be locked exclusively.
    GrantAlone(Joint),
    /// The right page is to become free.
    WriteFree(Joint),
    /// The list of free pages is to begin with this page.
    LinkFree(u32),
    /// The depth is to be lowered while no bucket has it, and then this page to be given back.
    LowerDepth(u32),
    /// The directory, which has this depth with so many buckets of it, is to be given back
    /// from an exclusive lock.
    ReleaseAlone(u8, u32),
    /// The merge is given up: of these pages, the left one first, the right one is
    /// to be given back.
    GiveUpRight(u32, u32),
    /// The merge is given up: this page is to be given back.
    GiveUp(u32),
    /// The merge is given up: the directory is to be given back.
    ReleaseDirectory,
    /// Nothing is locked any more.
    Done,
}

impl Own {
    /// With its buddy, as the left one and the right one.
    pub(crate) fn beside(self, left: u32, right: u32) -> Buddies
        requires own { IsOwn self }
        requires apart { left ≢ right }
        ensures value { result ≡ beside self left right }
        ensures sound { AreBuddies result }
    {
        Buddies {
            depth: self.depth,
            range: self.range,
            next: self.seen.next,
            left,
            right,
        }
    }
}

impl Buddies {
    /// The one that both become.
    pub(crate) fn joint(self) -> Joint
        requires buddies { AreBuddies self }
        ensures value { result ≡ joint_of self }
        ensures sound { IsJoint result }
    {
        Joint {
            depth: self.depth,
            left: self.left,
            right: self.right,
            whole: self.range.parent(),
        }
    }
}

impl Joint {
    /// Where a merge goes on after its tombstone.
    pub(crate) fn behind_tombstone(self) -> MergePlace
        requires joint { IsJoint self }
        ensures value { result ≡ retargets_from self (first_entry self) }
        ensures sound { IsMergePlace result }
    {
        self.retargets_from(u64::from(self.whole.upper_half().pattern))
    }

    /// Where it goes on behind the page of the directory with this entry. On each page one entry of
    /// the right range is enough, so the next one is that of the next page which has any.
    pub(crate) fn behind_entry(self, entry: u32) -> MergePlace
        requires entry { HasEntry self entry }
        ensures value { result ≡ retargets_from self (entry_behind self entry) }
        ensures sound { IsMergePlace result }
    {
        self.retargets_from(u64::from(entry) + self.stride())
    }

    /// So far apart are entries of which one a page is enough.
    fn stride(self) -> u64
        requires joint { IsJoint self }
        ensures { result ≡ stride_of self }
    {
        let apart = 2u64 << self.whole.depth;
        if apart < PAGE_ENTRIES as u64 {
            return PAGE_ENTRIES as u64;
        }
        apart
    }

    /// At the page with this entry, if the directory has it.
    fn retargets_from(self, entry: u64) -> MergePlace
        requires joint { IsJoint self }
        requires covered { Covers (upper_half_of self.whole) entry }
        ensures value { result ≡ retargets_from self entry }
        ensures sound { IsMergePlace result }
    {
        if entry < 1 << self.depth {
            return MergePlace::Retarget(self, entry as u32);
        }
        MergePlace::SetCounts(self)
    }
}
