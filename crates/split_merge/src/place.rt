//! Where a split is.

/// From which its next step is made. The page that was taken is the first number, from there on.
#[derive(Clone, Copy)]
pub enum SplitPlace {
    /// A free page is to be taken.
    TakePage,
    /// The directory doubles: on this page of it, the upper entries are to be copied.
    CopyDirectory(u32, u32),
    /// All upper entries are copied: the depth is to be raised.
    RaiseDepth(u32),
    /// The taken page is to become the upper half of the bucket.
    WriteNew(u32),
    /// The bucket is to become its lower half.
    WriteOld(u32),
    /// Entries are to name the new bucket: those on the directory page of this one, the
    /// first of them there.
    Retarget(u32, u32),
    /// All entries name their buckets: the counts are to be set.
    SetCounts(u32),
    /// The bucket is split.
    Done,
    /// No page was free, and the bucket's page is given back.
    Full,
}
