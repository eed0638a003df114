//! The kinds of step.

ghost use Rattle.std.specs.Prelude.{◌≡◌};
ghost use Rattle.step_rules.specs.Kinds.{name_of, may_lengthen};

/// The most bytes of records that two buckets may have together to be merged, half the room of one.
pub const MERGED_BYTES: usize = 2024;

/// What one step does (docs/STEPS.md, "The kinds of step"). The first eight leave the structure
/// of the file, the next seven are those of a split and a doubling, the last six those of a
/// merge and a halving.
#[derive(Clone, Copy, PartialEq, Eq)]
pub enum Kind {
    /// One lock is granted.
    Grant,
    /// One lock is given back.
    Release,
    /// The directory's depth is read.
    ReadDepth,
    /// An entry of the directory is read.
    ReadEntry,
    /// The locked page is read.
    Look,
    /// The locked page is read again, and the next one locked in its place.
    Hop,
    /// A record is put, replaced or removed.
    WriteRecord,
    /// A call is decided.
    Decide,
    /// The first free page leaves the free list.
    TakePage,
    /// Upper entries of one directory page become the lower ones.
    CopyDirectory,
    /// The directory's depth rises by 1.
    RaiseDepth,
    /// The taken page becomes the upper half of a bucket.
    WriteNew,
    /// The bucket becomes its lower half.
    WriteOld,
    /// Entries of one directory page get their bucket.
    Retarget,
    /// The header counts the buckets as they now are.
    SetCounts,
    /// The left bucket takes in the records of the right one.
    WriteLeft,
    /// The right page names the left one.
    Tombstone,
    /// The directory's lock becomes exclusive.
    Convert,
    /// The right page becomes free.
    WriteFree,
    /// The free list begins with it.
    LinkFree,
    /// The directory's depth falls by 1.
    LowerDepth,
}

impl Kind {
    /// The name, as a schedule spells it.
    pub fn name(self) -> &'static str
        ensures { result.now ≡ name_of self }
    {
        match self {
            Kind::Grant => "Grant",
            Kind::Release => "Release",
            Kind::ReadDepth => "ReadDepth",
            Kind::ReadEntry => "ReadEntry",
            Kind::Look => "Look",
            Kind::Hop => "Hop",
            Kind::WriteRecord => "WriteRecord",
            Kind::Decide => "Decide",
            Kind::TakePage => "TakePage",
            Kind::CopyDirectory => "CopyDirectory",
            Kind::RaiseDepth => "RaiseDepth",
            Kind::WriteNew => "WriteNew",
            Kind::WriteOld => "WriteOld",
            Kind::Retarget => "Retarget",
            Kind::SetCounts => "SetCounts",
            Kind::WriteLeft => "WriteLeft",
            Kind::Tombstone => "Tombstone",
            Kind::Convert => "Convert",
            Kind::WriteFree => "WriteFree",
            Kind::LinkFree => "LinkFree",
            Kind::LowerDepth => "LowerDepth",
        }
    }

    /// Whether a step of this kind may make another seat's search longer by a hop.
    pub fn may_lengthen(self) -> bool
        ensures { result ≡ may_lengthen self }
    {
        matches!(self, Kind::WriteOld | Kind::Tombstone)
    }
}
