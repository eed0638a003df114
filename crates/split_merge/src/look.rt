//! What a merge reads of the two buckets.

ghost use Rattle.std.specs.Prelude.{◌≡◌, ◌≤◌, ◌↔◌, ◌+◌, IsTrue};
ghost use Rattle.step_rules.specs.declared.kind.TheConstants.{MERGED_BYTES};
ghost use Rattle.directory.specs.declared.layout.TheConstants.{GREATEST_DEPTH};
ghost use Rattle.stale_search.specs.file_pages.Files.{IsReady};
ghost use Rattle.stale_search.specs.declared.place.ApproachPlace.TheVariants as approach_places;
ghost use Rattle.split_merge.specs.declared.merge_place.MergePlace.TheVariants as places;
ghost use Rattle.split_merge.specs.Places.{AreBuddies, IsOwn};
ghost use Rattle.split_merge.specs.Steps.{MakesStepHere};

use crate::merge::Merge;
use crate::merge_place::{Buddies, MergePlace, Own, Seen};
use directory::{Range, index};
use page_device::PageDevice;
use stale_search::buffer_pool::Pool;
use stale_search::file_pages::{FileFault, read_bucket, read_entry};
use step_rules::{Kind, MERGED_BYTES, Progress};

impl Merge {
    /// The bucket of the key is read. One of depth 0 has no buddy.
    pub(crate) fn look_own<D: PageDevice>(
        &mut self,
        pool: &mut Pool<D>,
        depth: u8,
        page: u32,
    ) -> Progress<FileFault>
        requires ready { IsReady pool.old }
        requires depth { depth ≤ GREATEST_DEPTH }
        requires place { self.old.place ≡ places.Approaching }
        requires reached { self.old.approach.place ≡ approach_places.At depth page }
        ensures { MakesStepHere result self.old self.new pool.old pool.new }
    {
        let sight = match read_bucket(pool, page) {
            Ok(sight) => sight,
            Err(fault) => return Progress::Fault(fault),
        };
        let range = Range {
            depth: sight.depth,
            pattern: sight.pattern,
        };
        if !range.is_valid() {
            return Progress::Fault(FileFault::Failed);
        }
        if range.depth == 0 {
            self.place = MergePlace::GiveUp(page);
            return Progress::Moved(Kind::Look);
        }
        let seen = Seen {
            next: sight.next,
            used: sight.used,
        };
        self.place = MergePlace::ReadBuddy(Own {
            depth,
            page,
            range,
            seen,
        });
        Progress::Moved(Kind::Look)
    }

    /// The entry of the buddy is read.
    pub(crate) fn read_buddy<D: PageDevice>(
        &mut self,
        pool: &mut Pool<D>,
        own: Own,
    ) -> Progress<FileFault>
        requires ready { IsReady pool.old }
        requires place { self.old.place ≡ places.ReadBuddy own }
        requires own { IsOwn own }
        ensures { MakesStepHere result self.old self.new pool.old pool.new }
    {
        let buddy = match read_entry(pool, index(own.range.buddy().pattern, own.depth)) {
            Ok(buddy) => buddy,
            Err(fault) => return Progress::Fault(fault),
        };
        if buddy == own.page {
            return Progress::Fault(FileFault::Failed);
        }
        if own.range.is_lower_half() {
            let b = own.beside(own.page, buddy);
            self.place = MergePlace::GrantRight(b, own.seen);
            return Progress::Moved(Kind::ReadEntry);
        }
        self.place = MergePlace::GiveBack(own.beside(buddy, own.page));
        Progress::Moved(Kind::ReadEntry)
    }

    /// The left page is read, where the key's bucket is the right one.
    pub(crate) fn look_left<D: PageDevice>(
        &mut self,
        pool: &mut Pool<D>,
        b: Buddies,
    ) -> Progress<FileFault>
        requires ready { IsReady pool.old }
        requires place { self.old.place ≡ places.LookLeft b }
        requires buddies { AreBuddies b }
        ensures { MakesStepHere result self.old self.new pool.old pool.new }
    {
        let sight = match read_bucket(pool, b.left) {
            Ok(sight) => sight,
            Err(fault) => return Progress::Fault(fault),
        };
        if sight.depth != b.range.depth {
            self.place = MergePlace::GiveUpRight(b.left, b.right);
            return Progress::Moved(Kind::Look);
        }
        let seen = Seen {
            next: sight.next,
            used: sight.used,
        };
        self.place = MergePlace::LookRight(b, seen);
        Progress::Moved(Kind::Look)
    }

    /// The right page is read, and it is known whether the two can be merged.
    pub(crate) fn look_right<D: PageDevice>(
        &mut self,
        pool: &mut Pool<D>,
        b: Buddies,
        left: Seen,
    ) -> Progress<FileFault>
        requires ready { IsReady pool.old }
        requires place { self.old.place ≡ places.LookRight b left }
        requires buddies { AreBuddies b }
        ensures { MakesStepHere result self.old self.new pool.old pool.new }
    {
        let sight = match read_bucket(pool, b.right) {
            Ok(sight) => sight,
            Err(fault) => return Progress::Fault(fault),
        };
        if sight.depth != b.range.depth {
            self.place = MergePlace::GiveUpRight(b.left, b.right);
            return Progress::Moved(Kind::Look);
        }
        if !fit_together(left.used, sight.used) {
            self.place = MergePlace::GiveUpRight(b.left, b.right);
            return Progress::Moved(Kind::Look);
        }
        let right = Seen {
            next: sight.next,
            used: sight.used,
        };
        self.place = MergePlace::WriteLeft(b, left, right);
        Progress::Moved(Kind::Look)
    }
}

/// Whether so many bytes of records are few enough for one bucket.
fn fit_together(left: usize, right: usize) -> bool
    ensures { IsTrue result ↔ (left + right ≤ MERGED_BYTES) }
{
    left <= MERGED_BYTES && right <= MERGED_BYTES - left
}
