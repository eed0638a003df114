//! The machine.

ghost use Rattle.std.specs.Prelude.{◌≡◌, ◌<◌, None, IsSome, length};
ghost use Rattle.page_locks.specs.declared.row.TheConstants.{MAX_LOCKS};
ghost use Rattle.page_locks.specs.Table.{IsSeat, row_of, without_lock, held};
ghost use Rattle.stale_search.specs.file_pages.Files.{IsReady};
ghost use Rattle.split_merge.specs.Places.{HasMergeRow, IsMergePlace, at};
ghost use Rattle.split_merge.specs.Steps.{GoesOn, IsConverted, IsGranted, MakesStep};

use crate::merge_place::MergePlace;
use bucket_page::RecordKey;
use directory::page_of;
use page_device::PageDevice;
use page_locks::{Grant, LockKind, LockName, LockTable};
use stale_search::buffer_pool::Pool;
use stale_search::file_pages::{
    FileFault, count_merge, link_free, lower_depth, read_header, retarget, write_free, write_left,
    write_tombstone,
};
use stale_search::{Approach, ApproachPlace};
use std::marker::Model;
use std::mem::size_of;
use step_rules::{Kind, Progress};

/// The second half of a Delete: the bucket of its key and that bucket's buddy become one, where
/// they have room together (Fagin et al. 1979; Ellis 1983).
#[derive(Drop)]
pub struct Merge {
    key: RecordKey,
    approach: Approach,
    pub(crate) place: MergePlace,
}

const _: () = prove!(size_of::<Merge>() <= 300);

impl Model for Merge {
    ghost use Rattle.split_merge.specs.Places.{MergeView, IsMergePlace};

    ghost Value = { MergeView };

    ghost view = { λ m. record { key = m.key; approach = m.approach; place = m.place } };

    ghost invariant = { λ m. IsMergePlace m.place };
}

impl Merge {
    /// A merge of the bucket of a key of this pseudokey, of which the record was removed.
    pub fn new(key: RecordKey, pseudokey: u32) -> Merge
        ensures { result ≡ record {
          key = key;
          approach = record { pseudokey = pseudokey; place = ApproachPlace.GrantDirectory };
          place = MergePlace.Approaching;
        } }
    {
        Merge {
            key,
            approach: Approach::new(pseudokey),
            place: MergePlace::Approaching,
        }
    }

    /// Where it is.
    pub fn place(&self) -> MergePlace
        ensures { result ≡ self.now.place }
    {
        self.place
    }

    /// One step, by the place. It stands apart, since each step of an access would make room for the
    /// pages of a merge.
    #[inline(never)]
    pub fn step<D: PageDevice>(
        &mut self,
        pool: &mut Pool<D>,
        locks: &mut LockTable,
        seat: u8,
    ) -> Progress<FileFault>
        requires seat { IsSeat locks.old seat }
        requires ready { IsReady pool.old }
        requires row { HasMergeRow self.old (row_of locks.old seat) }
        ensures { MakesStep seat result self.old self.new pool.old pool.new locks.old locks.new }
    {
        match self.place {
            MergePlace::Approaching => match self.approach.place() {
                ApproachPlace::At(depth, page) => self.look_own(pool, depth, page),
                _ => self.approach.step(pool, locks, seat),
            },
            MergePlace::ReadBuddy(own) => self.read_buddy(pool, own),
            MergePlace::GrantRight(b, seen) => {
                let next = MergePlace::LookRight(b, seen);
                self.grant(locks, seat, b.right, LockKind::Selective, next)
            }
            MergePlace::GiveBack(b) => {
                self.release(
                    locks,
                    seat,
                    LockName::Page(b.right),
                    MergePlace::GrantLeft(b),
                )
            }
            MergePlace::GrantLeft(b) => {
                let next = MergePlace::GrantRightAgain(b);
                self.grant(locks, seat, b.left, LockKind::Selective, next)
            }
            MergePlace::GrantRightAgain(b) => {
                let next = MergePlace::LookLeft(b);
                self.grant(locks, seat, b.right, LockKind::Selective, next)
            }
            MergePlace::LookLeft(b) => self.look_left(pool, b),
            MergePlace::LookRight(b, seen) => self.look_right(pool, b, seen),
            MergePlace::WriteLeft(b, _, _) => {
                let done = write_left(pool, b.left, b.right);
                self.go_on(done, Kind::WriteLeft, MergePlace::Tombstone(b.joint()))
            }
            MergePlace::Tombstone(j) => {
                let done = write_tombstone(pool, j.left, j.right);
                self.go_on(done, Kind::Tombstone, j.behind_tombstone())
            }
            MergePlace::Retarget(j, entry) => {
                let done = retarget(pool, page_of(entry), j.whole.upper_half(), j.left);
                self.go_on(done, Kind::Retarget, j.behind_entry(entry))
            }
            MergePlace::SetCounts(j) => {
                let done = count_merge(pool, j.whole.depth);
                self.go_on(done, Kind::SetCounts, MergePlace::ReleaseRight(j))
            }
            MergePlace::ReleaseRight(j) => {
                let next = MergePlace::ReleaseLeft(j);
                self.release(locks, seat, LockName::Page(j.right), next)
            }
            MergePlace::ReleaseLeft(j) => {
                let next = MergePlace::Convert(j);
                self.release(locks, seat, LockName::Page(j.left), next)
            }
            MergePlace::Convert(j) => self.convert(locks, seat, MergePlace::GrantAlone(j)),
            MergePlace::GrantAlone(j) => {
                let next = MergePlace::WriteFree(j);
                self.grant(locks, seat, j.right, LockKind::Exclusive, next)
            }
            MergePlace::WriteFree(j) => {
                let done = write_free(pool, j.right);
                self.go_on(done, Kind::WriteFree, MergePlace::LinkFree(j.right))
            }
            MergePlace::LinkFree(page) => {
                let done = link_free(pool, page);
                self.go_on(done, Kind::LinkFree, MergePlace::LowerDepth(page))
            }
            MergePlace::LowerDepth(page) => self.lower_or_leave(pool, locks, seat, page),
            MergePlace::ReleaseAlone(_, _) => {
                self.release(locks, seat, LockName::Directory, MergePlace::Done)
            }
            MergePlace::GiveUpRight(left, right) => {
                let next = MergePlace::GiveUp(left);
                self.release(locks, seat, LockName::Page(right), next)
            }
            MergePlace::GiveUp(page) => {
                let next = MergePlace::ReleaseDirectory;
                self.release(locks, seat, LockName::Page(page), next)
            }
            MergePlace::ReleaseDirectory => {
                self.release(locks, seat, LockName::Directory, MergePlace::Done)
            }
            MergePlace::Done => Progress::Ended,
        }
    }

    /// The depth is lowered where no bucket has it; else the freed page is given back.
    fn lower_or_leave<D: PageDevice>(
        &mut self,
        pool: &mut Pool<D>,
        locks: &mut LockTable,
        seat: u8,
        page: u32,
    ) -> Progress<FileFault>
        requires seat { IsSeat locks.old seat }
        requires ready { IsReady pool.old }
        requires row { HasMergeRow self.old (row_of locks.old seat) }
        requires place { self.old.place ≡ MergePlace.LowerDepth page }
        ensures { MakesStep seat result self.old self.new pool.old pool.new locks.old locks.new }
    {
        let header = match read_header(pool) {
            Ok(header) => header,
            Err(fault) => return Progress::Fault(fault),
        };
        let count = header.count(header.depth);
        if header.depth > 0 && count == 0 {
            let done = lower_depth(pool);
            return self.go_on(done, Kind::LowerDepth, MergePlace::LowerDepth(page));
        }
        let next = MergePlace::ReleaseAlone(header.depth, count);
        self.release(locks, seat, LockName::Page(page), next)
    }

    /// A page is locked.
    fn grant(
        &mut self,
        locks: &mut LockTable,
        seat: u8,
        page: u32,
        kind: LockKind,
        next: MergePlace,
    ) -> Progress<FileFault>
        requires seat { IsSeat locks.old seat }
        requires room { length (row_of locks.old seat) < MAX_LOCKS }
        requires fresh { held locks.old seat (LockName.Page page) ≡ None }
        requires sound { IsMergePlace next }
        ensures { IsGranted result seat (LockName.Page page) kind
            self.old (at next self.old) self.new locks.old locks.new }
    {
        match locks.try_grant(seat, LockName::Page(page), kind) {
            Grant::Granted => {
                self.place = next;
                Progress::Moved(Kind::Grant)
            }
            Grant::Blocked(other) => Progress::Blocked(other),
        }
    }

    /// The directory's lock becomes exclusive.
    fn convert(&mut self, locks: &mut LockTable, seat: u8, next: MergePlace) -> Progress<FileFault>
        requires seat { IsSeat locks.old seat }
        requires held { IsSome (held locks.old seat LockName.Directory) }
        requires sound { IsMergePlace next }
        ensures { IsConverted result seat
            self.old (at next self.old) self.new locks.old locks.new }
    {
        match locks.convert(seat, LockName::Directory, LockKind::Exclusive) {
            Grant::Granted => {
                self.place = next;
                Progress::Moved(Kind::Convert)
            }
            Grant::Blocked(other) => Progress::Blocked(other),
        }
    }

    /// A name is given back.
    fn release(
        &mut self,
        locks: &mut LockTable,
        seat: u8,
        name: LockName,
        next: MergePlace,
    ) -> Progress<FileFault>
        requires seat { IsSeat locks.old seat }
        requires sound { IsMergePlace next }
        ensures moved { result ≡ Progress.Moved Kind.Release }
        ensures place { self.new ≡ at next self.old }
        ensures locks { locks.new ≡ without_lock locks.old seat name }
    {
        locks.release(seat, name);
        self.place = next;
        Progress::Moved(Kind::Release)
    }

    /// A page was written, or could not be.
    fn go_on(
        &mut self,
        done: Result<(), FileFault>,
        kind: Kind,
        next: MergePlace,
    ) -> Progress<FileFault>
        requires sound { IsMergePlace next }
        ensures { GoesOn done result kind self.old (at next self.old) self.new }
    {
        match done {
            Ok(()) => {
                self.place = next;
                Progress::Moved(kind)
            }
            Err(fault) => Progress::Fault(fault),
        }
    }
}
