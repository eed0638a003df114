//! The machine.

ghost use Rattle.std.specs.Prelude.{◌≡◌, ◌<◌, ◌≤◌, ◌+◌, ◌%◌, ◌^◌, ℕ, List, false};
ghost use Rattle.split_merge.specs.Words.{RECORD_HEAD_BYTES, ROOM_BYTES, Pair, GREATEST_DEPTH, Lock, IsSeat, row_of, with_row, IsReady, WritesPages, Change, is_fault, HasNoFileLock, Sees, Step, world};
ghost use Rattle.split_merge.specs.Splits.{FullMeans, IsWanted, KeepsAim, Progresses, split_facts, split_locks, split_turn};

use crate::order::{after_copy, after_retarget, after_take};
use crate::place::SplitPlace;
use crate::wanted::Wanted;
use bucket_page::PseudoKey;
use directory::{Range, index, page_of};
use page_device::PageDevice;
use page_locks::{LockName, LockTable};
use stale_search::buffer_pool::Pool;
use stale_search::file_pages::{
    BucketSight, FileFault, copy_directory, count_split, raise_depth, read_header, retarget,
    take_page, write_new, write_old,
};
use std::marker::Model;
use std::mem::size_of;
use step_rules::{Kind, Progress};

/// A split of the bucket of a record that has no room there (Fagin et al. 1979; Ellis 1983).
#[derive(Drop)]
pub struct Split {
    wanted: Wanted,
    page: u32,
    whole: Range,
    next: u32,
    used: usize,
    depth: u8,
    place: SplitPlace,
}

const _: () = prove!(size_of::<Split>() <= 300);

impl Model for Split {
    ghost use Rattle.split_merge.specs.Splits.{IsSplit, SplitView};

    ghost Value = { SplitView };

    ghost view = { λ s. record {
      wanted = s.wanted;
      page = s.page;
      whole = s.whole;
      next = s.next;
      used = s.used;
      depth = s.depth;
      place = s.place;
    } };

    ghost invariant = { λ s. IsSplit (record {
      wanted = s.wanted;
      page = s.page;
      whole = s.whole;
      next = s.next;
      used = s.used;
      depth = s.depth;
      place = s.place;
    }) };
}

impl Split {
    /// A split of the bucket on a page, by what a Look showed of it, in a directory of a depth.
    pub fn new(wanted: Wanted, depth: u8, page: u32, sight: BucketSight) -> Split
        requires depth { depth ≤ GREATEST_DEPTH }
        requires shallow { sight.depth < GREATEST_DEPTH }
        requires full { ROOM_BYTES < sight.used + (RECORD_HEAD_BYTES + wanted.bytes) }
        ensures { result ≡ record {
          wanted = wanted;
          page = page;
          whole = record { depth = sight.depth; pattern = wanted.pseudokey % 2 ^ sight.depth };
          next = sight.next;
          used = sight.used;
          depth = depth;
          place = SplitPlace.TakePage;
        } }
    {
        let pattern = index(wanted.pseudokey, sight.depth);
        Split {
            wanted,
            page,
            whole: Range {
                depth: sight.depth,
                pattern,
            },
            next: sight.next,
            used: sight.used,
            depth,
            place: SplitPlace::TakePage,
        }
    }

    /// Where it is.
    pub fn place(&self) -> SplitPlace
        ensures { result ≡ self.now.place }
    {
        self.place
    }

    /// The depth of the directory, which the split may have raised.
    pub fn depth(&self) -> u8
        ensures value { result ≡ self.now.depth }
        ensures within { result ≤ GREATEST_DEPTH }
    {
        self.depth
    }

    /// One step.
    pub fn step<D: PageDevice, K: PseudoKey>(
        &mut self,
        pool: &mut Pool<D>,
        locks: &mut LockTable,
        keys: &K,
        seat: u8,
    ) -> Progress<FileFault>
        requires seat { IsSeat locks.old seat }
        requires ready { IsReady pool.old }
        // whatever the device gives
        ensures writes { WritesPages result pool.old pool.new }
        ensures aim { KeepsAim result self.old self.new }
        ensures row { (before : List Lock) → HasNoFileLock before →
            row_of locks.old seat ≡ split_locks self.old before →
            locks.new ≡ with_row locks.old seat (split_locks self.new before) }
        // on an honest device, in a sound world
        ensures progress { (change : Change) →
            Sees (K.of_key keys.now) seat (split_facts self.old) pool.old locks.old change →
            Progresses result self.old self.new pool.old pool.new }
        ensures step { (change : Change) (p : Pair) →
            IsWanted (K.of_key keys.now) self.old.wanted p →
            (before : List Lock) → HasNoFileLock before →
            row_of locks.old seat ≡ split_locks self.old before →
            Sees (K.of_key keys.now) seat (split_facts self.old) pool.old locks.old change →
            is_fault result ≡ false →
            Step (K.of_key keys.now) seat (split_turn p) result (split_facts self.new)
            pool.old pool.new locks.old locks.new change }
        ensures answer { (change : Change) (p : Pair) →
            IsWanted (K.of_key keys.now) self.old.wanted p →
            Sees (K.of_key keys.now) seat (split_facts self.old) pool.old locks.old change →
            is_fault result ≡ false →
            FullMeans (K.of_key keys.now) p self.old.place self.new.place
            (world pool.new.images locks.new change) }
    {
        match self.place {
            SplitPlace::TakePage => {
                let header = match read_header(pool) {
                    Ok(header) => header,
                    Err(fault) => return Progress::Fault(fault),
                };
                if header.first_free == 0 {
                    locks.release(seat, LockName::Page(self.page));
                    self.place = SplitPlace::Full;
                    return Progress::Moved(Kind::Release);
                }
                match take_page(pool) {
                    Ok(new) => {
                        self.place = after_take(self.whole, self.depth, new);
                        Progress::Moved(Kind::TakePage)
                    }
                    Err(fault) => Progress::Fault(fault),
                }
            }
            SplitPlace::CopyDirectory(new, page) => match copy_directory(pool, page) {
                Ok(()) => {
                    self.place = after_copy(self.whole, self.depth, new, page);
                    Progress::Moved(Kind::CopyDirectory)
                }
                Err(fault) => Progress::Fault(fault),
            },
            SplitPlace::RaiseDepth(new) => match raise_depth(pool) {
                Ok(()) => {
                    // the bucket was as deep as the directory
                    self.depth = self.whole.depth + 1;
                    self.place = SplitPlace::WriteNew(new);
                    Progress::Moved(Kind::RaiseDepth)
                }
                Err(fault) => Progress::Fault(fault),
            },
            SplitPlace::WriteNew(new) => match write_new(pool, keys, self.page, new) {
                Ok(()) => {
                    self.place = SplitPlace::WriteOld(new);
                    Progress::Moved(Kind::WriteNew)
                }
                Err(fault) => Progress::Fault(fault),
            },
            SplitPlace::WriteOld(new) => match write_old(pool, keys, self.page, new) {
                Ok(()) => {
                    self.place = SplitPlace::Retarget(new, self.whole.upper_half().pattern);
                    Progress::Moved(Kind::WriteOld)
                }
                Err(fault) => Progress::Fault(fault),
            },
            SplitPlace::Retarget(new, entry) => {
                match retarget(pool, page_of(entry), self.whole.upper_half(), new) {
                    Ok(()) => {
                        self.place = after_retarget(self.whole, self.depth, new, entry);
                        Progress::Moved(Kind::Retarget)
                    }
                    Err(fault) => Progress::Fault(fault),
                }
            }
            SplitPlace::SetCounts(_) => match count_split(pool, self.whole.depth) {
                Ok(()) => {
                    self.place = SplitPlace::Done;
                    Progress::Moved(Kind::SetCounts)
                }
                Err(fault) => Progress::Fault(fault),
            },
            SplitPlace::Done | SplitPlace::Full => Progress::Ended,
        }
    }
}
