//! The second try of an Insert.

ghost use Rattle.std.specs.Prelude.{◌≡◌, ℕ, List, length};
ghost use Rattle.split_merge.specs.stale_search.declared.place.ApproachPlace.{ApproachPlace};
ghost use Rattle.record_file.specs.declared.second_place.SecondPlace.TheVariants as places;
ghost use Rattle.record_file.specs.InsertWords.{RecordKey, IsReady, IsSeat, row_of};
ghost use Rattle.record_file.specs.SecondTries.{HasSecondRow, said_at, tried_at};
ghost use Rattle.record_file.specs.SecondSteps.{MakesStep, MakesStepHere};

use crate::bucket_access::has_room;
use crate::second_place::SecondPlace;
use crate::tried::Tried;
use bucket_page::{PseudoKey, RecordKey};
use directory::GREATEST_DEPTH;
use page_device::PageDevice;
use page_locks::{Grant, LockKind, LockName, LockTable};
use split_merge::buffer_pool::Pool;
use split_merge::file_pages::{FileFault, Sight, look, put_record, read_bucket};
use split_merge::stale_search::{Approach, ApproachPlace};
use split_merge::{Split, SplitPlace, Wanted};
use std::marker::Model;
use std::mem::size_of;
use step_rules::{Kind, Progress};

/// The second try of an Insert: the directory and the bucket are locked so that the bucket may be
/// split, as often as the record has no room there (Fagin et al. 1979; Ellis 1983).
#[derive(Drop)]
pub struct SecondTry {
    key: RecordKey,
    pseudokey: u32,
    bytes: usize,
    place: SecondPlace,
}

const _: () = prove!(size_of::<SecondTry>() <= 300);

impl Model for SecondTry {
    ghost use Rattle.record_file.specs.SecondTries.{IsSecondPlace, SecondTryView};

    ghost Value = { SecondTryView };

    ghost view = { λ t. record {
      key = t.key;
      pseudokey = t.pseudokey;
      bytes = t.bytes;
      place = t.place;
    } };

    ghost invariant = { λ t.
        IsSecondPlace (record { key = t.key; pseudokey = t.pseudokey; bytes = t.bytes }) t.place };
}

impl SecondTry {
    /// A second try at a key that has this pseudokey, with a value of so many bytes.
    pub fn new(key: RecordKey, pseudokey: u32, bytes: usize) -> SecondTry
        ensures { result ≡ record {
          key = key;
          pseudokey = pseudokey;
          bytes = bytes;
          place = SecondPlace.Approaching (record {
            pseudokey = pseudokey;
            place = ApproachPlace.GrantDirectory;
          });
        } }
    {
        SecondTry {
            key,
            pseudokey,
            bytes,
            place: SecondPlace::Approaching(Approach::new(pseudokey)),
        }
    }

    /// What it came to, once it has ended.
    pub fn tried(&self) -> Option<Tried>
        ensures { result ≡ tried_at self.now.place }
    {
        match &self.place {
            SecondPlace::Ended(tried) => Some(*tried),
            _ => None,
        }
    }

    /// What it has come to, from the step on by which it did.
    pub fn said(&self) -> Option<Tried>
        ensures { result ≡ said_at self.now.place }
    {
        match &self.place {
            SecondPlace::GiveBackPage(_, tried) => Some(*tried),
            SecondPlace::GiveBackDirectory(tried) => Some(*tried),
            SecondPlace::Ended(tried) => Some(*tried),
            _ => None,
        }
    }

    /// One step, by the place. The value that is to be put is lent to it. It stands apart, since
    /// each step of an insert would make room for the pages of a split.
    #[inline(never)]
    pub fn step<D: PageDevice, K: PseudoKey>(
        &mut self,
        pool: &mut Pool<D>,
        locks: &mut LockTable,
        keys: &K,
        seat: u8,
        value: &[u8],
    ) -> Progress<FileFault>
        requires seat { IsSeat locks.old seat }
        requires ready { IsReady pool.old }
        requires row { HasSecondRow self.old (row_of locks.old seat) }
        requires lent { length value.now ≡ self.old.bytes }
        ensures { MakesStep (K.of_key keys.now) seat value.now result self.old self.new
            pool.old pool.new locks.old locks.new }
    {
        match &mut self.place {
            SecondPlace::Approaching(approach) => {
                let did = approach.step(pool, locks, seat);
                let ApproachPlace::At(depth, page) = approach.place() else {
                    return did;
                };
                self.place = SecondPlace::Look(depth, page);
                did
            }
            SecondPlace::Look(depth, page) => {
                let (depth, page) = (*depth, *page);
                self.look_at(pool, depth, page)
            }
            SecondPlace::Hop(depth, page) => {
                let (depth, page) = (*depth, *page);
                self.hop_from(pool, locks, seat, depth, page)
            }
            SecondPlace::Write(page, used) => {
                let (page, used) = (*page, *used);
                self.write_on(pool, page, used, value)
            }
            SecondPlace::Splitting(page, split) => {
                let page = *page;
                let did = split.step(pool, locks, keys, seat);
                match split.place() {
                    SplitPlace::Done => {
                        self.place = SecondPlace::Look(split.depth(), page);
                        did
                    }
                    SplitPlace::Full => {
                        self.place = SecondPlace::GiveBackDirectory(Tried::IsFull);
                        did
                    }
                    _ => did,
                }
            }
            SecondPlace::GiveBackPage(page, tried) => {
                let (page, tried) = (*page, *tried);
                locks.release(seat, LockName::Page(page));
                self.place = SecondPlace::GiveBackDirectory(tried);
                Progress::Moved(Kind::Release)
            }
            SecondPlace::GiveBackDirectory(tried) => {
                let tried = *tried;
                locks.release(seat, LockName::Directory);
                self.place = SecondPlace::Ended(tried);
                Progress::Moved(Kind::Release)
            }
            SecondPlace::Ended(_) => Progress::Ended,
        }
    }

    /// The page is read. Where it answers and has no such record, that is put, or
    /// the bucket is split.
    fn look_at<D: PageDevice>(
        &mut self,
        pool: &mut Pool<D>,
        depth: u8,
        page: u32,
    ) -> Progress<FileFault>
        requires ready { IsReady pool.old }
        requires place { self.old.place ≡ places.Look depth page }
        ensures { (value : List ℕ) → length value ≡ self.old.bytes →
            MakesStepHere value result self.old self.new pool.old pool.new }
    {
        let found = match look(pool, page, self.pseudokey, &self.key) {
            Ok(Sight::Covering(found)) => found,
            Ok(Sight::Naming(_)) => {
                self.place = SecondPlace::Hop(depth, page);
                return Progress::Moved(Kind::Look);
            }
            Err(fault) => return Progress::Fault(fault),
        };
        if found.is_some() {
            self.place = SecondPlace::GiveBackPage(page, Tried::IsThere);
            return Progress::Moved(Kind::Look);
        }
        let sight = match read_bucket(pool, page) {
            Ok(sight) => sight,
            Err(fault) => return Progress::Fault(fault),
        };
        if has_room(sight.used, self.bytes) {
            self.place = SecondPlace::Write(page, sight.used);
            return Progress::Moved(Kind::Look);
        }
        if sight.depth >= GREATEST_DEPTH {
            self.place = SecondPlace::GiveBackPage(page, Tried::IsFull);
            return Progress::Moved(Kind::Look);
        }
        if depth > GREATEST_DEPTH {
            return Progress::Fault(FileFault::Failed);
        }
        let wanted = Wanted {
            key: self.key,
            pseudokey: self.pseudokey,
            bytes: self.bytes,
        };
        self.place = SecondPlace::Splitting(page, Split::new(wanted, depth, page, sight));
        Progress::Moved(Kind::Look)
    }

    /// The page is read again. It answers by now, or the next one is locked in its place.
    fn hop_from<D: PageDevice>(
        &mut self,
        pool: &mut Pool<D>,
        locks: &mut LockTable,
        seat: u8,
        depth: u8,
        page: u32,
    ) -> Progress<FileFault>
        requires seat { IsSeat locks.old seat }
        requires ready { IsReady pool.old }
        requires row { HasSecondRow self.old (row_of locks.old seat) }
        requires place { self.old.place ≡ places.Hop depth page }
        ensures { (hash : RecordKey → ℕ) (value : List ℕ) → MakesStep hash seat value result
            self.old self.new pool.old pool.new locks.old locks.new }
    {
        match look(pool, page, self.pseudokey, &self.key) {
            Ok(Sight::Covering(_)) => {
                self.place = SecondPlace::Look(depth, page);
                Progress::Moved(Kind::Hop)
            }
            Ok(Sight::Naming(next)) => {
                if next == page {
                    return Progress::Fault(FileFault::Failed);
                }
                match locks.try_grant(seat, LockName::Page(next), LockKind::Selective) {
                    Grant::Granted => {
                        locks.release(seat, LockName::Page(page));
                        self.place = SecondPlace::Look(depth, next);
                        Progress::Moved(Kind::Hop)
                    }
                    Grant::Blocked(other) => Progress::Blocked(other),
                }
            }
            Err(fault) => Progress::Fault(fault),
        }
    }

    /// The record is put on the page.
    fn write_on<D: PageDevice>(
        &mut self,
        pool: &mut Pool<D>,
        page: u32,
        used: usize,
        value: &[u8],
    ) -> Progress<FileFault>
        requires ready { IsReady pool.old }
        requires place { self.old.place ≡ places.Write page used }
        requires lent { length value.now ≡ self.old.bytes }
        ensures { MakesStepHere value.now result self.old self.new pool.old pool.new }
    {
        match put_record(pool, page, &self.key, value) {
            Ok(()) => {
                self.place = SecondPlace::GiveBackPage(page, Tried::IsPut);
                Progress::Moved(Kind::WriteRecord)
            }
            Err(fault) => Progress::Fault(fault),
        }
    }
}
