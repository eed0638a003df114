//! One record found or written within the bucket of its key.
//!
//! `step` does each deed itself at the page that answers, since each function on the way of a step
//! copies what that tells.

ghost use Rattle.std.specs.Prelude.{◌≡◌, IfSome, IsSome, true};
ghost use Rattle.page_locks.specs.declared.lock.LockName.{LockName};
ghost use Rattle.split_merge.specs.stale_search.SearchRuns.{HasNoLock};
ghost use Rattle.split_merge.specs.stale_search.Searches.{IsShared};
ghost use Rattle.record_file.specs.Words.{IsSeat, row_of, IsReady, EndsRow, Moved, Release, without_lock};
ghost use Rattle.record_file.specs.BucketAccesses.{SuitsKind, begun_access, bucket_locks, ended_in, found_of, has_ended, has_room, is_due, is_on_way, kind_for};
ghost use Rattle.record_file.specs.BucketRuns.{BucketHeads, FindsStraight, bucket_found};
ghost use Rattle.record_file.specs.BucketSteps.{MakesBucket};

use bucket_page::{RECORD_HEAD_BYTES, ROOM_BYTES, RecordKey};
use page_device::PageDevice;
use page_locks::{LockKind, LockName, LockTable};
use split_merge::buffer_pool::Pool;
use split_merge::file_pages::{FileFault, put_record, read_bucket, remove_record, replace_front};
use split_merge::stale_search::{Search, SearchPlace};
use std::marker::Model;
use std::mem::size_of;
use step_rules::{Kind, MERGED_BYTES, Progress};

/// What is done at the record of a key.
#[derive(Clone, Copy)]
pub enum Deed {
    /// It is found, and nothing is written.
    Find,
    /// It is put where the key has none and the bucket has room for it.
    Put,
    /// The first bytes of its value are replaced where the key has one.
    Replace,
    /// It is taken out where the key has one.
    Remove,
}

/// How far an access within a bucket has come.
#[derive(Clone, Copy)]
pub enum BucketStage {
    /// The page is searched for, and then written or given back.
    Searching,
    /// The record is written, and this page is to be given back. Behind it more is due, or nothing.
    Written(u32, bool),
    /// All locks are given back. Behind it more is due, or nothing: a second try where a bucket had
    /// no room for a record, a merge where it has a buddy and became small.
    Ended(bool),
}

/// An access to the record of a key within the bucket of that key: a search, the write where its
/// deed can be done, and the page is given back. The deed is lent to each step, as pages and locks
/// are.
#[derive(Drop)]
pub struct BucketAccess {
    key: RecordKey,
    search: Search,
    stage: BucketStage,
}

const _: () = prove!(size_of::<BucketAccess>() <= 300);

impl Model for BucketAccess {
    ghost use Rattle.record_file.specs.BucketAccesses.{BucketView, IsBucketAccess};

    ghost Value = { BucketView };

    ghost view = { λ b. record { search = b.search; stage = b.stage } };

    ghost invariant = { λ b. IsBucketAccess b.key b.search b.stage };
}

impl BucketAccess {
    /// An access for such a deed, at a key that has this pseudokey.
    pub fn new(deed: Deed, key: RecordKey, pseudokey: u32) -> BucketAccess
        ensures { result ≡ begun_access deed key pseudokey }
    {
        BucketAccess {
            key,
            search: Search::new(key, pseudokey, lock_kind(deed)),
            stage: BucketStage::Searching,
        }
    }

    /// The page that answered, and of the key the length of its value, none where it has no record.
    pub fn found(&self) -> Option<(u32, Option<usize>)>
        ensures { result ≡ found_of self.now }
    {
        match self.search.place() {
            SearchPlace::Found(page, found) => Some((page, found)),
            _ => None,
        }
    }

    /// Whether its search was granted the directory, and no page has answered it.
    pub fn is_searching(&self) -> bool
        ensures { result ≡ is_on_way self.now.search.place }
    {
        !matches!(
            self.search.place(),
            SearchPlace::GrantDirectory | SearchPlace::Found(_, _)
        )
    }

    /// Where it has given its page back, whether more is due behind it.
    pub fn ended(&self) -> Option<bool>
        ensures { result ≡ ended_in self.now.stage }
    {
        match self.stage {
            BucketStage::Ended(due) => Some(due),
            _ => None,
        }
    }

    /// Whether it has given its page back. A page has answered where it has ended.
    pub fn has_ended(&self) -> bool
        ensures ended { result ≡ has_ended self.now.stage }
        ensures answered { result ≡ true → IsSome (found_of self.now) }
    {
        matches!(self.stage, BucketStage::Ended(_))
    }

    /// One step of a deed. The value that is put is lent to it, or the bytes that replace the first
    /// ones of the value; of other deeds nothing is read of them. What was found may be read from
    /// the page after the step at which it answered, until the next.
    pub fn step<D: PageDevice>(
        &mut self,
        deed: Deed,
        pool: &mut Pool<D>,
        locks: &mut LockTable,
        seat: u8,
        bytes: &[u8],
    ) -> Progress<FileFault>
        requires seat { IsSeat locks.old seat }
        requires ready { IsReady pool.old }
        requires row { EndsRow (bucket_locks self.old) 2 (row_of locks.old seat) }
        requires kind { SuitsKind deed self.old.search.kind }
        ensures { MakesBucket deed seat bytes.now result self.old self.new
            pool.old pool.new locks.old locks.new }
    {
        match self.stage {
            BucketStage::Searching => {}
            BucketStage::Written(page, due) => return self.give_back(locks, seat, page, due),
            BucketStage::Ended(_) => return Progress::Ended,
        }
        let Some((page, found)) = self.found() else {
            return self.search.step(pool, locks, seat);
        };
        match (deed, found) {
            (Deed::Put, None) => {
                let used = match read_bucket(pool, page) {
                    Ok(sight) => sight.used,
                    Err(fault) => return Progress::Fault(fault),
                };
                // without room for it a second try is due
                if !has_room(used, bytes.len()) {
                    return self.give_back(locks, seat, page, true);
                }
                match put_record(pool, page, &self.key, bytes) {
                    Ok(()) => {
                        self.stage = BucketStage::Written(page, false);
                        Progress::Moved(Kind::WriteRecord)
                    }
                    Err(fault) => Progress::Fault(fault),
                }
            }
            (Deed::Replace, Some(_)) => match replace_front(pool, page, &self.key, bytes) {
                Ok(()) => {
                    self.stage = BucketStage::Written(page, false);
                    Progress::Moved(Kind::WriteRecord)
                }
                Err(fault) => Progress::Fault(fault),
            },
            (Deed::Remove, Some(len)) => {
                let sight = match read_bucket(pool, page) {
                    Ok(sight) => sight,
                    Err(fault) => return Progress::Fault(fault),
                };
                match remove_record(pool, page, &self.key) {
                    Ok(()) => {
                        let due = is_due(sight.depth, sight.used, len);
                        self.stage = BucketStage::Written(page, due);
                        Progress::Moved(Kind::WriteRecord)
                    }
                    Err(fault) => Progress::Fault(fault),
                }
            }
            // a find, a put where the key stands, a replace or a removal where it does not
            (_, _) => self.give_back(locks, seat, page, false),
        }
    }

    /// The page to which an access goes straight that has not begun, and a find to give it back at
    /// once. Nothing is done. It stands in whoever asks, so that an access which is begun for this
    /// alone is never in memory.
    #[inline(always)]
    pub fn heads_for<D: PageDevice>(
        &self,
        pool: &mut Pool<D>,
        locks: &LockTable,
        seat: u8,
    ) -> Option<u32>
        requires seat { IsSeat locks.now seat }
        requires ready { IsReady pool.old }
        requires row { EndsRow (bucket_locks self.now) 2 (row_of locks.now seat) }
        ensures pool { pool.new ≡ pool.old }
        ensures searches { IsSome result → self.now.stage ≡ BucketStage.Searching }
        ensures bare { IsSome result → HasNoLock (bucket_locks self.now) }
        ensures heads { IfSome result (λ page.
            BucketHeads seat page self.now pool.old locks.now) }
        ensures moves { IfSome result (λ page.
            FindsStraight seat page self.now pool.old locks.now) }
    {
        match self.stage {
            BucketStage::Searching => self.search.heads_for(pool, locks, seat),
            _ => None,
        }
    }

    /// A page has answered, was written with nothing more due behind it, and was given back.
    pub fn end_at(&mut self, page: u32, found: Option<usize>)
        ensures { self.new ≡ bucket_found page found self.old }
    {
        self.search.arrive(page, found);
        self.stage = BucketStage::Ended(false);
    }

    /// The page is given back, with more due behind it or nothing.
    fn give_back(
        &mut self,
        locks: &mut LockTable,
        seat: u8,
        page: u32,
        due: bool,
    ) -> Progress<FileFault>
        requires seat { IsSeat locks.old seat }
        requires answered { IsSome (found_of self.old) }
        ensures released { locks.new ≡ without_lock locks.old seat (LockName.Page page) }
        ensures ended { self.new ≡ record self.old { stage = BucketStage.Ended due } }
        ensures moved { result ≡ Moved Release }
    {
        locks.release(seat, LockName::Page(page));
        self.stage = BucketStage::Ended(due);
        Progress::Moved(Kind::Release)
    }
}

/// In which kind the search of a deed locks pages.
fn lock_kind(deed: Deed) -> LockKind
    ensures kind { result ≡ kind_for deed }
    ensures shared { IsShared result }
{
    match deed {
        Deed::Find => LockKind::Read,
        Deed::Put => LockKind::Selective,
        Deed::Replace => LockKind::Selective,
        Deed::Remove => LockKind::Selective,
    }
}

/// Whether a record whose value has so many bytes fits a bucket that has so many.
pub fn has_room(used: usize, bytes: usize) -> bool
    ensures { result ≡ has_room used bytes }
{
    bytes <= ROOM_BYTES && (used <= ROOM_BYTES && used + (RECORD_HEAD_BYTES + bytes) <= ROOM_BYTES)
}

/// Whether a merge is due after the removal of a record with a value of so many bytes, from a
/// bucket that had this depth and so many bytes.
pub(crate) fn is_due(depth: u8, used: usize, bytes: usize) -> bool
    ensures { result ≡ is_due depth used bytes }
{
    1 <= depth && used.saturating_sub(RECORD_HEAD_BYTES).saturating_sub(bytes) <= MERGED_BYTES
}
