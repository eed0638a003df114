//! The machine.
//!
//! `step` is a match on the places. A hop alone does two things: it looks at the page again, which
//! may answer by now, and where it does not, the next one is locked in its place.

ghost use Rattle.std.specs.Prelude.{◌≡◌, IfSome, IsSome};
ghost use Rattle.page_locks.specs.Table.{IsSeat, row_of};
ghost use Rattle.file_pages.specs.Files.{IsReady};
ghost use Rattle.stale_search.specs.Steps.{Advances, FollowsRow, MakesStep, ReadsPages};
ghost use Rattle.stale_search.specs.Searches.{GivesAnswer, HasRow, IsShared, KeepsAim};
ghost use Rattle.stale_search.specs.SearchRuns.{GoesStraight, HasNoLock, search_at};
ghost use Rattle.stale_search.specs.Searches.{search_facts, search_locks, search_turn, left_in};

use crate::place::SearchPlace;
use directory::index;
use file_pages::bucket_page::RecordKey;
use file_pages::buffer_pool::Pool;
use file_pages::page_device::PageDevice;
use file_pages::{
    FileFault, Sight, look, peek_depth, peek_entry, peek_range, read_depth, read_entry,
};
use page_locks::{Grant, LockKind, LockName, LockTable};
use std::marker::Model;
use std::mem::size_of;
use step_rules::{Kind, Progress};

/// A search for the bucket of a key (Ellis 1983).
#[derive(Drop)]
pub struct Search {
    key: RecordKey,
    pseudokey: u32,
    kind: LockKind,
    place: SearchPlace,
    hops: u64,
}

const _: () = prove!(size_of::<Search>() <= 300);

impl Model for Search {
    ghost use Rattle.stale_search.specs.Searches.{SearchView, IsSearch};

    ghost Value = { SearchView };

    ghost view = { λ s. record {
      key = s.key;
      pseudokey = s.pseudokey;
      kind = s.kind;
      place = s.place;
      hops = s.hops;
    } };

    ghost invariant = { λ s. IsSearch s.kind s.place s.hops };
}

impl Search {
    /// A search for a key of this pseudokey, that locks pages in this kind.
    pub fn new(key: RecordKey, pseudokey: u32, kind: LockKind) -> Search
        requires shared { IsShared kind }
        ensures { result ≡ record {
          key = key;
          pseudokey = pseudokey;
          kind = kind;
          place = SearchPlace.GrantDirectory;
          hops = 0;
        } }
    {
        Search {
            key,
            pseudokey,
            kind,
            place: SearchPlace::GrantDirectory,
            hops: 0,
        }
    }

    /// Where it is.
    pub fn place(&self) -> SearchPlace
        ensures { result ≡ self.now.place }
    {
        self.place
    }

    /// How often it went on from a page that did not answer to another one. From `u64::MAX` on
    /// it counts no more.
    pub fn hops(&self) -> u64
        ensures { result ≡ self.now.hops }
    {
        self.hops
    }

    /// One step.
    pub fn step<D: PageDevice>(
        &mut self,
        pool: &mut Pool<D>,
        locks: &mut LockTable,
        seat: u8,
    ) -> Progress<FileFault>
        requires seat { IsSeat locks.old seat }
        requires ready { IsReady pool.old }
        requires row { HasRow self.old (row_of locks.old seat) }
        // whatever the device gives
        ensures reads { ReadsPages result pool.old pool.new }
        ensures aim { KeepsAim result pool.old self.old self.new }
        ensures row { FollowsRow seat (search_locks self.old) (search_locks self.new)
            locks.old locks.new }
        // on an honest device, in a sound world
        ensures progress { Advances seat (search_facts self.old) result (left_in self.old pool.old)
            (left_in self.new pool.new) pool.old pool.new locks.old }
        ensures step { MakesStep seat (search_locks self.old) (search_facts self.old)
            (search_facts self.new) (search_turn self.old) result pool.old pool.new
            locks.old locks.new }
        ensures answer { GivesAnswer seat result self.old self.new pool.old locks.old }
    {
        match self.place {
            SearchPlace::GrantDirectory => {
                match locks.try_grant(seat, LockName::Directory, LockKind::Read) {
                    Grant::Granted => {
                        self.place = SearchPlace::ReadDepth;
                        Progress::Moved(Kind::Grant)
                    }
                    Grant::Blocked(other) => Progress::Blocked(other),
                }
            }
            SearchPlace::ReadDepth => match read_depth(pool) {
                Ok(depth) => {
                    self.place = SearchPlace::ReadEntry(depth);
                    Progress::Moved(Kind::ReadDepth)
                }
                Err(fault) => Progress::Fault(fault),
            },
            SearchPlace::ReadEntry(depth) => match read_entry(pool, index(self.pseudokey, depth)) {
                Ok(page) => {
                    self.place = SearchPlace::GrantPage(page);
                    Progress::Moved(Kind::ReadEntry)
                }
                Err(fault) => Progress::Fault(fault),
            },
            SearchPlace::GrantPage(page) => {
                match locks.try_grant(seat, LockName::Page(page), self.kind) {
                    Grant::Granted => {
                        self.place = SearchPlace::ReleaseDirectory(page);
                        Progress::Moved(Kind::Grant)
                    }
                    Grant::Blocked(other) => Progress::Blocked(other),
                }
            }
            SearchPlace::ReleaseDirectory(page) => {
                locks.release(seat, LockName::Directory);
                self.place = SearchPlace::Look(page);
                Progress::Moved(Kind::Release)
            }
            SearchPlace::Look(page) => match look(pool, page, self.pseudokey, &self.key) {
                Ok(Sight::Covering(found)) => {
                    self.place = SearchPlace::Found(page, found);
                    Progress::Moved(Kind::Look)
                }
                Ok(Sight::Naming(_)) => {
                    self.place = SearchPlace::Hop(page);
                    Progress::Moved(Kind::Look)
                }
                Err(fault) => Progress::Fault(fault),
            },
            SearchPlace::Hop(page) => match look(pool, page, self.pseudokey, &self.key) {
                Ok(Sight::Covering(_)) => {
                    self.place = SearchPlace::Look(page);
                    Progress::Moved(Kind::Hop)
                }
                Ok(Sight::Naming(next)) => {
                    if next == page {
                        return Progress::Fault(FileFault::Failed);
                    }
                    match locks.try_grant(seat, LockName::Page(next), self.kind) {
                        Grant::Granted => {
                            locks.release(seat, LockName::Page(page));
                            self.place = SearchPlace::Look(next);
                            self.hops = self.hops.saturating_add(1);
                            Progress::Moved(Kind::Hop)
                        }
                        Grant::Blocked(other) => Progress::Blocked(other),
                    }
                }
                Err(fault) => Progress::Fault(fault),
            },
            SearchPlace::Found(_, _) => Progress::Ended,
        }
    }

    /// The page to which a search goes straight that has not begun: that which the directory names,
    /// where it has the pseudokey, it and those on the way are in frames, and nobody stands in the
    /// way. Nothing is done. It stands in whoever asks, as a search that is begun for this alone need
    /// not be in memory.
    #[inline(always)]
    pub fn heads_for<D: PageDevice>(
        &self,
        pool: &mut Pool<D>,
        locks: &LockTable,
        seat: u8,
    ) -> Option<u32>
        requires seat { IsSeat locks.now seat }
        requires ready { IsReady pool.old }
        requires row { HasRow self.now (row_of locks.now seat) }
        ensures pool { pool.new ≡ pool.old }
        ensures bare { IsSome result → HasNoLock (search_locks self.now) }
        ensures moves { IfSome result (λ page. GoesStraight seat page self.now pool.old locks.now) }
    {
        let SearchPlace::GrantDirectory = self.place else {
            return None;
        };
        if locks.is_opposed(seat, LockName::Directory, LockKind::Read) {
            return None;
        }
        let depth = peek_depth(pool)?;
        let page = peek_entry(pool, index(self.pseudokey, depth))?;
        if locks.is_opposed(seat, LockName::Page(page), self.kind) {
            return None;
        }
        if !peek_range(pool, page, self.pseudokey) {
            return None;
        }
        Some(page)
    }

    /// Is at the page that answers.
    pub fn arrive(&mut self, page: u32, found: Option<usize>)
        ensures { self.new ≡ search_at (SearchPlace.Found page found) self.old }
    {
        self.place = SearchPlace::Found(page, found);
    }
}
