//! How a seat that is to change the structure comes to a bucket.

ghost use Rattle.std.specs.Prelude.{◌≡◌};
ghost use Rattle.page_locks.specs.Table.{IsSeat, row_of};
ghost use Rattle.file_pages.specs.Files.{IsReady};
ghost use Rattle.stale_search.specs.Steps.{Advances, FollowsRow, MakesStep, ReadsPages};
ghost use Rattle.stale_search.specs.Approaches.{HasApproachRow, IsShallow, KeepsGoal};
ghost use Rattle.stale_search.specs.Approaches.{approach_facts, approach_left, approach_locks, approach_turn};

use crate::place::ApproachPlace;
use directory::index;
use file_pages::buffer_pool::Pool;
use file_pages::page_device::PageDevice;
use file_pages::{FileFault, read_depth, read_entry};
use page_locks::{Grant, LockKind, LockName, LockTable};
use std::marker::Model;
use std::mem::size_of;
use step_rules::{Kind, Progress};

/// A way to the bucket of a pseudokey, for a seat that is to split or to merge it:
/// both the directory and the bucket are locked `Selective`, so nothing that was read
/// grows old (Ellis 1983).
#[derive(Drop)]
pub struct Approach {
    pseudokey: u32,
    place: ApproachPlace,
}

const _: () = prove!(size_of::<Approach>() <= 300);

impl Model for Approach {
    ghost use Rattle.stale_search.specs.Approaches.{ApproachView, IsShallow};

    ghost Value = { ApproachView };

    ghost view = { λ a. record { pseudokey = a.pseudokey; place = a.place } };

    ghost invariant = { λ a. IsShallow a.place };
}

impl Approach {
    /// An approach to the bucket of this pseudokey.
    pub fn new(pseudokey: u32) -> Approach
        ensures { result ≡ record {
          pseudokey = pseudokey;
          place = ApproachPlace.GrantDirectory;
        } }
    {
        Approach {
            pseudokey,
            place: ApproachPlace::GrantDirectory,
        }
    }

    /// Where it is.
    pub fn place(&self) -> ApproachPlace
        ensures place { result ≡ self.now.place }
        ensures shallow { IsShallow result }
    {
        self.place
    }

    /// One step.
    pub fn step<D: PageDevice>(
        &mut self,
        pool: &mut Pool<D>,
        locks: &mut LockTable,
        seat: u8,
    ) -> Progress<FileFault>
        requires seat { IsSeat locks.old seat }
        requires ready { IsReady pool.old }
        requires row { HasApproachRow self.old (row_of locks.old seat) }
        // whatever the device gives
        ensures reads { ReadsPages result pool.old pool.new }
        ensures goal { KeepsGoal result self.old self.new }
        ensures row { FollowsRow seat (approach_locks self.old) (approach_locks self.new)
            locks.old locks.new }
        // on an honest device, in a sound world
        ensures progress { Advances seat (approach_facts self.old) result (approach_left self.old)
            (approach_left self.new) pool.old pool.new locks.old }
        ensures step { MakesStep seat (approach_locks self.old) (approach_facts self.old)
            (approach_facts self.new) (approach_turn self.old) result pool.old pool.new
            locks.old locks.new }
    {
        match self.place {
            ApproachPlace::GrantDirectory => {
                match locks.try_grant(seat, LockName::Directory, LockKind::Selective) {
                    Grant::Granted => {
                        self.place = ApproachPlace::ReadDepth;
                        Progress::Moved(Kind::Grant)
                    }
                    Grant::Blocked(other) => Progress::Blocked(other),
                }
            }
            ApproachPlace::ReadDepth => match read_depth(pool) {
                Ok(depth) => {
                    self.place = ApproachPlace::ReadEntry(depth);
                    Progress::Moved(Kind::ReadDepth)
                }
                Err(fault) => Progress::Fault(fault),
            },
            ApproachPlace::ReadEntry(depth) => match read_entry(
                pool,
                index(self.pseudokey, depth),
            ) {
                Ok(page) => {
                    self.place = ApproachPlace::GrantPage(depth, page);
                    Progress::Moved(Kind::ReadEntry)
                }
                Err(fault) => Progress::Fault(fault),
            },
            ApproachPlace::GrantPage(depth, page) => {
                match locks.try_grant(seat, LockName::Page(page), LockKind::Selective) {
                    Grant::Granted => {
                        self.place = ApproachPlace::At(depth, page);
                        Progress::Moved(Kind::Grant)
                    }
                    Grant::Blocked(other) => Progress::Blocked(other),
                }
            }
            ApproachPlace::At(_, _) => Progress::Ended,
        }
    }
}
