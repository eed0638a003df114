//! A record that is deleted.

ghost use Rattle.std.specs.Prelude.{◌≡◌, ◌↔◌, IfSome, None, true};
ghost use Rattle.split_merge.specs.stale_search.declared.place.ApproachPlace.{ApproachPlace};
ghost use Rattle.split_merge.specs.stale_search.declared.place.SearchPlace.{SearchPlace};
ghost use Rattle.split_merge.specs.declared.merge_place.MergePlace.{MergePlace};
ghost use Rattle.record_file.specs.declared.bucket_access.BucketStage.{BucketStage};
ghost use Rattle.record_file.specs.Words.{Selective};
ghost use Rattle.record_file.specs.BucketAccesses.{ended_in, found_of, is_on_way};
ghost use Rattle.record_file.specs.BucketRuns.{bucket_found};
ghost use Rattle.record_file.specs.Deletes.{IsOver, IsRemoval};

use crate::bucket_access::{BucketAccess, Deed};
use bucket_page::RecordKey;
use split_merge::{Merge, MergePlace};
use std::marker::Model;
use std::mem::size_of;

/// A record that is deleted: it is taken out, and one merge is tried where the bucket has a buddy
/// and became small. Where the key has no record nothing is written. Who drives it steps the
/// removal until that has ended, and then the merge where one is due.
#[derive(Drop)]
pub struct Delete {
    pub removal: BucketAccess,
    pub merge: Merge,
}

const _: () = prove!(size_of::<Delete>() <= 300);

impl Model for Delete {
    ghost use Rattle.record_file.specs.Deletes.{DeleteView, IsDelete};

    ghost Value = { DeleteView };

    ghost view = { λ d. record { removal = d.removal; merge = d.merge } };

    ghost invariant = { λ d. IsDelete d.removal d.merge };
}

impl Delete {
    /// A delete at a key that has this pseudokey.
    pub fn new(key: RecordKey, pseudokey: u32) -> Delete
        ensures { result ≡ record {
          removal = record {
            search = record {
              key = key;
              pseudokey = pseudokey;
              kind = Selective;
              place = SearchPlace.GrantDirectory;
              hops = 0;
            };
            stage = BucketStage.Searching;
          };
          merge = record {
            key = key;
            approach = record { pseudokey = pseudokey; place = ApproachPlace.GrantDirectory };
            place = MergePlace.Approaching;
          };
        } }
    {
        Delete {
            removal: BucketAccess::new(Deed::Remove, key, pseudokey),
            merge: Merge::new(key, pseudokey),
        }
    }

    /// The page that answered, and of the key the length of its value, none where it has no record
    /// and nothing is written.
    pub fn found(&self) -> Option<(u32, Option<usize>)>
        ensures { result ≡ found_of self.now.removal }
    {
        self.removal.found()
    }

    /// Whether its search is under way, as `BucketAccess` says; a merge makes none.
    pub fn is_searching(&self) -> bool
        ensures { result ≡ is_on_way self.now.removal.search.place }
    {
        self.removal.is_searching()
    }

    /// Whether it has given all locks back.
    pub fn has_ended(&self) -> bool
        ensures { (result ≡ true) ↔ IsOver self.now.removal.stage self.now.merge.place }
    {
        match self.removal.ended() {
            None => false,
            Some(false) => true,
            Some(true) => matches!(self.merge.place(), MergePlace::Done),
        }
    }

    /// The removal, until that has ended.
    pub fn removing(&self) -> Option<&BucketAccess>
        ensures { IfSome result (λ removal. IsRemoval removal.now self.now) }
    {
        match self.removal.ended() {
            None => Some(&self.removal),
            Some(_) => None,
        }
    }

    /// A page has answered the removal, which has taken the record out and given the page back. No
    /// merge is due.
    pub fn end_at(&mut self, page: u32, found: Option<usize>)
        requires removing { ended_in self.old.removal.stage ≡ None }
        ensures { self.new ≡ record self.old {
          removal = bucket_found page found self.old.removal;
        } }
    {
        self.removal.end_at(page, found);
    }
}
