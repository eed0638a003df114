//! A record that is inserted.

ghost use Rattle.std.specs.Prelude.{◌≡◌, ◌↔◌, IfSome, IsSome, None, true};
ghost use Rattle.record_file.specs.declared.bucket_access.Deed.{Deed};
ghost use Rattle.record_file.specs.BucketAccesses.{begun_access};
ghost use Rattle.record_file.specs.Inserts.{IsOver, IsTry, is_there, said_of, searches_in};
ghost use Rattle.record_file.specs.InsertSteps.{Notes};
ghost use Rattle.record_file.specs.BucketRuns.{bucket_found};
ghost use Rattle.record_file.specs.OperationRuns.{stage_put};

use crate::bucket_access::{BucketAccess, Deed};
use crate::second_try::SecondTry;
use crate::tried::Tried;
use bucket_page::RecordKey;
use split_merge::file_pages::FileFault;
use std::marker::Model;
use std::mem::size_of;
use step_rules::{Kind, Progress};

/// Which try an insert makes.
#[derive(Drop)]
pub enum InsertStage {
    /// The first one, and what it came to.
    First(BucketAccess, Option<Tried>),
    /// The second one.
    Second(SecondTry),
}

impl InsertStage {
    /// Notes what a first try at this key has come to by its step. Where it gave up the second one
    /// begins, which is to put this value, and tells itself what it comes to.
    pub fn note(&mut self, did: Progress<FileFault>, key: RecordKey, pseudokey: u32, value: &[u8])
        ensures { Notes key pseudokey value.now did self.old self.new }
    {
        let InsertStage::First(first, said) = self else {
            return;
        };
        if said.is_some() {
            return;
        }
        if let Progress::Moved(Kind::WriteRecord) = did {
            *said = Some(Tried::IsPut);
            return;
        }
        if is_there(first.found()) {
            *said = Some(Tried::IsThere);
            return;
        }
        if !first.has_ended() {
            return;
        }
        *self = InsertStage::Second(SecondTry::new(key, pseudokey, value.len()));
    }
}

/// A record that is inserted: a first try, which locks its bucket alone, and a second one where the
/// first gave up, which may split the bucket. Where the key has a record nothing is written. Who
/// drives it steps its try, and notes behind each step of the first what that came to.
#[derive(Drop)]
pub struct Insert {
    pub key: RecordKey,
    pub pseudokey: u32,
    pub stage: InsertStage,
}

const _: () = prove!(size_of::<Insert>() <= 300);

impl Model for Insert {
    ghost use Rattle.record_file.specs.Inserts.{InsertView, IsInsert};

    ghost Value = { InsertView };

    ghost view = { λ i. record { key = i.key; pseudokey = i.pseudokey; stage = i.stage } };

    ghost invariant = { λ i. IsInsert i.key i.pseudokey i.stage };
}

impl Insert {
    /// An insert at a key that has this pseudokey.
    pub fn new(key: RecordKey, pseudokey: u32) -> Insert
        ensures { result ≡ record {
          key = key;
          pseudokey = pseudokey;
          stage = InsertStage.First (begun_access Deed.Put key pseudokey) None;
        } }
    {
        Insert {
            key,
            pseudokey,
            stage: InsertStage::First(BucketAccess::new(Deed::Put, key, pseudokey), None),
        }
    }

    /// What it came to, once it did. It has done so where it has ended.
    pub fn tried(&self) -> Option<Tried>
        ensures said { result ≡ said_of self.now.stage }
        ensures over { IsOver self.now.stage → IsSome result }
    {
        match &self.stage {
            InsertStage::First(_, said) => *said,
            InsertStage::Second(second) => second.said(),
        }
    }

    /// Whether its search is under way, as `BucketAccess` says; a second try makes none.
    pub fn is_searching(&self) -> bool
        ensures { result ≡ searches_in self.now.stage }
    {
        match &self.stage {
            InsertStage::First(first, _) => first.is_searching(),
            InsertStage::Second(_) => false,
        }
    }

    /// Whether it has given all locks back.
    pub fn has_ended(&self) -> bool
        ensures { (result ≡ true) ↔ IsOver self.now.stage }
    {
        match &self.stage {
            InsertStage::First(first, _) => first.has_ended(),
            InsertStage::Second(second) => second.tried().is_some(),
        }
    }

    /// Its first try, until that has come to something.
    pub fn first_try(&self) -> Option<&BucketAccess>
        ensures { IfSome result (λ first. IsTry first.now self.now) }
    {
        match &self.stage {
            InsertStage::First(first, None) => Some(first),
            _ => None,
        }
    }

    /// A page has answered its first try, which has put the record there and given the page back.
    pub fn end_at(&mut self, page: u32, found: Option<usize>)
        ensures { self.new ≡
            record self.old { stage = stage_put (bucket_found page found) self.old.stage } }
    {
        if let InsertStage::First(first, said) = &mut self.stage {
            first.end_at(page, found);
            *said = Some(Tried::IsPut);
        }
    }
}

/// Whether the key was found.
fn is_there(found: Option<(u32, Option<usize>)>) -> bool
    ensures { result ≡ is_there found }
{
    matches!(found, Some((_, Some(_))))
}
