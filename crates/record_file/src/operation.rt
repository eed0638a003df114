//! The operation.

ghost use Rattle.std.specs.Prelude.{◌≡◌, ◌↔◌, true, IfSome};
ghost use Rattle.record_file.specs.Operations.{FoundAtEnd, HasEnded, TriedAtEnd, begun_delete, begun_find, begun_insert, begun_replace, operation_found, operation_searches, operation_tried};
ghost use Rattle.record_file.specs.OperationRuns.{IsBeforeMerge, IsBucketOf, operation_through};

use crate::bucket_access::{BucketAccess, Deed};
use crate::delete::Delete;
use crate::insert::Insert;
use crate::tried::Tried;
use bucket_page::RecordKey;
use std::mem::size_of;

/// One operation on the record of one key.
#[derive(Drop)]
pub enum RecordOperation {
    /// The record is found.
    Find(BucketAccess),
    /// A record is put where the key has none.
    Insert(Insert),
    /// The first bytes of the record's value are replaced.
    Replace(BucketAccess),
    /// The record is taken out.
    Delete(Delete),
}

const _: () = prove!(size_of::<RecordOperation>() <= 300);

impl RecordOperation {
    /// A find of a key that has this pseudokey.
    pub fn find(key: RecordKey, pseudokey: u32) -> RecordOperation
        ensures { result ≡ begun_find key pseudokey }
    {
        RecordOperation::Find(BucketAccess::new(Deed::Find, key, pseudokey))
    }

    /// An insert at a key that has this pseudokey.
    pub fn insert(key: RecordKey, pseudokey: u32) -> RecordOperation
        ensures { result ≡ begun_insert key pseudokey }
    {
        RecordOperation::Insert(Insert::new(key, pseudokey))
    }

    /// A replace at a key that has this pseudokey.
    pub fn replace(key: RecordKey, pseudokey: u32) -> RecordOperation
        ensures { result ≡ begun_replace key pseudokey }
    {
        RecordOperation::Replace(BucketAccess::new(Deed::Replace, key, pseudokey))
    }

    /// A delete at a key that has this pseudokey.
    pub fn delete(key: RecordKey, pseudokey: u32) -> RecordOperation
        ensures { result ≡ begun_delete key pseudokey }
    {
        RecordOperation::Delete(Delete::new(key, pseudokey))
    }

    /// The page that answered, and of the key the length of its value, none where it has no record.
    /// An insert tells none.
    pub fn found(&self) -> Option<(u32, Option<usize>)>
        ensures { result ≡ operation_found self.now }
    {
        match self {
            RecordOperation::Find(find) => find.found(),
            RecordOperation::Insert(_) => None,
            RecordOperation::Replace(replace) => replace.found(),
            RecordOperation::Delete(delete) => delete.found(),
        }
    }

    /// Whether its search was granted the directory, and no page has answered it.
    pub fn is_searching(&self) -> bool
        ensures { result ≡ operation_searches self.now }
    {
        match self {
            RecordOperation::Find(find) => find.is_searching(),
            RecordOperation::Insert(insert) => insert.is_searching(),
            RecordOperation::Replace(replace) => replace.is_searching(),
            RecordOperation::Delete(delete) => delete.is_searching(),
        }
    }

    /// What an insert came to, once it did. It has done so where it has ended.
    pub fn tried(&self) -> Option<Tried>
        ensures tried { result ≡ operation_tried self.now }
        ensures ended { TriedAtEnd self.now }
    {
        match self {
            RecordOperation::Find(_) => None,
            RecordOperation::Insert(insert) => insert.tried(),
            RecordOperation::Replace(_) => None,
            RecordOperation::Delete(_) => None,
        }
    }

    /// Whether it has given all its locks back. A find that has ended has been answered.
    pub fn has_ended(&self) -> bool
        ensures ended { (result ≡ true) ↔ HasEnded self.now }
        ensures answered { result ≡ true → FoundAtEnd self.now }
    {
        match self {
            RecordOperation::Find(find) => find.has_ended(),
            RecordOperation::Insert(insert) => insert.has_ended(),
            RecordOperation::Replace(replace) => replace.has_ended(),
            RecordOperation::Delete(delete) => delete.has_ended(),
        }
    }

    /// The access within a bucket by which a write goes to its page: of an insert the first try,
    /// until that has come to something, of a delete the removal, until that has ended. A find has
    /// none.
    pub fn bucket(&self) -> Option<&BucketAccess>
        ensures { IfSome result (λ bucket. IsBucketOf bucket.now self.now) }
    {
        match self {
            RecordOperation::Find(_) => None,
            RecordOperation::Insert(insert) => insert.first_try(),
            RecordOperation::Replace(replace) => Some(replace),
            RecordOperation::Delete(delete) => delete.removing(),
        }
    }

    /// A page has answered, was written with nothing more due behind it, and was given back.
    pub fn end_at(&mut self, page: u32, found: Option<usize>)
        requires removing { IsBeforeMerge self.old }
        ensures { self.new ≡ operation_through page found self.old }
    {
        match self {
            RecordOperation::Find(_) => {}
            RecordOperation::Insert(insert) => insert.end_at(page, found),
            RecordOperation::Replace(replace) => replace.end_at(page, found),
            RecordOperation::Delete(delete) => delete.end_at(page, found),
        }
    }
}
