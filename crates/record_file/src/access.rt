//! The access.

ghost use Rattle.std.specs.Prelude.{◌≡◌, ◌≢◌, ◌↔◌, [], Option, None, Some, not, true, false, length};
ghost use Rattle.queue_records.specs.Range.{IsInRange};
ghost use Rattle.xsi_inquiry.specs.Writing.{HasRange};
ghost use Rattle.record_file.specs.AccessWords.{HasEnded, IsReady, IsSeat, EndsRow, Look, MayBeLent, Moved, Record, RecordKey, Write, operation_key, row_of};
ghost use Rattle.record_file.specs.Purposes.{ToFind, ToInsert, ToWrite, is_write};
ghost use Rattle.record_file.specs.Accesses.{Allows, HasFound, Serves, access_answer, access_locks, access_searches, begun, has_no_room};
ghost use Rattle.record_file.specs.AccessSteps.{MakesAccess, Settles};
ghost use Rattle.record_file.specs.Readings.{Takes};

mod ahead;
mod at_once;

use crate::bucket_access::Deed;
use crate::fitting::links_fit;
use crate::insert::InsertStage;
use crate::operation::RecordOperation;
use crate::step_rules::{Kind, Progress};
use crate::tried::Tried;
use bucket_page::{PseudoKey, RecordKey};
use file_pages::buffer_pool::Pool;
use file_pages::{FileFault, copy_value};
use page_device::PageDevice;
use page_locks::LockTable;
use queue_records::{Links, MAX_VALUE_BYTES, MESSAGE_BYTES, Record, Value, counter_key, relink};
use std::marker::Model;
use std::mem::size_of;
use xsi_inquiry::Write;

/// One access to the record of one key: it is found, inserted, or written.
#[derive(Drop)]
pub struct Access {
    key: RecordKey,
    operation: RecordOperation,
    links: Option<Links>,
    value: Value,
    written: bool,
}

const _: () = prove!(size_of::<Access>() <= 1600);

impl Model for Access {
    ghost use Rattle.std.specs.Prelude.{length};
    ghost use Rattle.record_file.specs.Accesses.{AccessView, IsAccess};

    ghost Value = { AccessView };

    ghost view = { λ a. record {
      operation = a.operation;
      links = a.links;
      bytes = a.value;
      written = a.written;
    } };

    ghost invariant = { λ a. IsAccess a.key (length a.value) a.operation };
}

impl Access {
    /// A find of a key that has this pseudokey.
    pub fn find(key: RecordKey, pseudokey: u32) -> Access
        ensures value { result ≡ begun (ToFind key) pseudokey }
        ensures serves { Serves (ToFind key) result }
    {
        Access {
            key,
            operation: RecordOperation::find(key, pseudokey),
            links: None,
            value: Value::new(),
            written: false,
        }
    }

    /// An insert of a record whose key has this pseudokey.
    pub fn insert(entry: &Record<'_>, pseudokey: u32) -> Access
        requires { IsInRange entry.now }
        ensures value { result ≡ begun (ToInsert entry.now) pseudokey }
        ensures serves { Serves (ToInsert entry.now) result }
    {
        let mut access = Access::find(entry.key(), pseudokey);
        access.begin_insert(entry, pseudokey);
        access
    }

    /// A write at a key that has this pseudokey.
    pub fn write(write: &Write, pseudokey: u32) -> Access
        requires { HasRange write.now }
        ensures value { result ≡ begun (ToWrite write.now) pseudokey }
        ensures serves { Serves (ToWrite write.now) result }
    {
        let mut access = Access::find(counter_key(), pseudokey);
        access.begin_write(write, pseudokey);
        access
    }

    /// Becomes a find of a key that has this pseudokey, in place.
    pub fn begin_find(&mut self, key: RecordKey, pseudokey: u32)
        ensures value { self.new ≡ begun (ToFind key) pseudokey }
        ensures serves { Serves (ToFind key) self.new }
    {
        self.begin_again(key, RecordOperation::find(key, pseudokey), None);
    }

    /// Becomes an insert of a record whose key has this pseudokey, in place. It stands in whoever begins
    /// one, as `begin_write` does: else its operation would be moved through memory.
    #[inline(always)]
    pub fn begin_insert(&mut self, entry: &Record<'_>, pseudokey: u32)
        requires { IsInRange entry.now }
        ensures value { self.new ≡ begun (ToInsert entry.now) pseudokey }
        ensures serves { Serves (ToInsert entry.now) self.new }
    {
        let key = entry.key();
        self.begin_again(key, RecordOperation::insert(key, pseudokey), None);
        entry.encode(&mut self.value);
    }

    /// Becomes a write at a key that has this pseudokey, in place.
    #[inline(always)]
    pub fn begin_write(&mut self, write: &Write, pseudokey: u32)
        requires { HasRange write.now }
        ensures value { self.new ≡ begun (ToWrite write.now) pseudokey }
        ensures serves { Serves (ToWrite write.now) self.new }
    {
        match write {
            Write::Replace(entry) => {
                let key = entry.key();
                self.begin_again(key, RecordOperation::replace(key, pseudokey), None);
                entry.encode(&mut self.value);
            }
            Write::Relink(key, links) => {
                links_fit(links);
                self.begin_again(
                    *key,
                    RecordOperation::replace(*key, pseudokey),
                    Some(*links),
                );
            }
            Write::Delete(key) => {
                self.begin_again(*key, RecordOperation::delete(*key, pseudokey), None);
            }
        }
    }

    /// Begins by an operation to which no byte is lent yet.
    fn begin_again(&mut self, key: RecordKey, operation: RecordOperation, links: Option<Links>)
        requires key { operation_key operation ≡ key }
        requires lent { MayBeLent 0 operation }
        ensures { self.new ≡ record {
          operation = operation;
          links = links;
          bytes = [];
          written = false;
        } }
    {
        self.value.clear();
        self.key = key;
        self.operation = operation;
        self.links = links;
        self.written = false;
    }

    /// The record that a find has found at its key, or that there is none, once a page answered.
    /// Others tell none.
    pub fn found(&self) -> Option<Option<Record<'_>>>
        ensures told { (found : Option Record) → HasFound self.now found → result ≡ Some found }
        ensures open { access_answer self.now ≡ None → result ≡ None }
    {
        let RecordOperation::Find(find) = &self.operation else {
            return None;
        };
        match find.found() {
            None => None,
            Some((_, None)) => Some(None),
            Some((_, Some(_))) => match Record::decode(&self.key, self.value.as_slice()) {
                Ok(entry) => Some(Some(entry)),
                Err(_) => None,
            },
        }
    }

    /// Whether its search is under way: the directory was granted to it, and no page has answered.
    pub fn is_searching(&self) -> bool
        ensures { result ≡ access_searches self.now }
    {
        self.operation.is_searching()
    }

    /// Whether an insert has found no room for its record and has written nothing. At its end it
    /// has done so exactly where it wrote nothing.
    pub fn has_no_room(&self) -> bool
        ensures full { result ≡ has_no_room self.now }
        ensures ended { (r : Record) → (found : Option Record) →
            Allows (ToInsert r) self.now found → Serves (ToInsert r) self.now →
            HasEnded self.now.operation → result ≡ not self.now.written }
    {
        matches!(self.operation.tried(), Some(Tried::IsFull)) && !self.written
    }

    /// Whether its WriteRecord was made.
    pub fn has_written(&self) -> bool
        ensures { result ≡ self.now.written }
    {
        self.written
    }

    /// Whether it has given all its locks back. A find that has ended has been answered, and a
    /// write has written.
    pub fn has_ended(&self) -> bool
        ensures ended { (result ≡ true) ↔ HasEnded self.now.operation }
        ensures answered { (key : RecordKey) → Serves (ToFind key) self.now →
            result ≡ true → access_answer self.now ≢ None }
        ensures written { (write : Write) (found : Option Record) →
            Serves (ToWrite write) self.now → Allows (ToWrite write) self.now found →
            result ≡ true → self.now.written ≡ true }
    {
        self.operation.has_ended()
    }

    /// One step of its operation, by the machine that is under way; where a page answers by it, that
    /// page is read. It stands in whoever steps the access, which would else wait for what it tells to
    /// pass through memory.
    #[inline(always)]
    pub fn step<D: PageDevice, K: PseudoKey>(
        &mut self,
        pool: &mut Pool<D>,
        locks: &mut LockTable,
        keys: &K,
        seat: u8,
    ) -> Progress<FileFault>
        requires seat { IsSeat locks.old seat }
        requires ready { IsReady pool.old }
        requires row { EndsRow (access_locks self.old) 3 (row_of locks.old seat) }
        ensures { MakesAccess (K.of_key keys.now) seat result self.old self.new
            pool.old pool.new locks.old locks.new }
    {
        let answered = self.operation.found().is_some();
        match &mut self.operation {
            RecordOperation::Find(find) => {
                let did = find.step(Deed::Find, pool, locks, seat, self.value.as_slice());
                self.settle(answered, did, pool)
            }
            RecordOperation::Insert(insert) => match &mut insert.stage {
                InsertStage::First(first, _) => {
                    let value = self.value.as_slice();
                    let did = first.step(Deed::Put, pool, locks, seat, value);
                    insert.stage.note(did, insert.key, insert.pseudokey, value);
                    self.settle(answered, did, pool)
                }
                InsertStage::Second(second) => {
                    let did = second.step(pool, locks, keys, seat, self.value.as_slice());
                    self.settle(answered, did, pool)
                }
            },
            RecordOperation::Replace(replace) => {
                let did = replace.step(Deed::Replace, pool, locks, seat, self.value.as_slice());
                self.settle(answered, did, pool)
            }
            RecordOperation::Delete(delete) => match delete.removal.ended() {
                None => {
                    let bytes = self.value.as_slice();
                    let did = delete.removal.step(Deed::Remove, pool, locks, seat, bytes);
                    self.settle(answered, did, pool)
                }
                Some(true) => {
                    let did = delete.merge.step(pool, locks, seat);
                    self.settle(answered, did, pool)
                }
                Some(false) => self.settle(answered, Progress::Ended, pool),
            },
        }
    }

    /// The rest of a step, whichever machine made it: a WriteRecord is counted, and a page that
    /// answered by it is read. Whether a page had answered before is told.
    #[inline(always)]
    fn settle<D: PageDevice>(
        &mut self,
        answered: bool,
        did: Progress<FileFault>,
        pool: &mut Pool<D>,
    ) -> Progress<FileFault>
        requires ready { IsReady pool.old }
        ensures { Settles answered did result self.old self.new pool.old pool.new }
    {
        if is_write(did) {
            self.written = true;
            return did;
        }
        if answered {
            return did;
        }
        if !is_look(did) {
            return did;
        }
        match self.take(pool) {
            Ok(()) => did,
            Err(fault) => Progress::Fault(fault),
        }
    }

    /// Takes from the page that answered what the access is for, where one did: the value that a
    /// find has found, the front of the value that links are set in. What does not suit it is
    /// refused. It stands apart, since each step of an access would make room for a value.
    #[inline(never)]
    fn take<D: PageDevice>(&mut self, pool: &mut Pool<D>) -> Result<(), FileFault>
        requires ready { IsReady pool.old }
        ensures { Takes result pool.old pool.new self.old self.new }
    {
        let Some((page, found)) = self.operation.found() else {
            return Ok(());
        };
        match &self.operation {
            RecordOperation::Find(_) => {
                let Some(len) = found else {
                    return Ok(());
                };
                let mut room = [0; MAX_VALUE_BYTES];
                let copied = copy_value(pool, page, &self.key, &mut room)?;
                if copied != Some(len) {
                    return Err(FileFault::Failed);
                }
                if len > MAX_VALUE_BYTES {
                    return Err(FileFault::Failed);
                }
                if Record::decode(&self.key, &room[..len]).is_err() {
                    return Err(FileFault::Failed);
                }
                self.value.set(&room[..len]);
                Ok(())
            }
            RecordOperation::Insert(_) => Ok(()),
            RecordOperation::Replace(_) => match (self.links, found) {
                (Some(links), Some(len)) => {
                    let bytes = links.front_bytes();
                    if len < bytes {
                        return Err(FileFault::Failed);
                    }
                    let mut front = [0; MESSAGE_BYTES];
                    let Some(_) = copy_value(pool, page, &self.key, &mut front)? else {
                        return Err(FileFault::Failed);
                    };
                    relink(&mut front[..bytes], &links);
                    self.value.set(&front[..bytes]);
                    Ok(())
                }
                (None, Some(len)) if len == self.value.as_slice().len() => Ok(()),
                _ => Err(FileFault::Failed),
            },
            RecordOperation::Delete(_) => {
                if found.is_none() && !self.written {
                    return Err(FileFault::Failed);
                }
                Ok(())
            }
        }
    }
}

/// Whether a record was written.
fn is_write(did: Progress<FileFault>) -> bool
    ensures { result ≡ is_write did }
{
    matches!(did, Progress::Moved(Kind::WriteRecord))
}

/// Whether a page was looked at.
fn is_look(did: Progress<FileFault>) -> bool
    ensures looked { result ≡ true → did ≡ Moved Look }
    ensures other { did ≡ Moved Look → result ≡ true }
{
    matches!(did, Progress::Moved(Kind::Look))
}
