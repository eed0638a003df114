//! Records by their keys.

ghost use Rattle.std.specs.Prelude.{◌≡◌, ◌↔◌, ℕ, Bool, List, Option, Some, IsTrue, IfOk, IfErr, IfSome};
ghost use Rattle.record_walk.specs.Fault.{IsCaused, IsOfMachine};
ghost use Rattle.record_walk.specs.Held.{Holds, IsMessageAt, IsStill, linked_of};
ghost use Rattle.record_walk.specs.Words.{Counter, MessageEntry, QueueEntry, RecordKey};
ghost use Rattle.queue_records.specs.declared.record.Record.TheVariants as records;

use crate::fault::WalkFault;
use queue_model::Message;
use queue_records::{Counter, QueueEntry, Record};
use std::alloc::Global;

/// The serials that the record of a message names.
#[derive(Clone, Copy, PartialEq)]
pub struct MessageLinks {
    /// Of the message before it on the queue.
    pub previous: Option<u64>,
    /// Of the message behind it on the queue.
    pub next: Option<u64>,
    /// Of the next message of its type.
    pub next_of_type: Option<u64>,
}

/// A message as it stands on a queue, and its links.
#[derive(Drop)]
pub struct Linked {
    pub message: Message,
    pub links: MessageLinks,
}

/// Records that can be looked up. Where they are honest, a look tells what stands there.
pub trait Records {
    /// The value at a key, none where there is no record.
    ghost held: { Self → RecordKey → Option (List ℕ) };

    /// The pages on which they stand, with all else that stands there.
    ghost pages: { Self → List (List ℕ) };

    /// They are read as they stand.
    ghost is_honest: { Self → Bool };

    /// How many transfers have failed, up to the greatest `u64`.
    ghost fault_count: { Self → ℕ };

    /// The Counter, where it stands.
    fn counter(&mut self) -> Result<Option<Counter>, WalkFault>
        ensures ok { IsTrue (is_honest self.old) → IfOk result (λ found. (c : Counter) →
            Holds (held self.old) (records.Counter c) → found ≡ Some c) }
        ensures err { IsTrue (is_honest self.old) → IfErr result (λ fault. IsOfMachine fault) }
        ensures still { IsStill held pages is_honest fault_count self.old self.new }
        ensures cause { IsCaused (fault_count self.old) (fault_count self.new) result };

    /// The Queue of an id, where it stands.
    fn queue(&mut self, id: u32) -> Result<Option<QueueEntry>, WalkFault>
        ensures ok { IsTrue (is_honest self.old) → IfOk result (λ found. (e : QueueEntry) →
            Holds (held self.old) (records.Queue e) → e.id ≡ id → found ≡ Some e) }
        ensures err { IsTrue (is_honest self.old) → IfErr result (λ fault. IsOfMachine fault) }
        ensures still { IsStill held pages is_honest fault_count self.old self.new }
        ensures cause { IsCaused (fault_count self.old) (fault_count self.new) result };

    /// The Message of a serial with all its links, where it stands.
    fn message(&mut self, alloc: Global, id: u32, serial: u64) -> Result<Option<Linked>, WalkFault>
        ensures ok { IsTrue (is_honest self.old) → IfOk result (λ found. (e : MessageEntry) →
            Holds (held self.old) (records.Message e) → e.id ≡ id → e.serial ≡ serial →
            found ≡ Some (linked_of e)) }
        ensures stands { IsTrue (is_honest self.old) → IfOk result (λ found.
            IfSome found (IsMessageAt (held self.old) id serial)) }
        ensures err { IsTrue (is_honest self.old) → IfErr result (λ fault. IsOfMachine fault) }
        ensures still { IsStill held pages is_honest fault_count self.old self.new }
        ensures cause { IsCaused (fault_count self.old) (fault_count self.new) result };

    /// Whether a record stands at its key.
    fn holds(&mut self, wanted: &Record) -> Result<bool, WalkFault>
        ensures ok { IsTrue (is_honest self.old) →
            IfOk result (λ stands. IsTrue stands ↔ Holds (held self.old) wanted.now) }
        ensures err { IsTrue (is_honest self.old) → IfErr result (λ fault. IsOfMachine fault) }
        ensures still { IsStill held pages is_honest fault_count self.old self.new }
        ensures cause { IsCaused (fault_count self.old) (fault_count self.new) result };
}
