//! What is left to be written of a queue that is swept.

ghost use Rattle.std.specs.Prelude.{◌≡◌, None, slice_index_or};
ghost use Rattle.xsi_control.specs.Removing.{key_deletion, slots_of};

use queue_records::{Counter, Record, key_key, queue_key};
use xsi_inquiry::Write;

/// A queue that goes once its messages are swept.
#[derive(Clone, Copy)]
pub struct Removal {
    /// Its key, which has a Key; none where it is private.
    pub key: Option<u32>,
    /// The serial of its first message, with which the sweep begins.
    pub first: Option<u64>,
    /// The Counter without it.
    pub counter: Counter,
}

impl Removal {
    /// What is written in a slot, for the queue of an id: its Key goes, then its Queue; the Counter
    /// counts it no more.
    pub fn write(&self, id: u32, slot: usize) -> Option<Write>
        ensures { result ≡ slice_index_or (slots_of id self.now) slot None }
    {
        match slot {
            0 => self.key_deletion(),
            1 => Some(Write::Delete(queue_key(id))),
            2 => Some(Write::Replace(Record::Counter(self.counter))),
            _ => None,
        }
    }

    /// Its Key goes, where it has one.
    fn key_deletion(&self) -> Option<Write>
        ensures { result ≡ key_deletion self.now.key }
    {
        let key = self.key?;
        Some(Write::Delete(key_key(key)))
    }
}
