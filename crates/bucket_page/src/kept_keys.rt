//! A way to make a pseudokey that keeps those that it made.

ghost use Rattle.std.specs.Prelude.{◌≡◌, ◌+◌, ◌^◌, ◌<◌, ◌≤◌, IfOk, IfSome, IsTrue, length};
ghost use Rattle.bucket_page.specs.declared.kept_keys.TheConstants.{SLOTS};

use crate::alike::Alike;
use crate::kept::Kept;
use crate::pseudokey::PseudoKey;
use crate::record_key::RecordKey;
use std::alloc::{AllocError, Global};
use std::cell::Cell;
use std::marker::Model;

/// How many pseudokeys are kept.
pub const SLOTS: usize = 16_384;

/// How many pseudokeys are computed together.
const RUN: usize = 4;

/// How far from each other the slots are of queues that follow one another: more than a run, so that
/// 64 queues have room for as many messages each, and an odd number, so that as many queues as there
/// are slots begin at different ones.
const APART: u64 = 251;

/// Makes the pseudokeys of another way, and keeps them: each in the slot of its key, where it
/// takes the place of an older one.
#[derive(Drop)]
pub struct KeptKeys<K: Alike> {
    keys: K,
    slots: Vec<Cell<Kept<K>>>,
    ghost many: { length slots.items ≡ SLOTS },
}

impl<K: Alike> Model for KeptKeys<K> {
    ghost Value = { K };

    ghost view = { λ k. k.keys };
}

impl<K: Alike + Drop> KeptKeys<K> {
    /// Keeps none at first. All memory is taken here.
    pub fn new(alloc: Global, keys: K) -> Result<KeptKeys<K>, AllocError>
        ensures { IfOk result (λ kept. kept ≡ keys) }
    {
        let slots = vec![in alloc; Cell::new(Kept::none()); SLOTS]?;
        Ok(KeptKeys { keys, slots })
    }
}

impl<K: Alike> PseudoKey for KeptKeys<K> {
    ghost of_key = { K.of_key };

    ghost small = { K.small };

    // A call costs less here than its few lines in the midst of the long functions that ask.
    #[inline(never)]
    fn of(&self, key: &RecordKey) -> u32 {
        if let Some(pseudokey) = self.kept(key) {
            return pseudokey;
        }
        self.made(key)
    }
}

impl<K: Alike> KeptKeys<K> {
    /// The pseudokey of a key, where it is kept.
    fn kept(&self, key: &RecordKey) -> Option<u32>
        ensures { IfSome result (λ pseudokey. pseudokey ≡ K.of_key self.now key.now) }
    {
        self.slots[slot_of(key)].get().of(key)
    }

    fn keep(&self, key: &RecordKey, pseudokey: u32)
        requires { pseudokey ≡ K.of_key self.now key.now }
    {
        self.slots[slot_of(key)].set(Kept::new(key, pseudokey));
    }

    /// Whether the key of the number before is kept and there are numbers behind, so that theirs
    /// are likely to be asked for next: messages are sent in the order of their numbers.
    fn goes_on(&self, key: &RecordKey) -> bool
        ensures { IsTrue result → key.now.number + RUN ≤ 2 ^ 64 }
    {
        let Some(number) = key.number.checked_sub(1) else {
            return false;
        };
        key.number <= u64::MAX - RUN as u64 && self.kept(&RecordKey { number, ..*key }).is_some()
    }

    /// The pseudokey of a key that is not kept yet.
    // Its locals would be zeroed in each call of `of`, of which few come here.
    #[inline(never)]
    fn made(&self, key: &RecordKey) -> u32
        ensures { result ≡ K.of_key self.now key.now }
    {
        if self.goes_on(key) {
            return self.of_run(key);
        }
        let pseudokey = self.keys.of(key);
        self.keep(key, pseudokey);
        pseudokey
    }

    /// The pseudokey of a key. Those of the numbers behind it are computed beside it, and kept.
    // Its locals would be zeroed for keys of which no run is made as well.
    #[inline(never)]
    fn of_run(&self, key: &RecordKey) -> u32
        requires { key.now.number + RUN ≤ 2 ^ 64 }
        ensures { result ≡ K.of_key self.now key.now }
    {
        let keys = [*key, behind(key, 1), behind(key, 2), behind(key, 3)];
        let pseudokeys = self.keys.of_four(&keys);
        'run: for i in 0..RUN {
            self.keep(&keys[i], pseudokeys[i]);
        }
        pseudokeys[0]
    }
}

/// The key of a number so far behind that of a key.
fn behind(key: &RecordKey, by: u64) -> RecordKey
    requires { key.now.number + by < 2 ^ 64 }
{
    RecordKey {
        number: key.number + by,
        ..*key
    }
}

/// The slot of a key. So many messages that were sent one after the other have different slots, and
/// so have those of queues that are at one number; those of other kinds begin elsewhere.
fn slot_of(key: &RecordKey) -> usize
    ensures { result < SLOTS }
{
    let queue = u64::from(key.queue) * APART;
    let place = queue + key.number % SLOTS as u64;
    let begins = usize::from(key.kind % 8) * (SLOTS / 8);
    (begins + place as usize) % SLOTS
}
