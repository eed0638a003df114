//! One pseudokey that is kept, with what its key is known by.

ghost use Rattle.std.specs.Prelude.{◌≡◌, IfSome};
ghost use Rattle.bucket_page.specs.Marks.{IsMarked};
ghost use Rattle.bucket_page.specs.declared.record_key.RecordKey.{RecordKey};

use crate::pseudokey::{PseudoKey, ShaKey};
use crate::record_key::RecordKey;
use std::alloc::AllocError;
use std::marker::PhantomData;
use std::mem::size_of;

/// Keys of numbers from this one on are not kept.
const GREAT: u64 = (1 << 56) - 1;

/// The pseudokey that each value of a way makes of a key, or of none. The kind of the key and its
/// number are one number, so that this has sixteen bytes.
pub(crate) struct Kept<K: PseudoKey> {
    mark: u64,
    queue: u32,
    pseudokey: u32,
    way: PhantomData<K>,
    ghost right: { (keys : K) (key : RecordKey) → IsMarked mark queue key →
        pseudokey ≡ K.of_key keys key },
}

const _: () = prove!(size_of::<Kept<ShaKey>>() <= 16);

impl<K: PseudoKey> Clone for Kept<K> {
    fn clone(&self) -> Result<Kept<K>, AllocError> {
        Ok(*self)
    }
}

impl<K: PseudoKey> Copy for Kept<K> {}

impl<K: PseudoKey> Kept<K> {
    /// That of no key.
    pub(crate) fn none() -> Kept<K> {
        Kept {
            mark: u64::MAX,
            queue: 0,
            pseudokey: 0,
            way: PhantomData,
        }
    }

    /// That of this key, where its number is not too great to be kept.
    pub(crate) fn new(key: &RecordKey, pseudokey: u32) -> Kept<K>
        requires { (keys : K) → pseudokey ≡ K.of_key keys key.now }
    {
        match mark_of(key) {
            Some(mark) => Kept {
                mark,
                queue: key.queue,
                pseudokey,
                way: PhantomData,
            },
            None => Kept::none(),
        }
    }

    /// The pseudokey, where it is that of this key.
    pub(crate) fn of(&self, key: &RecordKey) -> Option<u32>
        ensures { IfSome result (λ pseudokey. (keys : K) → pseudokey ≡ K.of_key keys key.now) }
    {
        if self.queue == key.queue && mark_of(key) == Some(self.mark) {
            Some(self.pseudokey)
        } else {
            None
        }
    }
}

/// The mark of a key; none where its number is too great.
fn mark_of(key: &RecordKey) -> Option<u64>
    ensures { IfSome result (λ mark. IsMarked mark key.now.queue key.now) }
{
    key.fits_bytes();
    if key.number >= GREAT {
        return None;
    }
    Some(key.number * 256 + u64::from(key.kind))
}
