//! How the keys of a file become pseudokeys.

use bucket_page::{ConstantKey, NumberKey, PseudoKey, RecordKey, ShaKey};

/// By digests, as in a file of the program; by the low 32 bits of their numbers; or all are 0.
#[derive(Clone, Copy, Drop)]
pub enum Keys {
    Sha,
    Number,
    Zero,
}

/// These by their names.
pub const KEYS: [(&[u8], Keys); 3] = [
    (b"sha", Keys::Sha),
    (b"number", Keys::Number),
    (b"zero", Keys::Zero),
];

impl PseudoKey for Keys {
    ghost use Rattle.row_runs.specs.Keys.{pseudokey};
    ghost use Rattle.row_runs.specs.KeyLaws.{pseudokey_small};

    ghost of_key = { pseudokey };

    ghost small = { pseudokey_small };

    fn of(&self, key: &RecordKey) -> u32 {
        match self {
            Keys::Sha => ShaKey.of(key),
            Keys::Number => NumberKey.of(key),
            Keys::Zero => 0,
        }
    }
}
