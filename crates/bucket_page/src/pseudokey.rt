//! Pseudokeys: how the keys of records are spread over buckets (Fagin et al. 1979).

ghost use Rattle.std.specs.Prelude.{◌≡◌, ◌%◌, ◌^◌};
ghost use Rattle.bucket_page.specs.Pseudokeys.{sha_key};

use crate::record_key::RecordKey;
use directory::fields::four_at;
use sha2::{Digest, Sha256};

/// A way to make a pseudokey of a key. The pseudokey of a key is always the same.
pub trait PseudoKey {
    ghost use Rattle.std.specs.Prelude.{◌<◌, ◌^◌, ℕ};
    ghost use Rattle.bucket_page.specs.declared.record_key.RecordKey.{RecordKey};

    /// The pseudokey of a key.
    ghost of_key: { Self → RecordKey → ℕ };

    fn of(&self, key: &RecordKey) -> u32
        ensures { result ≡ of_key self.now key.now };

    /// Pseudokeys have 32 bits.
    ghost small: { (keys : Self) (key : RecordKey) → of_key keys key < 2 ^ 32 };
}

/// A way that is lent makes the pseudokeys that it makes.
impl<K: PseudoKey> PseudoKey for &K {
    ghost of_key = { λ keys. K.of_key keys.now };

    ghost small = { λ keys. K.small keys.now };

    fn of(&self, key: &RecordKey) -> u32 {
        (**self).of(key)
    }
}

/// The first four bytes, the highest first, of the SHA-256 of the key's bytes.
#[derive(Clone, Copy)]
pub struct ShaKey;

impl PseudoKey for ShaKey {
    ghost use Rattle.bucket_page.specs.Pseudokeys.{sha_key};
    ghost use Rattle.bucket_page.specs.PseudokeyLaws.{sha_key_small};

    ghost of_key = { λ _. sha_key };

    ghost small = { λ _. sha_key_small };

    #[tactic(auto, unfolding(crate::specs::Pseudokeys::sha_key))]
    fn of(&self, key: &RecordKey) -> u32 {
        four_at(&Sha256::digest(key.to_bytes()), 0)
    }
}

/// The low 32 bits of the key's number, for tests.
#[derive(Clone, Copy)]
pub struct NumberKey;

impl PseudoKey for NumberKey {
    ghost use Rattle.bucket_page.specs.Pseudokeys.{number_key};
    ghost use Rattle.bucket_page.specs.PseudokeyLaws.{number_key_small};

    ghost of_key = { λ _. number_key };

    ghost small = { λ _. number_key_small };

    fn of(&self, key: &RecordKey) -> u32 {
        (key.number % (1 << 32)) as u32
    }
}

/// The same number for every key, for tests.
#[derive(Clone, Copy)]
pub struct ConstantKey(pub u32);

impl PseudoKey for ConstantKey {
    ghost use Rattle.std.specs.Prelude.{◌%◌, ◌^◌};
    ghost use Rattle.bucket_page.specs.PseudokeyLaws.{low_bits_small};

    ghost of_key = { λ keys _. keys.0 % 2 ^ 32 };

    ghost small = { λ keys _. low_bits_small keys.0 };

    fn of(&self, _key: &RecordKey) -> u32 {
        self.0
    }
}
