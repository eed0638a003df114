//! Ways to make a pseudokey that don't depend on the value.

ghost use Rattle.std.specs.Prelude.{refl};

use crate::pseudokey::{NumberKey, PseudoKey, ShaKey};
use crate::record_key::RecordKey;
use digests::four_digests;
use directory::fields::four_at;

/// A way to make a pseudokey of which all values make the same. So a pseudokey that one of them
/// made is that of each other.
pub trait Alike: PseudoKey {
    ghost use Rattle.std.specs.Prelude.{◌≡◌, map};
    ghost use Rattle.bucket_page.specs.declared.record_key.RecordKey.{RecordKey};

    /// The pseudokeys of four keys, for ways that make four at once for less.
    fn of_four(&self, keys: &[RecordKey; 4]) -> [u32; 4]
        ensures { result ≡ map (Self.of_key self.now) keys.now }
    {
        let [a, b, c, d] = keys;
        [self.of(a), self.of(b), self.of(c), self.of(d)]
    }

    ghost same: { (a b : Self) (key : RecordKey) → Self.of_key a key ≡ Self.of_key b key };
}

impl Alike for ShaKey {
    ghost same = { λ _ _ _. refl };

    #[tactic(auto, unfolding(crate::specs::Pseudokeys::sha_key))]
    fn of_four(&self, keys: &[RecordKey; 4]) -> [u32; 4] {
        let [a, b, c, d] = keys;
        let digests = four_digests(&a.to_bytes(), &b.to_bytes(), &c.to_bytes(), &d.to_bytes());
        let [a, b, c, d] = &digests;
        [four_at(a, 0), four_at(b, 0), four_at(c, 0), four_at(d, 0)]
    }
}

impl Alike for NumberKey {
    ghost same = { λ _ _ _. refl };
}
