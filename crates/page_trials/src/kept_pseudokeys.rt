//! Keys that are asked for again, and keys that take one another's slots.

use bucket_page::{Alike, KeptKeys, NumberKey, PseudoKey, RecordKey};
use std::cell::Cell;
use std::test::Fail;

/// A message's key. Those of a number and of the 16,384th behind it have one slot.
fn message(number: u64) -> RecordKey {
    RecordKey {
        kind: 5,
        queue: 1,
        number,
    }
}

/// Counts how often it is asked.
#[derive(Drop)]
struct Counted<'a> {
    asked: &'a Cell<u32>,
}

impl PseudoKey for Counted<'_> {
    ghost use Rattle.bucket_page.specs.Pseudokeys.{number_key};
    ghost use Rattle.bucket_page.specs.PseudokeyLaws.{number_key_small};

    ghost of_key = { λ _. number_key };

    ghost small = { λ _. number_key_small };

    fn of(&self, key: &RecordKey) -> u32 {
        self.asked.set(self.asked.get().wrapping_add(1));
        NumberKey.of(key)
    }
}

impl Alike for Counted<'_> {
    ghost use Rattle.std.specs.Prelude.{refl};

    ghost same = { λ _ _ _. refl };
}

#[test]
fn a_pseudokey_that_is_kept_is_not_computed_again(rt: HostRuntime) -> Result<(), Fail> {
    let asked = Cell::new(0);
    let kept = KeptKeys::new(rt.alloc(), Counted { asked: &asked })?;
    // The numbers from 2 to 5 are computed together, since 1 is kept.
    for (number, count) in [
        (1, 1),
        (1, 1),
        (2, 5),
        (1, 5),
        (5, 5),
        (16_385, 6),
        (2, 6),
        (1, 7),
    ] {
        assert!(rt; u64::from(kept.of(&message(number))) == number);
        assert!(rt; asked.get() == count);
    }
    Ok(())
}
