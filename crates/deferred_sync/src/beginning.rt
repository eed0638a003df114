//! Since when a device is lent.

use std::marker::Brand;

/// Names the moment since which a device is lent.
pub trait Beginning {
    ghost use Rattle.std.specs.Prelude.{ℕ};
    ghost use Rattle.safe_device.specs.Left.{Left};
    ghost use Rattle.deferred_sync.specs.Deferred.{Start};

    /// The moment, and how the device was then.
    ghost start: { Start };

    /// What a crash since an earlier moment might have left by then.
    ghost left: { ℕ → Left → Type 0 };
}

impl Beginning for Brand {
    ghost use Rattle.deferred_sync.specs.Deferred.{no_start};

    ghost start = { no_start };

    ghost left = { λ _ _. ⊥ };
}
