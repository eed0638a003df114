//! A law of the definitions, on the contract of a function that does nothing.

ghost use Rattle.std.specs.Prelude.{◌≡◌, ℕ};
ghost use Rattle.frames.specs.declared.incoming.Incoming.{Incoming};
ghost use Rattle.frames.specs.Records.{Fits, at_moment, spelled};

/// A record is the spelling of at most one incoming, but for the moment of its call.
pub fn a_record_is_of_one_incoming()
    ensures { (a b : Incoming) (moment : ℕ) → Fits a → Fits b → spelled a ≡ spelled b →
        at_moment moment a ≡ at_moment moment b }
{}
