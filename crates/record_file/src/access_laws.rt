//! The law of accesses.

ghost use Rattle.record_file.specs.Beginnings.{Begins};

/// An access that has just begun is for what it was made for, holds no lock, and is allowed on each
/// record on which it can be begun.
pub fn an_access_begins_right()
    ensures { Begins }
{}
