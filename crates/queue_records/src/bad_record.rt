//! Why bytes are no record.

ghost use Rattle.std.specs.Prelude.{◌≡◌};
ghost use Rattle.page_locks.specs.numbers.declared.faults.TheConstants.{BAD_RECORD};

use page_locks::faults::BAD_RECORD;
use thiserror::Error;

/// The key and the value are not the spelling of a record in range.
#[derive(Clone, Copy, Debug, PartialEq, Eq, Error)]
#[error("the key and the value are not a record's")]
pub struct BadRecord;

impl BadRecord {
    /// The number of this fault, as docs/FAULTS.md lists it.
    pub fn number(self) -> u8
        ensures { result ≡ BAD_RECORD }
    {
        BAD_RECORD
    }
}
