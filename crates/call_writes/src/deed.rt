//! One deed of a plan.

ghost use Rattle.std.specs.Prelude.{◌≡◌, ◌↔◌, IsTrue};
ghost use Rattle.record_file.specs.Accesses.{Serves, begun};
ghost use Rattle.call_writes.specs.Dues.{IsDeedInRange, deed_key, purpose_of};

use crate::ranges::{has_range, key_written};
use bucket_page::PseudoKey;
use queue_records::Record;
use record_file::Access;
use xsi_inquiry::Write;

/// One deed of a plan: it is one access.
#[derive(Drop)]
pub enum Deed<'a> {
    /// This record is inserted on trial.
    Trial(Record<'a>),
    /// This write is made.
    Write(Write),
}

impl Deed<'_> {
    /// Whether what it writes keeps the limits of one record.
    #[inline(always)]
    pub(crate) fn is_in_range(&self) -> bool
        ensures { IsTrue result ↔ IsDeedInRange self.now }
    {
        match self {
            Deed::Trial(entry) => entry.is_in_range(),
            Deed::Write(write) => has_range(write),
        }
    }

    /// The access becomes its own, in place.
    #[inline(always)]
    pub(crate) fn begin<K: PseudoKey>(&self, access: &mut Access, keys: &K)
        requires { IsDeedInRange self.now }
        ensures value { access.new ≡ begun (purpose_of self.now)
            (K.of_key keys.now (deed_key self.now)) }
        ensures serves { Serves (purpose_of self.now) access.new }
    {
        match self {
            Deed::Trial(entry) => access.begin_insert(entry, keys.of(&entry.key())),
            Deed::Write(write) => access.begin_write(write, keys.of(&key_written(write))),
        }
    }
}
