//! A slot of the table: a name, and who holds it.

ghost use Rattle.std.specs.Prelude.{◌≡◌, ◌<◌};
ghost use Rattle.page_locks.specs.Probing.{home, gap, is_open};

use crate::holders::Holders;
use crate::lock::LockName;

/// How many slots a table has. At most half of them are taken.
pub const SLOTS: usize = 1024;

/// A name and its holders. Where there are none the slot is free, whatever the name.
#[derive(Clone, Copy)]
pub struct Slot {
    pub name: LockName,
    pub holders: Holders,
}

impl Slot {
    /// A slot in which no name stands.
    pub const FREE: Slot = Slot {
        name: LockName::Counter,
        holders: Holders::NOBODY,
    };

    /// Whether the name stands here, or may.
    pub fn is_open_to(&self, name: LockName) -> bool
        ensures { result ≡ is_open name self.now }
    {
        self.holders.is_nobody() || self.name == name
    }
}

/// The slot where the search for a name begins.
pub fn home(name: LockName) -> usize
    ensures value { result ≡ home name }
    ensures within { result < SLOTS }
{
    match name {
        LockName::Key(n) | LockName::Queue(n) | LockName::Page(n) => n as usize % SLOTS,
        LockName::Counter | LockName::Directory => 0,
    }
}

/// How many steps lead from the home of a name to a slot.
pub fn way(name: LockName, place: usize) -> usize
    requires { place < SLOTS }
    ensures { result ≡ gap (home name) place }
{
    (place + (SLOTS - home(name))) % SLOTS
}
