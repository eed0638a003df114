//! Laws of every table, each on a function that does nothing.

ghost use Rattle.std.specs.Prelude.{◌≡◌, ◌≢◌, ◌↔◌, ℕ, Some, None, IsTrue};
ghost use Rattle.page_locks.specs.declared.lock.LockKind.{LockKind};
ghost use Rattle.page_locks.specs.declared.lock.LockKind.TheVariants.{Read, Selective, Exclusive};
ghost use Rattle.page_locks.specs.declared.lock.LockName.{LockName};
ghost use Rattle.page_locks.specs.Locks.{is_same};
ghost use Rattle.page_locks.specs.Table.{Table, IsSeat, held, with_lock, without_lock, with_kind};
ghost use Rattle.page_locks.specs.Writers.{HasOneWriter, ChangesOnly};

use crate::lock_table::LockTable;

impl LockTable {
    /// At most one seat holds a name in a kind that may write.
    pub fn has_one_writer(&self)
        ensures { (name : LockName) → HasOneWriter self.now name }
    {
        self.keeps_limits();
    }

    /// Beside an exclusive holder no other seat holds the name.
    pub fn exclusive_is_alone(&self)
        ensures { (seat other : ℕ) (name : LockName) → other ≢ seat →
            held self.now seat name ≡ Some Exclusive → held self.now other name ≡ None }
    {
        self.keeps_limits();
    }

    /// Beside a selective holder the others read, at most.
    pub fn readers_stay_beside(&self)
        ensures { (seat other : ℕ) (name : LockName) (kind : LockKind) → other ≢ seat →
            held self.now seat name ≡ Some Selective →
            held self.now other name ≡ Some kind → kind ≡ Read }
    {
        self.keeps_limits();
    }
}

/// A grant, a release and a conversion change what their seat holds of their name, and no more.
pub fn changes_are_local()
    ensures grant { (t : Table) (seat : ℕ) (name : LockName) (kind : LockKind) → IsSeat t seat →
        ChangesOnly seat name t (with_lock t seat name kind) }
    ensures release { (t : Table) (seat : ℕ) (name : LockName) → IsSeat t seat →
        ChangesOnly seat name t (without_lock t seat name) }
    ensures convert { (t : Table) (seat : ℕ) (name : LockName) (kind : LockKind) → IsSeat t seat →
        ChangesOnly seat name t (with_kind t seat name kind) }
{}

/// The names that contracts take for one are equal.
pub fn names_differ()
    ensures { (a b : LockName) → IsTrue (is_same a b) ↔ (a ≡ b) }
{}
