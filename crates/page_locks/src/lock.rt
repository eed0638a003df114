//! What can be locked, and in which kinds.

ghost use Rattle.std.specs.Prelude.{◌≡◌};
ghost use Rattle.page_locks.specs.Locks.{is_on, in_kind};

/// What a lock is on. Callers take locks in the order of the variants; a table asks for none.
#[derive(Clone, Copy, PartialEq, Eq, Default)]
pub enum LockName {
    /// A key that queues are found by.
    Key(u32),
    /// The counter of queue ids; the default, which fills places that hold no lock.
    #[default]
    Counter,
    /// The queue of an id, with its messages.
    Queue(u32),
    /// The directory of the hash file.
    Directory,
    /// A bucket page of the hash file, by its number.
    Page(u32),
}

/// How a name is locked: the ρ, α and ξ locks of Ellis (1983).
#[derive(Clone, Copy, PartialEq, Eq, Default)]
pub enum LockKind {
    /// Beside any number of readers and one selective holder.
    #[default]
    Read,
    /// The one that may write, beside readers.
    Selective,
    /// Beside no other.
    Exclusive,
}

/// A name, and the kind in which it is held.
#[derive(Clone, Copy, PartialEq, Eq, Default)]
pub struct Lock {
    /// What is locked.
    pub name: LockName,
    /// How.
    pub kind: LockKind,
}

impl Lock {
    /// Whether this is a lock on the name.
    pub(crate) fn is_on(&self, name: LockName) -> bool
        ensures { result ≡ is_on name self.now }
    {
        self.name == name
    }

    /// Changes the kind, where this is a lock on the name.
    pub(crate) fn convert(&mut self, name: LockName, kind: LockKind)
        ensures { self.new ≡ in_kind name kind self.old }
    {
        if self.is_on(name) {
            self.kind = kind;
        }
    }
}
