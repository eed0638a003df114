//! Locks as a trace spells them.

use page_locks::{Lock, LockKind, LockName};
use std::fmt;
use std::fmt::{Display, Formatter};

/// A lock: what is locked, and its kind.
#[derive(Clone, Copy)]
pub(crate) struct Spelled(pub(crate) Lock);

impl Display for Spelled {
    fn fmt<W: fmt::Write>(&self, f: &mut Formatter<W>) -> fmt::Result {
        match self.0.name {
            LockName::Key(key) => write!(f, "key {key}")?,
            LockName::Counter => f.write_str("counter")?,
            LockName::Queue(id) => write!(f, "queue {id}")?,
            LockName::Directory => f.write_str("directory")?,
            LockName::Page(page) => write!(f, "page {page}")?,
        }
        f.write_str(match self.0.kind {
            LockKind::Read => " Read",
            LockKind::Selective => " Selective",
            LockKind::Exclusive => " Exclusive",
        })
    }
}
