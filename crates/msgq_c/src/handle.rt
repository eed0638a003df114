//! What C holds of a session.

ghost use Rattle.std.specs.Prelude.{◌≡◌, IsNone, IsSome, None, Some};
ghost use Rattle.std.specs.Option.{is_some};
ghost use Rattle.msgq_c.specs.Held.{KeptSession};

use crate::held::Held;
use crate::kept::Kept;
use std::alloc::Global;
use std::mem;

/// A session that C holds, or none. All zeros are none.
#[repr(C)]
#[derive(Drop)]
pub struct Handle {
    pub(crate) held: Held,
    pub(crate) is_open: bool,
    ghost agrees: { is_open ≡ is_some held.session },
}

impl Handle {
    /// Puts a session into a handle that has none.
    pub(crate) fn put(&mut self, session: Box<Kept>)
        requires { IsNone self.old.held.session }
        ensures { self.new.held.session ≡ Some session.value }
    {
        *self = Handle {
            held: Held::of(session),
            is_open: true,
        };
    }

    /// Takes the session out.
    pub(crate) fn take(&mut self, alloc: Global) -> Box<Kept>
        requires { IsSome self.old.held.session }
        ensures session { self.old.held.session ≡ Some result.value }
        ensures none { self.new.held.session ≡ None }
    {
        let none = Handle {
            held: Held::empty(alloc),
            is_open: false,
        };
        let Handle { held, is_open: _ } = mem::replace(self, none);
        held.into_box()
    }
}
