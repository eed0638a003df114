//! What C keeps between two calls: one pointer, to a session or to nothing.

ghost use Rattle.std.specs.Prelude.{◌≡◌, IsSome, None, Some};
ghost use Rattle.msgq_c.specs.Held.{KeptSession, kept_session_coded, owns_kept_session};

mod parts;
pub(crate) mod recovery;

use crate::kept::Kept;
use parts::Parts;
use std::alloc::Global;
use std::marker::Model;
use std::ptr;

/// A session in a box, or nothing. C sees one pointer, which it does not follow.
#[repr(C)]
#[derive(Drop)]
pub struct Held {
    ptr: *mut u8,
    alloc: Global,
    /// The session, where there is one.
    pub ghost session: { KeptSession } by { kept_session_coded },
}

impl Model for Held {
    ghost also_owns = { λ h. owns_kept_session h.alloc h.ptr h.session };
}

impl Held {
    /// Nothing.
    pub fn empty(alloc: Global) -> Held
        ensures { result.session ≡ None }
    {
        Held {
            ptr: ptr::null_mut(),
            alloc,
        }
    }

    /// The session of a box.
    pub fn of(session: Box<Kept>) -> Held
        ensures { result.session ≡ Some session.value }
    {
        Held::of_parts(Parts::of(session))
    }

    /// The box again.
    pub fn into_box(self) -> Box<Kept>
        requires { IsSome self.session }
        ensures { self.session ≡ Some result.value }
    {
        self.into_parts().into_box()
    }

    fn of_parts(parts: Parts<Kept, Global>) -> Held
        ensures { result.session ≡ Some parts.value }
    {
        let Parts { ptr, alloc } = parts;
        Held {
            ptr: ptr as *mut u8,
            alloc,
        }
    }

    fn into_parts(self) -> Parts<Kept, Global>
        requires { IsSome self.session }
        ensures { self.session ≡ Some result.value }
    {
        let Held { ptr, alloc } = self;
        Parts {
            ptr: ptr as *mut Kept,
            alloc,
        }
    }
}

/// C may hand a handle from one thread to another: what it holds may change threads.
#[expect(dead_code)]
fn a_session_changes_threads() {
    fn changes_threads<T: Send>() {}
    changes_threads::<Kept>();
}
