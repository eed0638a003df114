//! What C keeps of a recovery between two calls: one pointer, to it or to nothing.

ghost use Rattle.std.specs.Prelude.{◌≡◌, IsSome, None, Some};
ghost use Rattle.msgq_c.specs.HeldRecovery.{RecoveryUnderWay, owns_recovery, recovery_coded};

use crate::held::parts::Parts;
use crate::recovered::Recovered;
use std::alloc::Global;
use std::marker::Model;
use std::ptr;

/// A recovery in a box, or nothing. C sees one pointer, which it does not follow.
#[repr(C)]
#[derive(Drop)]
pub struct HeldRecovery {
    ptr: *mut u8,
    alloc: Global,
    /// The recovery, where there is one.
    pub ghost recovery: { RecoveryUnderWay } by { recovery_coded },
}

impl Model for HeldRecovery {
    ghost also_owns = { λ h. owns_recovery h.alloc h.ptr h.recovery };
}

impl HeldRecovery {
    /// Nothing.
    pub fn empty(alloc: Global) -> HeldRecovery
        ensures { result.recovery ≡ None }
    {
        HeldRecovery {
            ptr: ptr::null_mut(),
            alloc,
        }
    }

    /// The recovery of a box.
    pub fn of(recovery: Box<Recovered>) -> HeldRecovery
        ensures { result.recovery ≡ Some recovery.value }
    {
        HeldRecovery::of_parts(Parts::of(recovery))
    }

    /// The box again.
    pub fn into_box(self) -> Box<Recovered>
        requires { IsSome self.recovery }
        ensures { self.recovery ≡ Some result.value }
    {
        self.into_parts().into_box()
    }

    fn of_parts(parts: Parts<Recovered, Global>) -> HeldRecovery
        ensures { result.recovery ≡ Some parts.value }
    {
        let Parts { ptr, alloc } = parts;
        HeldRecovery {
            ptr: ptr as *mut u8,
            alloc,
        }
    }

    fn into_parts(self) -> Parts<Recovered, Global>
        requires { IsSome self.recovery }
        ensures { self.recovery ≡ Some result.value }
    {
        let HeldRecovery { ptr, alloc } = self;
        Parts {
            ptr: ptr as *mut Recovered,
            alloc,
        }
    }
}

/// C may hand a handle from one thread to another: what it holds may change threads.
#[expect(dead_code)]
fn a_recovery_changes_threads() {
    fn changes_threads<T: Send>() {}
    changes_threads::<Recovered>();
}
