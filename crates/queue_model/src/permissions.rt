//! Owners and modes, and who may do what.

ghost use Rattle.std.specs.Prelude.{◌≡◌};
ghost use Rattle.queue_model.specs.Access.{permissions_of, is_owner, lacks_access, changed};

use crate::call::SetArguments;
use crate::caller::Caller;
use numbers::limits::{MODES, SUPERUSER};

/// The bit of an octal digit of a mode that lets its class of callers read.
pub const READ: u16 = 4;

/// The bit of an octal digit of a mode that lets its class of callers write.
pub const WRITE: u16 = 2;

/// What a call needs of a queue's mode.
#[derive(Clone, Copy, PartialEq, Eq)]
pub enum Access {
    /// Receive and Stat read.
    Read,
    /// Send writes.
    Write,
}

/// Owner, creator and mode of a queue (`ipc_perm` of POSIX.1-2017, `<sys/ipc.h>`).
#[derive(Clone, Copy, PartialEq, Eq)]
pub struct Permissions {
    /// User id of the owner.
    pub uid: u32,
    /// Group id of the owner.
    pub gid: u32,
    /// User id of the creator.
    pub cuid: u32,
    /// Group id of the creator.
    pub cgid: u32,
    /// Nine bits: an octal digit each for the owner, the group and others.
    pub mode: u16,
}

impl Permissions {
    /// Those of a new queue: its creator owns it. Of the mode the low nine bits count.
    pub fn of_creator(caller: Caller, mode: u16) -> Permissions
        ensures { result ≡ permissions_of caller mode }
    {
        Permissions {
            uid: caller.uid,
            gid: caller.gid,
            cuid: caller.uid,
            cgid: caller.gid,
            mode: mode % MODES,
        }
    }

    /// Whether the caller is the owner, the creator or user 0, who alone may set and remove.
    pub fn is_owned_by(&self, caller: Caller) -> bool
        ensures { result ≡ is_owner caller self.now }
    {
        caller.uid == SUPERUSER || caller.uid == self.uid || caller.uid == self.cuid
    }

    /// Whether the mode keeps the caller from this access.
    pub fn keeps_out(&self, access: Access, caller: Caller) -> bool
        ensures { result ≡ lacks_access access caller self.now }
    {
        let digit = if caller.uid == self.uid || caller.uid == self.cuid {
            self.mode / 64
        } else if caller.gid == self.gid || caller.gid == self.cgid {
            self.mode / 8 % 8
        } else {
            self.mode % 8
        };
        let bit = match access {
            Access::Read => READ,
            Access::Write => WRITE,
        };
        caller.uid != SUPERUSER && digit & bit == 0
    }

    /// Takes the owner, group and mode that are given; the creator stays.
    pub fn change(&mut self, arguments: &SetArguments)
        ensures { self.new ≡ changed arguments.now self.old }
    {
        self.uid = arguments.uid.unwrap_or(self.uid);
        self.gid = arguments.gid.unwrap_or(self.gid);
        self.mode = arguments.mode.unwrap_or(self.mode) % MODES;
    }
}
