//! Sessions are opened and closed, and their pages are read.

ghost use Rattle.std.specs.Prelude.{◌≡◌, IsNone, Ok};
ghost use Rattle.session.specs.Words.{CanHavePages};
ghost use Rattle.msgq_c.specs.Files.{Closes, CopiesHandle, CopiesPage, Counts, Creates, HasNoSuchSize, IsKept, OpensHandle, RemakesHandle, StopsHandle, caller_of};

use crate::codes::{DONE, DUE, FAILED, FOREIGN, IN_USE, NO_MEMORY, NO_PAGE, NO_SESSION};
use crate::handle::Handle;
use crate::kept::{Kept, Unmade};
use call_entries::CallLog;
use pair_transfers::{Noting, Transfers};
use session::queue_model::Caller;
use session::{LEAST_PAGES, MAX_PAGES, OpenFault, PAGE_BYTES, Session};
use std::alloc::Global;
use std::mem::size_of;

/// Calls of so many bytes may be noted at once, some 8,000 of 64 bytes.
const NOTED_BYTES: usize = 1_048_576;

/// Who makes the calls of a session.
#[repr(C)]
pub struct Owner {
    /// The process.
    pub pid: u32,
    /// Its effective user.
    pub uid: u32,
    /// Its effective group.
    pub gid: u32,
}

/// Opens a file, from its bytes, in a handle that has no session. All zeros are such a handle.
#[unsafe(no_mangle)]
pub extern "C" fn msgq_session_open(
    alloc: Global,
    handle: &mut Handle,
    owner: &Owner,
    bytes: &[u8],
) -> u32
    ensures { OpensHandle owner.now bytes.now result
        handle.old.held.session handle.new.held.session }
{
    if handle.is_open {
        return IN_USE;
    }
    let caller = owner.caller();
    keep(alloc, handle, caller, Session::open(alloc, bytes, caller))
}

/// Opens a new file of so many pages.
#[unsafe(no_mangle)]
pub extern "C" fn msgq_session_create(
    alloc: Global,
    handle: &mut Handle,
    owner: &Owner,
    pages: u32,
) -> u32
    ensures ok { CanHavePages pages → Creates owner.now pages result
        handle.old.held.session handle.new.held.session }
    ensures no_page { (CanHavePages pages → ⊥) → HasNoSuchSize result
        handle.old.held.session handle.new.held.session }
{
    if handle.is_open {
        return IN_USE;
    }
    if pages < LEAST_PAGES || MAX_PAGES < pages {
        return NO_PAGE;
    }
    let caller = owner.caller();
    keep(alloc, handle, caller, Session::create(alloc, pages, caller))
}

/// How many pages the file has.
#[unsafe(no_mangle)]
pub extern "C" fn msgq_session_pages(alloc: Global, handle: &mut Handle, pages: &mut u32) -> u32
    ensures { Counts pages.new result handle.old.held.session handle.new.held.session }
{
    if !handle.is_open {
        return NO_SESSION;
    }
    let kept = handle.take(alloc);
    *pages = kept.session.pages();
    handle.put(kept);
    DONE
}

/// A page of the file, as it is to be written.
#[unsafe(no_mangle)]
pub extern "C" fn msgq_session_page(
    alloc: Global,
    handle: &mut Handle,
    page: u32,
    into: &mut [u8; PAGE_BYTES],
) -> u32
    ensures { CopiesPage page into.new result handle.old.held.session handle.new.held.session }
{
    if !handle.is_open {
        return NO_SESSION;
    }
    let mut kept = handle.take(alloc);
    if page >= kept.session.pages() {
        handle.put(kept);
        return NO_PAGE;
    }
    let given = kept.session.page(page);
    handle.put(kept);
    match given {
        Some(bytes) => {
            *into = bytes;
            DONE
        }
        None => FAILED,
    }
}

/// Copies the entries of the calls that may have changed the system since the pages were saved, or
/// since they were noted last, one behind the other (docs/FORMAT.md, "Calls"), and how many bytes
/// they have. Where the pages are to be saved instead, that is told.
#[unsafe(no_mangle)]
pub extern "C" fn msgq_session_notes(
    alloc: Global,
    handle: &mut Handle,
    into: &mut [u8],
    count: &mut usize,
) -> u32
    ensures { CopiesHandle count.new into.new result
        handle.old.held.session handle.new.held.session }
{
    if !handle.is_open {
        return NO_SESSION;
    }
    let kept = handle.take(alloc);
    let copied = kept.copy_notes(into);
    handle.put(kept);
    match copied {
        Some(many) => {
            *count = many;
            DONE
        }
        None => DUE,
    }
}

/// Makes the calls again of an addition to the journal of the file, which a server had answered. Where
/// one of them is not answered as it was, or there is no memory, the session is let go.
#[unsafe(no_mangle)]
pub extern "C" fn msgq_session_remake(alloc: Global, handle: &mut Handle, calls: &[u8]) -> u32
    ensures { RemakesHandle calls.now result handle.old.held.session handle.new.held.session }
{
    if !handle.is_open {
        return NO_SESSION;
    }
    let mut kept = handle.take(alloc);
    match kept.make_all(alloc, calls) {
        Ok(()) => {
            handle.put(kept);
            DONE
        }
        Err(Unmade::Foreign) => FOREIGN,
        Err(Unmade::NoMemory) => NO_MEMORY,
    }
}

/// Stops the system: from here on a call that would wait is refused.
#[unsafe(no_mangle)]
pub extern "C" fn msgq_session_stop(alloc: Global, handle: &mut Handle) -> u32
    ensures { StopsHandle result handle.old.held.session handle.new.held.session }
{
    if !handle.is_open {
        return NO_SESSION;
    }
    let mut kept = handle.take(alloc);
    kept.session.stop();
    handle.put(kept);
    DONE
}

/// Lets the session go, with what was not written.
#[unsafe(no_mangle)]
pub extern "C" fn msgq_session_close(alloc: Global, handle: &mut Handle) -> u32
    ensures { Closes result handle.old.held.session handle.new.held.session }
{
    if !handle.is_open {
        return NO_SESSION;
    }
    drop(handle.take(alloc));
    DONE
}

/// The bytes of a handle, as the library has it.
#[unsafe(no_mangle)]
pub extern "C" fn msgq_session_handle_size() -> usize
    ensures { result ≡ 16 }
{
    size_of::<Handle>()
}

/// Puts a session that was opened for a caller into its handle.
fn keep(
    alloc: Global,
    handle: &mut Handle,
    caller: Caller,
    opened: Result<Session, OpenFault>,
) -> u32
    requires { IsNone handle.old.held.session }
    ensures { IsKept caller opened result handle.new.held.session }
{
    match opened {
        Ok(session) => put(alloc, handle, caller, session),
        Err(fault) => u32::from(fault.number()),
    }
}

/// Puts a session into its handle, where there is memory.
fn put(alloc: Global, handle: &mut Handle, caller: Caller, session: Session) -> u32
    requires { IsNone handle.old.held.session }
    ensures { IsKept caller (Ok session) result handle.new.held.session }
{
    let Ok(log) = CallLog::with_room(alloc, NOTED_BYTES) else {
        return NO_MEMORY;
    };
    let mut transfers = Transfers::none(alloc);
    let Ok(()) = transfers.take_room(session.pages() as usize) else {
        return NO_MEMORY;
    };
    let kept = Kept {
        session,
        caller,
        log,
        lacked_room: false,
        transfers,
        noting: Noting::none(),
    };
    match Box::new(alloc, kept) {
        Ok(kept) => {
            handle.put(kept);
            DONE
        }
        Err(_) => NO_MEMORY,
    }
}

impl Owner {
    /// The caller.
    fn caller(&self) -> Caller
        ensures { result ≡ caller_of self.now }
    {
        Caller {
            pid: self.pid,
            uid: self.uid,
            gid: self.gid,
        }
    }
}
