//! Sessions over pages in memory.

ghost use Rattle.std.specs.Prelude.{◌≡◌, ◌/◌, IfErr, IfOk, length};
ghost use Rattle.page_device.specs.declared.page.TheConstants.{PAGE_BYTES};
ghost use Rattle.session.specs.Session.{MayNotOpen, MayNotOpenBytes, Opens, OpensNew, pages_in};
ghost use Rattle.session.specs.Words.{CanHavePages, NO_MEMORY, open_number_of};

use crate::loading::loaded;
use crate::session::Session;
use interleaving_core::OpenFault;
use interleavings::a_new_file_has_no_queues;
use page_device::MemDevice;
use queue_model::Caller;
use record_file::format;
use std::alloc::Global;

impl Session<MemDevice> {
    /// Opens a file for a caller, from its bytes. The file is checked.
    ///
    /// # Errors
    ///
    /// The first thing that is wrong with it; `PastEnd` where the bytes are no whole pages, and
    /// `BadHeader` where they are more pages than a file has. A fault of no memory where there is
    /// none.
    pub fn open(
        alloc: Global,
        bytes: &[u8],
        caller: Caller,
    ) -> Result<Session<MemDevice>, OpenFault>
        ensures ok { IfOk result
            (Opens caller (pages_in (length bytes.now / PAGE_BYTES) bytes.now)) }
        ensures refused { IfErr result (MayNotOpenBytes bytes.now) }
    {
        Session::in_memory(alloc, loaded(alloc, bytes)?, caller)
    }

    /// Opens a new file of so many pages for a caller.
    ///
    /// # Errors
    ///
    /// A fault of no memory alone.
    pub fn create(
        alloc: Global,
        pages: u32,
        caller: Caller,
    ) -> Result<Session<MemDevice>, OpenFault>
        requires { CanHavePages pages }
        ensures ok { IfOk result (OpensNew caller pages) }
        ensures refused { IfErr result (λ fault. open_number_of fault ≡ NO_MEMORY) }
    {
        a_new_file_has_no_queues();
        let mut device = MemDevice::new(alloc);
        if format(&mut device, pages).is_err() {
            return Err(OpenFault::NoMemory);
        }
        Session::in_memory(alloc, device, caller)
    }

    /// Opens the pages of a device in memory for a caller, as `on`.
    ///
    /// # Errors
    ///
    /// The first thing that is wrong with it, or a fault of no memory.
    pub fn in_memory(
        alloc: Global,
        device: MemDevice,
        caller: Caller,
    ) -> Result<Session<MemDevice>, OpenFault>
        ensures ok { IfOk result (Opens caller device) }
        ensures refused { IfErr result (MayNotOpen device) }
    {
        match Session::on(alloc, device, caller) {
            Ok(session) => Ok(session),
            Err((_, fault)) => Err(fault),
        }
    }
}
