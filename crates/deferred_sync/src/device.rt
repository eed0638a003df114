//! The device whose sync is put off.
ghost use Rattle.std.specs.Prelude.{◌≡◌, IsTrue, false};
ghost use Rattle.deferred_sync.specs.Deferred.{Commits, IsLent, IsSettled, start_of};

use crate::beginning::Beginning;
use safe_device::page_device::{DeviceFault, Page, PageDevice};
use safe_device::{PagePair, SafeDevice};
use std::marker::{Model, PhantomData};

/// A device over a file and its journal that is lent to who writes it and syncs it. A sync of it
/// does nothing but note that one is due. Whoever lent it takes it back, and then commits what was
/// written, or abandons it. So a crash at any moment meanwhile leaves what it would have left at
/// the beginning, and what is committed is known by then.
#[derive(Drop)]
pub struct DeferredSync<P: PagePair, N: Beginning> {
    device: SafeDevice<P>,
    is_due: bool,
    of: PhantomData<N>,
}

impl<P: PagePair, N: Beginning> Model for DeferredSync<P, N> {
    ghost use Rattle.deferred_sync.specs.Deferred.{DeferredState, IsLent};

    ghost Value = { DeferredState P };

    ghost view = { λ d. record { device = d.device; is_due = d.is_due } };

    ghost invariant = { λ d. IsLent P.is_honest P.moment P.left_since N.start N.left d.device };
}

impl<P: PagePair, N: Beginning> DeferredSync<P, N> {
    /// A device that is lent, and of which a crash leaves the pages of its beginning.
    pub fn new(device: SafeDevice<P>) -> DeferredSync<P, N>
        requires { IsLent P.is_honest P.moment P.left_since N.start N.left device }
        ensures { result ≡ record { device = device; is_due = false } }
    {
        DeferredSync {
            device,
            is_due: false,
            of: PhantomData,
        }
    }

    /// Whether a sync was asked for behind the last write.
    pub fn is_due(&self) -> bool
        ensures { result ≡ self.now.is_due }
    {
        self.is_due
    }

    /// The device, of which nothing was committed.
    pub fn abandon(self) -> SafeDevice<P>
        ensures device { result ≡ self.device }
        ensures lent { IsLent P.is_honest P.moment P.left_since N.start N.left result }
    {
        self.device
    }

    /// Commits what was written: the device is synced, and comes back. Whether that succeeded.
    pub fn commit(self) -> (SafeDevice<P>, bool)
        ensures { Commits P.is_honest P.moment P.left_since P.may_leave
            N.start N.left self.device result.0 result.1 }
    {
        let mut device = self.device;
        let is_done = device.sync().is_ok();
        (device, is_done)
    }
}

/// A device of which a crash leaves only the pages that it has may be lent as it is: nothing is
/// committed since this moment. Its body does nothing.
pub fn a_settled_device_is_lent<P: PagePair>(device: &SafeDevice<P>)
    requires { IsTrue P.is_honest → IsSettled P.may_leave device.now }
    ensures { IsLent P.is_honest P.moment P.left_since
        (start_of P.moment device.now) (P.left_since device.now.pair) device.now }
{
    let _ = device;
}

impl<P: PagePair, N: Beginning> PageDevice for DeferredSync<P, N> {
    ghost is_honest = { λ _. P.is_honest };

    ghost content = { λ d. d.device.content };

    ghost is_synced = { λ d. d.is_due };

    ghost fault_count = { λ d. d.device.failed };

    fn pages(&self) -> u32 {
        self.device.pages()
    }

    fn faults(&self) -> u64 {
        self.device.faults()
    }

    fn read(&mut self, page: u32, into: &mut Page) -> Result<(), DeviceFault> {
        self.device.read(page, into)
    }

    fn write(&mut self, page: u32, bytes: &Page) -> Result<(), DeviceFault> {
        self.is_due = false;
        self.device.write(page, bytes)
    }

    fn extend(&mut self, bytes: &Page) -> Result<(), DeviceFault> {
        self.is_due = false;
        self.device.extend(bytes)
    }

    fn sync(&mut self) -> Result<(), DeviceFault> {
        self.is_due = true;
        Ok(())
    }
}
