//! What is left of a kernel that was closed, or was not.

use crate::fault::CloseFault;
use crate::kernel::Kernel;
use bucket_page::PseudoKey;
use page_device::PageDevice;
use queue_model::Entry;

/// What is left of a kernel that was closed.
#[derive(Drop)]
pub struct Closed<D> {
    /// The device.
    pub device: D,
    /// What was decided, in its order.
    pub journal: Vec<Entry>,
}

/// Why a kernel was not closed, or not closed well.
#[derive(Drop)]
pub enum NotClosed<D: PageDevice, K: PseudoKey> {
    /// A seat has a call under way. Nothing changed.
    Busy(Kernel<D, K>),
    /// What was changed may be lost.
    Fault(Closed<D>, CloseFault),
}
