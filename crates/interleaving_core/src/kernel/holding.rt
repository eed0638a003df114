//! What a seat holds of the file.

ghost use Rattle.interleaving_core.specs.Holding.{HoldsFileLocks};
ghost use Rattle.interleaving_core.specs.Words.{IsSeat};

use crate::kernel::Kernel;
use bucket_page::PseudoKey;
use page_device::PageDevice;

impl<D: PageDevice + Drop, K: PseudoKey + Drop> Kernel<D, K> {
    /// A seat always holds of the directory and of pages exactly the locks that its call asks for
    /// where it has come, whatever the device gives.
    pub fn holds_file_locks(&self, seat: u8)
        requires { IsSeat self.now.locks seat }
        ensures { HoldsFileLocks seat self.now }
    {
        self.seats[seat as usize - 1].holds_of_file();
    }
}
