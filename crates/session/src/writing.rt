//! The pages of a session that have changed, written to another device.

ghost use Rattle.std.specs.Prelude.{◌≡◌, length};
ghost use Rattle.session.specs.Session.{pages_of};
ghost use Rattle.session.specs.Writing.{WritesChanged};

use crate::session::Session;
use page_device::PageDevice;
use thiserror::Error;

/// Why pages that have changed were not written to another device.
#[derive(Clone, Copy, Debug, PartialEq, Eq, Error)]
pub enum Unwritten {
    /// A transfer of that device failed. Each of its pages may be as it was, or as it is to be.
    #[error("the device could not be written")]
    Device,
    /// The session has failed. From here on no call is answered.
    #[error("the file has failed")]
    Session,
}

impl<D: PageDevice + Drop> Session<D> {
    /// Writes each page that may have changed since the pages were saved to another device, and
    /// tells whether there was one. Where the device is honest and has the pages as they were
    /// saved, it then has them as they are to be written. It is not read, nor synced, and the pages
    /// do not count as saved.
    ///
    /// # Errors
    ///
    /// Where a transfer failed, of the device or of the session's own.
    pub fn write_changed<E: PageDevice>(&mut self, device: &mut E) -> Result<bool, Unwritten>
        requires { length (E.content device.old) ≡ pages_of self.old }
        ensures { WritesChanged E.content E.is_honest E.fault_count result
            self.old self.new device.old device.new }
    {
        let pages = self.pages();
        let mut from = 0;
        while from < pages {
            let Some(page) = self.next_changed(from) else {
                return Ok(from > 0);
            };
            let Some(bytes) = self.page(page) else {
                return Err(Unwritten::Session);
            };
            let Ok(()) = device.write(page, &bytes) else {
                return Err(Unwritten::Device);
            };
            from = page + 1;
        }
        Ok(from > 0)
    }
}
