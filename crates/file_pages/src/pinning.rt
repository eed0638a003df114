//! A page that is pinned within a step.

ghost use Rattle.std.specs.Prelude.{◌≡◌, ◌<◌, false, length, IsTrue, IsErr, IfErr, IfOk};
ghost use Rattle.file_pages.specs.Fault.{FileHasCause, IsDevicesFault};
ghost use Rattle.file_pages.specs.Files.{IsReady, IsFilePool};
ghost use Rattle.file_pages.specs.Pinning.{IsPinned};
ghost use Rattle.file_pages.specs.Reads.{OnlyReads};

use crate::fault::FileFault;
use buffer_pool::{Frame, Pool};
use page_device::PageDevice;

/// Pins a page of a pool of which none is pinned. The step gives it back.
pub fn pin<D: PageDevice>(pool: &mut Pool<D>, page: u32) -> Result<Frame, FileFault>
    requires ready { IsReady pool.old }
    ensures ok { IfOk result (IsPinned page pool.old pool.new) }
    ensures err { IsErr result → OnlyReads false pool.old pool.new }
    ensures fault { IsTrue pool.old.honest → IsFilePool pool.old → page < length pool.old.images →
        IfErr result (IsDevicesFault pool.old pool.new) }
    ensures cause { IfErr result (FileHasCause pool.old pool.new) }
{
    match pool.pin(page) {
        Ok(frame) => Ok(frame),
        Err(fault) => Err(FileFault::Pool(fault)),
    }
}
