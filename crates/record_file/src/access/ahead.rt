//! All steps of a write, in one go.

ghost use Rattle.std.specs.Prelude.{◌≡◌, IfErr, IfOk, IfSome, None, true, false};
ghost use Rattle.record_file.specs.AccessWords.{EndsRow, IsReady, IsSeat, row_of};
ghost use Rattle.record_file.specs.Accesses.{access_locks};
ghost use Rattle.record_file.specs.AccessRuns.{FailsAtOnce, WritesAtOnce, WritesThere};

use crate::access::Access;
use crate::operation::RecordOperation;
use crate::page_ahead::{put_ahead, relink_ahead, remove_ahead, replace_ahead};
use file_pages::FileFault;
use file_pages::buffer_pool::Pool;
use page_device::PageDevice;
use page_locks::LockTable;

impl Access {
    /// All steps of a write, in one go, up to the Release of its page: where it has not begun, its
    /// pages are in frames, the page that the directory names has the pseudokey and what it writes
    /// can stand there, nobody stands in its way, and nothing more is due behind it. Else nothing is
    /// done, it tells false, and it is left to `step`. The lock of the page is never taken, since
    /// nobody else steps in between.
    pub fn write_through<D: PageDevice>(
        &mut self,
        pool: &mut Pool<D>,
        locks: &LockTable,
        seat: u8,
    ) -> Result<bool, FileFault>
        requires seat { IsSeat locks.now seat }
        requires ready { IsReady pool.old }
        requires row { EndsRow (access_locks self.old) 3 (row_of locks.now seat) }
        ensures made { IfOk result (λ made. made ≡ true →
            WritesAtOnce seat self.old self.new pool.old pool.new locks.now) }
        ensures spares { IfOk result (λ made. made ≡ false →
            (self.new ≡ self.old) × (pool.new ≡ pool.old)) }
        ensures failed { IfErr result (λ fault.
            FailsAtOnce seat fault self.old self.new pool.old pool.new locks.now) }
    {
        let Some(bucket) = self.operation.bucket() else {
            return Ok(false);
        };
        let Some(page) = bucket.heads_for(pool, locks, seat) else {
            return Ok(false);
        };
        let Some(found) = self.write_ahead(pool, page) else {
            return Ok(false);
        };
        self.operation.end_at(page, found);
        self.written = true;
        Ok(true)
    }

    /// Writes on a page that is in a frame, where nothing more is due behind that, and takes what
    /// it writes as `take` does. Of the key, the length of the value that stood there is told.
    fn write_ahead<D: PageDevice>(&mut self, pool: &mut Pool<D>, page: u32) -> Option<Option<usize>>
        requires ready { IsReady pool.old }
        ensures made { IfSome result (λ found.
            WritesThere page found pool.old pool.new self.old self.new) }
        ensures spares { result ≡ None → (self.new ≡ self.old) × (pool.new ≡ pool.old) }
    {
        match &self.operation {
            RecordOperation::Find(_) => None,
            RecordOperation::Insert(_) => {
                if !put_ahead(pool, page, &self.key, self.value.as_slice()) {
                    return None;
                }
                Some(None)
            }
            RecordOperation::Replace(_) => match &self.links {
                None => {
                    let value = self.value.as_slice();
                    if !replace_ahead(pool, page, &self.key, value) {
                        return None;
                    }
                    Some(Some(value.len()))
                }
                Some(links) => {
                    let Some(len) = relink_ahead(pool, page, &self.key, links, &mut self.value)
                    else {
                        return None;
                    };
                    Some(Some(len))
                }
            },
            RecordOperation::Delete(_) => {
                let Some(len) = remove_ahead(pool, page, &self.key) else {
                    return None;
                };
                Some(Some(len))
            }
        }
    }
}
