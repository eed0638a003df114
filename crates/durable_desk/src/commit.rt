//! What a desk has answered is brought to its file.

ghost use Rattle.std.specs.Prelude.{◌≡◌, OnOk, [], true};
ghost use Rattle.durable_desk.specs.Durable.{IsCommitted, IsCutShortOn};
ghost use Rattle.durable_desk.specs.Commit.{Brings, LeavesTheLast, Writes};
ghost use Rattle.durable_desk.specs.Room.{AddsNone, HasNoCalls};

use call_entries::CallLog;
use desk::Desk;
use desk::session::the_pages_are_the_file;
use safe_device::page_device::PageDevice;
use safe_device::{NoteFault, PagePair, SafeDevice};
use thiserror::Error;

/// Why a commit was not made. From there on none is made.
#[derive(Clone, Copy, Debug, PartialEq, Eq, Error)]
pub enum Uncommitted {
    /// A transfer failed. Once the file is opened again it is as at the last commit, or as at this
    /// one.
    #[error("the file could not be written")]
    Device,
    /// The desk has failed: no call is answered from here on.
    #[error("the desk has failed")]
    Desk,
    /// A commit has failed before, or the desk has. Nothing was done.
    #[error("the file has failed before")]
    Earlier,
}

/// Brings what was decided since the last commit to where it outlasts a crash: its calls are noted,
/// with one addition; or, where some were left out or the journal is to end, the pages are brought.
pub(crate) fn keep<P: PagePair>(
    desk: &mut Desk,
    device: &mut SafeDevice<P>,
    log: &mut CallLog,
    is_due: bool,
) -> Result<(), Uncommitted>
    requires { IsCommitted P.is_honest P.may_leave desk.old device.old }
    ensures becomes { Brings P.is_honest P.may_leave result
        desk.old desk.new log.old log.new device.old device.new }
    ensures any_moment { IsCutShortOn P.is_honest P.moment P.left_since
        desk.old log.old device.old device.new }
    ensures due { is_due ≡ true → OnOk result (HasNoCalls P.is_honest device.new) }
    ensures none { log.old.bytes ≡ [] → OnOk result (AddsNone P.is_honest device.old device.new) }
{
    if is_due || !log.is_whole() {
        return bring(desk, device, log);
    }
    if log.as_slice().is_empty() {
        log.clear();
        return Ok(());
    }
    match device.note(log.as_slice()) {
        Ok(()) => {
            log.clear();
            Ok(())
        }
        Err(NoteFault::Written) => bring(desk, device, log),
        Err(NoteFault::Device) => Err(Uncommitted::Device),
    }
}

/// A checkpoint: brings the pages of a desk that have changed since they were saved to where they
/// outlast a crash, which ends the calls, and notes that they are saved.
pub(crate) fn bring<P: PagePair>(
    desk: &mut Desk,
    device: &mut SafeDevice<P>,
    log: &mut CallLog,
) -> Result<(), Uncommitted>
    requires { IsCommitted P.is_honest P.may_leave desk.old device.old }
    ensures becomes { Brings P.is_honest P.may_leave result
        desk.old desk.new log.old log.new device.old device.new }
    ensures any_moment { IsCutShortOn P.is_honest P.moment P.left_since
        desk.old log.old device.old device.new }
    ensures ended { OnOk result (HasNoCalls P.is_honest device.new) }
{
    the_pages_are_the_file();
    let is_changed = write_changed(desk, device)?;
    let many = device.noted_count();
    if !is_changed && many == 0 {
        log.clear();
        return Ok(());
    }
    let Ok(()) = device.sync() else {
        return Err(Uncommitted::Device);
    };
    if !desk.note_saved() {
        return Err(Uncommitted::Desk);
    }
    log.clear();
    Ok(())
}

/// Writes the pages of a desk that have changed since they were saved. Whether there was one.
fn write_changed<P: PagePair>(
    desk: &mut Desk,
    device: &mut SafeDevice<P>,
) -> Result<bool, Uncommitted>
    requires { IsCommitted P.is_honest P.may_leave desk.old device.old }
    ensures becomes { Writes P.is_honest P.file P.journal result
        desk.old desk.new device.old device.new }
    ensures any_moment { LeavesTheLast P.is_honest P.moment P.left_since device.old device.new }
{
    let pages = desk.pages();
    let mut from = 0;
    while from < pages {
        let Some(page) = desk.next_changed(from) else {
            return Ok(from > 0);
        };
        let Some(bytes) = desk.page(page) else {
            return Err(Uncommitted::Desk);
        };
        let Ok(()) = device.write(page, &bytes) else {
            return Err(Uncommitted::Device);
        };
        from = page + 1;
    }
    Ok(from > 0)
}
