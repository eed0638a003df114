//! The searches that a call begins, counted by the locks that its steps are granted.

ghost use Rattle.std.specs.Prelude.{◌≡◌};
ghost use Rattle.xsi_calls.specs.QuestionWords.{IsSeat, row_of};
ghost use Rattle.xsi_calls.specs.Counting.{enters_directory, finds_behind};
ghost use Rattle.call_writes.specs.WriteRuns.{is_to_search};

use file_pages::FileFault;
use page_locks::{Lock, LockKind, LockName, LockTable};
use step_rules::{Kind, Progress};

/// The searches behind a step of a seat, of which there were so many before it. From `u32::MAX`
/// on no more are counted.
pub(crate) fn finds_behind(did: Progress<FileFault>, locks: &LockTable, seat: u8, finds: u32) -> u32
    requires { IsSeat locks.now seat }
    ensures { result ≡ finds_behind did (row_of locks.now seat) finds }
{
    if enters_directory(did, locks, seat) {
        finds.saturating_add(1)
    } else {
        finds
    }
}

/// Whether the seat was granted the directory to read by its step, with which a search begins.
fn enters_directory(did: Progress<FileFault>, locks: &LockTable, seat: u8) -> bool
    requires { IsSeat locks.now seat }
    ensures { result ≡ enters_directory did (row_of locks.now seat) }
{
    match did {
        Progress::Moved(Kind::Grant) => is_to_search(locks.last(seat)),
        _ => false,
    }
}

/// Whether a lock is that with which a search begins.
fn is_to_search(lock: Option<Lock>) -> bool
    ensures { result ≡ is_to_search lock }
{
    matches!(
        lock,
        Some(Lock {
            name: LockName::Directory,
            kind: LockKind::Read,
        })
    )
}
