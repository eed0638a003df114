//! The numbers that C is told.

ghost use Rattle.std.specs.Prelude.{◌≡◌};
ghost use Rattle.msgq_c.specs.Codes.{answer_code, code_of, unanswered_code};

use session::Unanswered;
use session::queue_model::Answer;

/// Everything went well. The numbers from 1 to 11 are those of `Errno`, and those from 20 to 74 of
/// docs/FAULTS.md.
pub(crate) const DONE: u32 = 0;

/// A record has no room in the file.
pub(crate) const NO_ROOM: u32 = 50;

/// There is no memory.
pub(crate) const NO_MEMORY: u32 = 60;

/// The file has failed.
pub(crate) const FAILED: u32 = 62;

/// The call would wait.
pub(crate) const WAITS: u32 = 100;

/// The handle has no session.
pub(crate) const NO_SESSION: u32 = 101;

/// The handle has a session already.
pub(crate) const IN_USE: u32 = 102;

/// A file can't have so many pages, or has no such page.
pub(crate) const NO_PAGE: u32 = 103;

/// Calls do not lead on from the pages of the file.
pub(crate) const FOREIGN: u32 = 104;

/// The pages are to be written: what was done is not noted.
pub(crate) const DUE: u32 = 105;

/// The journal is of another version.
pub(crate) const OTHER_VERSION: u32 = 106;

/// The journal is of another file.
pub(crate) const OTHER_FILE: u32 = 107;

/// That of a call.
pub(crate) fn code_of(came: &Result<Answer, Unanswered>) -> u32
    ensures { result ≡ code_of came.now }
{
    match came {
        Ok(Answer::Refused(errno)) => u32::from(errno.number()),
        Ok(_) => DONE,
        Err(Unanswered::Waits) => WAITS,
        Err(Unanswered::NoRoom) => NO_ROOM,
        Err(Unanswered::NoMemory) => NO_MEMORY,
        Err(Unanswered::Failed) => FAILED,
    }
}
