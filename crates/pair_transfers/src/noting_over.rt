//! A note made over a file and its journal.
ghost use Rattle.std.specs.Prelude.{◌≡◌, [], IsTrue, OnOk};
ghost use Rattle.safe_device.specs.Crash.{Elapses, LeavesOnly};
ghost use Rattle.safe_device.specs.Left.{images_of, with_calls};
ghost use Rattle.safe_device.specs.Safe.{IsEither, committed};
ghost use Rattle.pair_transfers.specs.Noting.{DoesNote, HasNoted};
ghost use Rattle.pair_transfers.specs.Saving.{IsReady};

use crate::note::{Note, NoteAct};
use crate::save::SaveFault;
use safe_device::PagePair;

/// A note has no more acts.
const MOST_ACTS: u32 = 3;

/// Notes calls behind the pages of a file: each act is made as `Note::next` tells it, and `Note::told`
/// hears how it went. Cut off at any moment, this leaves what stood there, or that with these calls;
/// after its Ok the latter alone.
///
/// # Errors
///
/// A transfer failed. The file is to be opened anew.
pub fn note_over<P: PagePair>(pair: &mut P, calls: &[u8]) -> Result<(), SaveFault>
    requires { IsTrue P.is_honest →
        IsReady P.file P.journal P.may_leave (P.file pair.old) pair.old }
    ensures noted { IsTrue P.is_honest → OnOk result
        (HasNoted P.file P.journal P.may_leave calls.now pair.old pair.new) }
    ensures any_moment { IsTrue P.is_honest →
        LeavesOnly P.moment P.left_since pair.old pair.new
        (IsEither (committed P.file P.journal pair.old)
        (with_calls calls.now (committed P.file P.journal pair.old))) }
{
    let count = pair.pages();
    let mut note = Note::begin();
    for _ in 0..MOST_ACTS {
        let Some(act) = note.next()? else {
            return Ok(());
        };
        let is_done = make(pair, act, count, calls);
        note.told(is_done)?;
    }
    Err(SaveFault::Device)
}

/// Makes an act; false where a transfer has failed.
fn make<P: PagePair>(pair: &mut P, act: NoteAct, count: u32, calls: &[u8]) -> bool
    requires { IsTrue P.is_honest → images_of (P.journal pair.old) ≡ [] }
    ensures makes { IsTrue P.is_honest →
        DoesNote P.file P.journal P.may_leave count calls.now act result pair.old pair.new }
    ensures time { Elapses P.moment P.left_since P.may_leave pair.old pair.new }
{
    match act {
        NoteAct::Add => pair.append_calls(count, calls).is_ok(),
        NoteAct::Sync => pair.sync_journal().is_ok(),
    }
}
