//! A recovery made over a file and its journal.
ghost use Rattle.std.specs.Prelude.{◌≡◌, ◌↔◌, IfErr, IfOk, IsErrOf, IsTrue, OnOk, Some};
ghost use Rattle.safe_device.specs.Crash.{Elapses, Keeps, LeavesOnly};
ghost use Rattle.safe_device.specs.Left.{found_of};
ghost use Rattle.safe_device.specs.Safe.{Fits, Holds, IsAtRest, IsFoundOrLeft, StandsFor, committed};
ghost use Rattle.pair_transfers.specs.Recovering.{Recovers, Sees};
ghost use Rattle.pair_transfers.specs.declared.recovery.RecoverFault.TheVariants.{Device};
ghost use Rattle.pair_transfers.specs.declared.recovery.RecoveryAct.TheVariants.{PutBack};

use crate::recovery::{RecoverFault, Recovery, RecoveryAct, Seen};
use safe_device::page_device::PAGE_BYTES;
use safe_device::{FoundJournal, PagePair};
use std::io;

/// No recovery has more acts: one for each image, and six.
const MOST_ACTS: u64 = 0x1_0000_0006;

/// Brings a file back to its last sync: each act is made as `Recovery::next` tells it, and
/// `Recovery::told` hears how it went. It may be cut off at any moment, and made again.
///
/// # Errors
///
/// A transfer failed, or the journal is of another file: then nothing was written.
pub fn recover_over<P: PagePair>(pair: &mut P) -> Result<(), RecoverFault>
    ensures at_rest { IsTrue P.is_honest →
        OnOk result (IsAtRest P.file P.journal P.may_leave pair.new) }
    ensures pages { IsTrue P.is_honest →
        OnOk result (Holds P.file P.journal (committed P.file P.journal pair.old) pair.new) }
    // What is told of the pages from then on no crash takes back.
    ensures durable { IsTrue P.is_honest → OnOk result
        (Keeps (StandsFor (committed P.file P.journal pair.old)) (P.may_leave pair.new)) }
    ensures foreign { IsTrue P.is_honest → IsErrOf result RecoverFault.Foreign →
        (Fits (P.journal pair.old) (P.file pair.old) → ⊥) × (pair.new ≡ pair.old) }
    ensures any_moment { IsTrue P.is_honest →
        LeavesOnly P.moment P.left_since pair.old pair.new
        (IsFoundOrLeft (committed P.file P.journal pair.old) (P.may_leave pair.old)) }
{
    let seen = look(pair)?;
    let mut recovery = Recovery::begin(seen)?;
    for _ in 0..MOST_ACTS {
        let Some(act) = recovery.next()? else {
            return Ok(());
        };
        let is_done = make(pair, act);
        recovery.told(is_done)?;
    }
    Err(RecoverFault::Device)
}

/// What stands in the journal. Nothing is written.
fn look<P: PagePair>(pair: &P) -> Result<Seen, RecoverFault>
    ensures ok { IsTrue P.is_honest →
        IfOk result (λ seen. Sees seen (P.journal pair.now) (P.file pair.now)) }
    ensures err { IfErr result (λ fault. fault ≡ Device) }
{
    let Ok(found) = pair.find_journal() else {
        return Err(RecoverFault::Device);
    };
    let Some(journal) = found else {
        return Ok(Seen::Nothing);
    };
    let Ok(does_fit) = fits(pair, journal) else {
        return Err(RecoverFault::Device);
    };
    if !does_fit {
        return Ok(Seen::Foreign);
    }
    Ok(Seen::Whole(journal, pair.pages()))
}

/// Whether a journal speaks of pages that are there.
fn fits<P: PagePair>(pair: &P, journal: FoundJournal) -> io::Result<bool>
    requires found { IsTrue P.is_honest → Some journal ≡ found_of (P.journal pair.now) }
    ensures { IsTrue P.is_honest →
        IfOk result (λ does. IsTrue does ↔ Fits (P.journal pair.now) (P.file pair.now)) }
{
    if journal.count > pair.pages() {
        return Ok(false);
    }
    let mut bytes = [0; PAGE_BYTES];
    for index in 0..journal.images {
        if pair.load_image(index, &mut bytes)? >= journal.count {
            return Ok(false);
        }
    }
    Ok(true)
}

/// Makes an act; false where a transfer has failed.
fn make<P: PagePair>(pair: &mut P, act: RecoveryAct) -> bool
    ensures makes { IsTrue P.is_honest →
        Recovers P.file P.journal P.may_leave act result pair.old pair.new }
    ensures time { Elapses P.moment P.left_since P.may_leave pair.old pair.new }
{
    match act {
        RecoveryAct::SyncJournal => pair.sync_journal().is_ok(),
        RecoveryAct::Cut(pages) => pair.cut(pages).is_ok(),
        RecoveryAct::PutBack(index) => put_back(pair, index),
        RecoveryAct::SyncFile => pair.sync_file().is_ok(),
        RecoveryAct::EndImages => pair.end_images().is_ok(),
        RecoveryAct::End => pair.end_journal().is_ok(),
    }
}

/// Writes an image of the journal over its page.
fn put_back<P: PagePair>(pair: &mut P, index: u32) -> bool
    ensures makes { IsTrue P.is_honest →
        Recovers P.file P.journal P.may_leave (PutBack index) result pair.old pair.new }
    ensures time { Elapses P.moment P.left_since P.may_leave pair.old pair.new }
{
    let mut bytes = [0; PAGE_BYTES];
    let Ok(page) = pair.load_image(index, &mut bytes) else {
        return false;
    };
    pair.store(page, &bytes).is_ok()
}
