//! What is done before a file is opened that a crash may have left.
ghost use Rattle.std.specs.Prelude.{◌≡◌, ◌↔◌, ◌<◌, ◌≤◌, ℕ, length, take, Some, is_some, IfOk, OnOk, IsTrue, IsErrOf};
ghost use Rattle.std.specs.List.{All};
ghost use Rattle.safe_device.specs.declared.journal.PageImage.{PageImage as TheImage};
ghost use Rattle.safe_device.specs.Left.{put_back, images_of, found_of, rest_of};
ghost use Rattle.safe_device.specs.Crash.{Cleared, Elapses, Follows, HasBoth, HasFile, HasJournal, Keeps, LeavesOnly};
ghost use Rattle.safe_device.specs.Safe.{committed, Fits, Holds, IsAtRest, IsFoundOrLeft, IsLeftBefore, IsRestoring, StandsFor};

use crate::page_pair::{FoundJournal, PagePair};
use page_device::PAGE_BYTES;
use std::io;
use thiserror::Error;

/// Why a file was not brought back to its last sync.
#[derive(Debug, Drop, Error)]
pub enum RecoveryFault {
    /// The journal names pages that the file does not have. Nothing was written.
    #[error("its journal names pages that it does not have")]
    Damaged,
    /// The system failed to read or write the file or its journal. It may be tried again.
    #[error("{0}")]
    Failed(io::Error),
}

impl From<io::Error> for RecoveryFault {
    ghost use Rattle.std.specs.Prelude.{◌≡◌};
    ghost use Rattle.safe_device.specs.declared.recovery.RecoveryFault.TheVariants.{Failed};

    ghost from_gives = { λ error fault. fault ≡ Failed error };

    fn from(error: io::Error) -> RecoveryFault {
        RecoveryFault::Failed(error)
    }
}

/// Puts the images of a journal back where there is one. Its calls stay in it, for who opens the
/// file; where it has none it is ended. This may be cut off at any moment, and made again. Where
/// there is no journal it sees to it that a crash brings none back: whoever ended it may have been
/// killed before that was on the disk.
#[tactic(auto, using(crate::proofs::Recovering::same_committed))]
pub fn recover<P: PagePair>(pair: &mut P) -> Result<(), RecoveryFault>
    ensures at_rest { IsTrue P.is_honest →
        OnOk result (IsAtRest P.file P.journal P.may_leave pair.new) }
    ensures pages { IsTrue P.is_honest →
        OnOk result (Holds P.file P.journal (committed P.file P.journal pair.old) pair.new) }
    // What is told of the pages from then on no crash takes back.
    ensures durable { IsTrue P.is_honest → OnOk result
        (Keeps (StandsFor (committed P.file P.journal pair.old)) (P.may_leave pair.new)) }
    ensures damaged { IsTrue P.is_honest → IsErrOf result RecoveryFault.Damaged →
        (Fits (P.journal pair.old) (P.file pair.old) → ⊥) × (pair.new ≡ pair.old) }
    ensures any_moment { IsTrue P.is_honest →
        LeavesOnly P.moment P.left_since pair.old pair.new
        (IsFoundOrLeft (committed P.file P.journal pair.old) (P.may_leave pair.old)) }
{
    let found = pair.find_journal()?;
    let Some(journal) = found else {
        return Ok(settle(pair)?);
    };
    if !fits(pair, journal)? {
        return Err(RecoveryFault::Damaged);
    }
    // It has to outlast a crash before a page is written: a kill may have left it unsynced.
    pair.sync_journal()?;
    put_back(pair, journal)?;
    clear(pair, journal)?;
    Ok(pair.sync_journal()?)
}

/// Lets the images of a journal go that are put back, and ends it where it has no calls.
fn clear<P: PagePair>(pair: &mut P, journal: FoundJournal) -> io::Result<()>
    requires found { IsTrue P.is_honest → Some journal ≡ found_of (P.journal pair.old) }
    requires durable { IsTrue P.is_honest →
        Keeps (HasJournal (P.journal pair.old)) (P.may_leave pair.old) }
    ensures ok { IsTrue P.is_honest →
        OnOk result (P.journal pair.new ≡ rest_of (P.journal pair.old)) }
    ensures file { P.file pair.new ≡ P.file pair.old }
    ensures crash { IsTrue P.is_honest → Follows (Cleared (P.journal pair.old))
        (P.may_leave pair.old) (P.may_leave pair.new) }
    ensures time { Elapses P.moment P.left_since P.may_leave pair.old pair.new }
{
    if journal.calls > 0 {
        return pair.end_images();
    }
    pair.end_journal()
}

/// Brings both files to where they outlast a crash, where that is not known of them.
fn settle<P: PagePair>(pair: &mut P) -> io::Result<()>
    ensures file { P.file pair.new ≡ P.file pair.old }
    ensures journal { P.journal pair.new ≡ P.journal pair.old }
    ensures settled { OnOk result
        (Keeps (HasBoth (P.file pair.new) (P.journal pair.new)) (P.may_leave pair.new)) }
    ensures any_moment { LeavesOnly P.moment P.left_since pair.old pair.new (P.may_leave pair.old) }
{
    if pair.is_settled() {
        return Ok(());
    }
    pair.sync_file()?;
    pair.sync_journal()
}

/// Whether a journal speaks of pages that are there.
fn fits<P: PagePair>(pair: &P, journal: FoundJournal) -> io::Result<bool>
    requires found { IsTrue P.is_honest → Some journal ≡ found_of (P.journal pair.now) }
    ensures { IsTrue P.is_honest →
        IfOk result (λ does. IsTrue does ↔ Fits (P.journal pair.now) (P.file pair.now)) }
{
    if journal.count > pair.pages() {
        return Ok(false);
    }
    let mut bytes = [0; PAGE_BYTES];
    for index in 0..journal.images {
        if pair.load_image(index, &mut bytes)? >= journal.count {
            return Ok(false);
        }
    }
    Ok(true)
}

/// Puts the images of a journal in their places, and waits until they outlast a crash.
fn put_back<P: PagePair>(pair: &mut P, journal: FoundJournal) -> io::Result<()>
    requires found { IsTrue P.is_honest → Some journal ≡ found_of (P.journal pair.old) }
    requires fits { IsTrue P.is_honest → Fits (P.journal pair.old) (P.file pair.old) }
    requires durable { IsTrue P.is_honest →
        Keeps (HasJournal (P.journal pair.old)) (P.may_leave pair.old) }
    ensures file { IsTrue P.is_honest →
        OnOk result (P.file pair.new ≡ (committed P.file P.journal pair.old).pages) }
    ensures durable { OnOk result (Keeps (HasFile (P.file pair.new)) (P.may_leave pair.new)) }
    ensures restoring { IsTrue P.is_honest →
        IsRestoring (P.journal pair.old) (P.may_leave pair.old) (P.may_leave pair.new) }
    ensures any_moment { IsTrue P.is_honest →
        LeavesOnly P.moment P.left_since pair.old pair.new (IsLeftBefore (P.may_leave pair.old)) }
{
    pair.cut(journal.count)?;
    write_images(pair, journal.images)?;
    pair.sync_file()
}

/// Writes so many images of the journal over their pages.
fn write_images<P: PagePair>(pair: &mut P, images: u32) -> io::Result<()>
    requires count { IsTrue P.is_honest → images ≡ length (images_of (P.journal pair.old)) }
    requires some { IsTrue P.is_honest → IsTrue (is_some (P.journal pair.old)) }
    requires durable { IsTrue P.is_honest →
        Keeps (HasJournal (P.journal pair.old)) (P.may_leave pair.old) }
    ensures file { IsTrue P.is_honest → OnOk result (P.file pair.new ≡
        put_back (P.file pair.old) (images_of (P.journal pair.old))) }
    ensures restoring { IsTrue P.is_honest →
        IsRestoring (P.journal pair.old) (P.may_leave pair.old) (P.may_leave pair.new) }
    ensures any_moment { IsTrue P.is_honest →
        LeavesOnly P.moment P.left_since pair.old pair.new (IsLeftBefore (P.may_leave pair.old)) }
{
    let mut bytes = [0; PAGE_BYTES];
    for index in 0..images {
        let page = pair.load_image(index, &mut bytes)?;
        pair.store(page, &bytes)?;
    }
    Ok(())
}
