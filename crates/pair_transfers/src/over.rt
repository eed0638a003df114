//! A save made over a file and its journal.
ghost use Rattle.std.specs.Prelude.{◌≡◌, ℕ, List, IsTrue, OnOk};
ghost use Rattle.safe_device.specs.Crash.{Elapses, LeavesOnly};
ghost use Rattle.safe_device.specs.Left.{alone};
ghost use Rattle.safe_device.specs.Safe.{IsEither, committed};
ghost use Rattle.pair_transfers.specs.Acts.{Guards, Makes};
ghost use Rattle.pair_transfers.specs.Saving.{HasSaved, IsReady};

use crate::save::{Act, Save, SaveFault};
use crate::unsaved::Unsaved;
use safe_device::page_device::{MAX_PAGES, PAGE_BYTES, Page};
use safe_device::{PageImage, PagePair};

/// No save has more acts: two for each page, and six.
const MOST_ACTS: u32 = 2 * MAX_PAGES + 6;

/// Saves pages that are in memory: each act is made as `Save::next` tells it, and `Save::told` hears how
/// it went. Cut off at any moment, this leaves the pages as they were saved last, with the calls that
/// were noted since, or those that were to be saved and no calls; after its Ok the latter alone.
///
/// # Errors
///
/// A transfer failed, the pages can't be told, or there is no memory. The file is to be opened anew.
pub fn save_over<P: PagePair, S: Unsaved>(
    save: &mut Save,
    pair: &mut P,
    pages: &mut S,
) -> Result<(), SaveFault>
    requires { IsTrue P.is_honest →
        IsReady P.file P.journal P.may_leave (S.saved pages.old) pair.old }
    ensures saved { IsTrue P.is_honest → OnOk result ((content : List (List ℕ)) →
        S.wants pages.old content →
        HasSaved P.file P.journal P.may_leave S.saved S.wants content pair.new pages.new) }
    ensures any_moment { IsTrue P.is_honest → (content : List (List ℕ)) →
        S.wants pages.old content → LeavesOnly P.moment P.left_since pair.old pair.new
        (IsEither (committed P.file P.journal pair.old) (alone content)) }
{
    let _ = pair.pages();
    let calls = pair.calls();
    save.begin(calls > 0);
    let mut bytes = save.room();
    for _ in 0..MOST_ACTS {
        let Some(act) = save.next(pages, &mut bytes)? else {
            return Ok(());
        };
        let is_done = make(pair, &act, bytes.page());
        save.told(pages, &act, is_done)?;
    }
    Err(SaveFault::Pages)
}

/// Makes an act, of a page that is written with these bytes; false where a transfer has failed.
fn make<P: PagePair>(pair: &mut P, act: &Act, bytes: &Page) -> bool
    ensures makes { IsTrue P.is_honest →
        Makes P.file P.journal P.may_leave act.now bytes.now result pair.old pair.new }
    ensures time { Elapses P.moment P.left_since P.may_leave pair.old pair.new }
{
    match act {
        Act::Guard(page) => guard(pair, *page),
        Act::SyncImages => pair.sync_journal().is_ok(),
        Act::Write(page) => pair.store(*page, bytes).is_ok(),
        Act::SyncFile => pair.sync_file().is_ok(),
        Act::End => pair.end_journal().is_ok(),
        Act::SyncEnd => pair.sync_journal().is_ok(),
    }
}

/// Adds the image of a page to the journal.
fn guard<P: PagePair>(pair: &mut P, page: u32) -> bool
    ensures makes { IsTrue P.is_honest →
        Guards P.file P.journal P.may_leave page result pair.old pair.new }
    ensures time { Elapses P.moment P.left_since P.may_leave pair.old pair.new }
{
    let mut bytes = [0; PAGE_BYTES];
    let Ok(()) = pair.load(page, &mut bytes) else {
        return false;
    };
    let count = pair.pages();
    pair.append_images(count, &[PageImage { page, bytes }])
        .is_ok()
}
