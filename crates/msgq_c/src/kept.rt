//! A session, who makes its calls, and what is noted of them.

ghost use Rattle.std.specs.Prelude.{OnOk, [], ◌||◌, ◌≡◌};
ghost use Rattle.call_entries.specs.Log.{Ends};
ghost use Rattle.msgq_c.specs.Keeping.{CopiesNotes, IsSaved, Makes, MakesAgain, MakesAll, answer_of, lacks_room, noted};

use call_entries::{CallEntry, CallLog, CallReader, Unreadable, check_of};
use pair_transfers::{Noting, Transfers};
use session::queue_model::{Answer, Call, Caller};
use session::{Session, Unanswered};
use std::alloc::Global;

/// A session, and who makes its calls.
#[derive(Drop)]
pub struct Kept {
    pub(crate) session: Session,
    pub(crate) caller: Caller,
    /// The calls that neither the pages that were saved have, nor the journal.
    pub(crate) log: CallLog,
    /// A call lacked room since the pages were saved. It is not noted, and what it inserted on trial
    /// may have left the pages otherwise than calls that are made again find them.
    pub(crate) lacked_room: bool,
    /// A save of its pages, transfer by transfer.
    pub(crate) transfers: Transfers,
    /// A note of its calls, transfer by transfer.
    pub(crate) noting: Noting,
}

/// Why calls are not made again.
#[derive(Clone, Copy)]
pub(crate) enum Unmade {
    /// They do not lead on from the pages.
    Foreign,
    /// There is no memory.
    NoMemory,
}

impl Kept {
    /// Makes a call as the rules of queues say (docs/QUEUES.md, "Calls"), and writes it down where it
    /// may have changed the system. It is lent, and its result told, as by `serve`.
    #[inline(always)]
    pub(crate) fn call(&mut self, call: &mut Call) -> Result<Answer, Unanswered>
        ensures { Makes call.old result self.old self.new }
    {
        self.log.begin(self.caller, call);
        let result = self.session.call_as(self.caller, call);
        end_with(&mut self.log, &result);
        self.lacked_room = has_lacked_room(self.lacked_room, &result);
        result
    }

    /// Makes the calls again of an addition to the journal. Each has to be answered as it was.
    pub(crate) fn make_all(&mut self, alloc: Global, calls: &[u8]) -> Result<(), Unmade>
        ensures { OnOk result (MakesAll calls.now [] self.old self.new) }
    {
        let mut reader = CallReader::new(calls);
        for _ in 0..calls.len() {
            let next = match reader.next(alloc) {
                Ok(next) => next,
                Err(Unreadable::NoEntry) => return Err(Unmade::Foreign),
                Err(Unreadable::NoMemory) => return Err(Unmade::NoMemory),
            };
            let Some(entry) = next else {
                return Ok(());
            };
            self.make_again(entry)?;
        }
        // (each has some bytes, so none is left)
        match reader.next(alloc) {
            Ok(None) => Ok(()),
            _ => Err(Unmade::Foreign),
        }
    }

    /// Makes the call of an entry, whose answer has to be as the entry says.
    fn make_again(&mut self, entry: CallEntry) -> Result<(), Unmade>
        ensures { OnOk result (MakesAgain entry self.old self.new) }
    {
        let CallEntry {
            caller,
            call,
            check,
        } = entry;
        let mut call = call;
        let answer = match self.session.call_as(caller, &mut call) {
            Ok(answer) => answer,
            Err(Unanswered::NoMemory) => return Err(Unmade::NoMemory),
            Err(_) => return Err(Unmade::Foreign),
        };
        if check_of(&answer) != check {
            return Err(Unmade::Foreign);
        }
        Ok(())
    }

    /// Copies the entries of the calls that are to be noted, and tells how many bytes they have; nothing
    /// where the pages are to be saved instead: an entry was left out, a call lacked room, or there is no
    /// room here.
    pub(crate) fn copy_notes(&self, into: &mut [u8]) -> Option<usize>
        ensures { CopiesNotes into.new result self.now }
    {
        let entries = self.log.as_slice();
        let many = entries.len();
        if !self.log.is_whole() || into.len() < many {
            return None;
        }
        if many > 0 && self.lacked_room {
            return None;
        }
        into[..many].copy_from_slice(entries);
        Some(many)
    }

    /// They stand in the journal.
    pub(crate) fn end_notes(&mut self)
        ensures { self.new ≡ noted self.old }
    {
        self.log.clear();
    }

    /// The pages were saved, and the journal ended. False where the file has failed.
    pub(crate) fn end_save(&mut self) -> bool
        ensures { IsSaved result self.old self.new }
    {
        if !self.session.note_saved() {
            return false;
        }
        self.log.clear();
        self.lacked_room = false;
        true
    }
}

/// Writes down what came of the call that was begun last.
#[inline(always)]
fn end_with(log: &mut CallLog, came: &Result<Answer, Unanswered>)
    ensures { Ends (answer_of came.now) log.old log.new }
{
    match came {
        Ok(answer) => log.end(answer),
        Err(_) => log.take_back(),
    }
}

/// Whether a call lacked room before, or this one did.
fn has_lacked_room(before: bool, came: &Result<Answer, Unanswered>) -> bool
    ensures { result ≡ (before || lacks_room came.now) }
{
    before || matches!(came, Err(Unanswered::NoRoom))
}
