//! A seat is stepped until its call does not move.

ghost use Rattle.std.specs.Prelude.{◌≡◌, ◌↔◌, ◌≤◌, IsTrue};
ghost use Rattle.interleaving_core.specs.Counting.{AreSoundCounts, IsCountedSeat, NotesGo};
ghost use Rattle.interleaving_core.specs.Driving.{GoesThrough, HasGoneNowhere, IsDriven, failure_at};
ghost use Rattle.interleaving_core.specs.Owing.{IsMove, IsRun, answer_told};
ghost use Rattle.interleaving_core.specs.Words.{IsSeat};

use crate::active::{decided_by, note_entry};
use crate::counts::SearchCounts;
use crate::fault::{Failure, StepFault};
use crate::kernel::{Kernel, MOST_STEPS};
use crate::step::Step;
use bucket_page::PseudoKey;
use file_pages::FileFault;
use page_device::PageDevice;
use step_rules::Kind;
use xsi_calls::{Gone, QUESTION_STEPS};

/// Nothing was made in one go.
const NOWHERE: Gone = Gone {
    moves: 0,
    fault: None,
};

impl<D: PageDevice + Drop, K: PseudoKey + Drop> Kernel<D, K> {
    /// Steps a seat until its call does not move: it is answered, waits, is blocked, meets a fault,
    /// or there is none. A call that still moves after `MOST_STEPS` fails the kernel. Steps in
    /// whose way nothing stands are made in one go.
    pub fn drive(&mut self, seat: u8) -> Step
        requires { IsSeat self.old.locks seat }
        ensures run { IsRun seat (answer_told result) self.old self.new }
        ensures rests { IsMove result → ⊥ }
        // Each step of it is one of the seat, from where the one before it led.
        ensures driven { IsDriven (K.of_key self.old.keys) seat result self.old self.new }
    {
        self.is_whole();
        let mut moves = 0;
        // A call that begins has to take a name first.
        let mut is_due = false;
        while moves < MOST_STEPS {
            let gone = self.go_ahead(seat, is_due, MOST_STEPS - 1 - moves);
            moves += gone.moves;
            if let Some(fault) = gone.fault {
                return Step::Fault(StepFault::File(fault));
            }
            match self.step(seat) {
                Step::Moved(kind) => {
                    moves += 1;
                    is_due = may_be_due(kind, is_due);
                }
                other => return other,
            }
        }
        self.failure = Some(Failure {
            seat,
            fault: FileFault::Failed,
        });
        Step::Fault(StepFault::File(FileFault::Failed))
    }

    /// What can be made of the seat's call in one go (`go_through`), where something may be due.
    fn go_ahead(&mut self, seat: u8, is_due: bool, most: u32) -> Gone
        requires { IsSeat self.old.locks seat }
        ensures goes { GoesThrough (K.of_key self.old.keys) seat result.moves result.fault
            self.old self.new }
        ensures few { result.moves ≤ most }
    {
        if !is_due {
            return NOWHERE;
        }
        self.go_through(seat, most)
    }

    /// So many steps of the seat's call at most in one go, where it was not told that it waits, as
    /// far as they can be made so (`CallMachine::go_through`). What is left is left to `step`. By a
    /// fault the kernel has failed, as by that of a step.
    fn go_through(&mut self, seat: u8, most: u32) -> Gone
        requires { IsSeat self.old.locks seat }
        ensures goes { GoesThrough (K.of_key self.old.keys) seat result.moves result.fault
            self.old self.new }
        ensures few { result.moves ≤ most }
    {
        if self.failure.is_some() {
            return NOWHERE;
        }
        self.searches.are_sound();
        let place = seat as usize - 1;
        let Some(active) = self.seats[place].under_way() else {
            return NOWHERE;
        };
        if active.wait.is_some() {
            return NOWHERE;
        }
        let decided = decided_by(&active.machine, self.journal.len(), active.decided);
        let gone = active.machine.go_through(
            &mut self.pool,
            &mut self.locks,
            &self.keys,
            self.stopped,
            seat,
            most,
        );
        if has_gone_nowhere(&gone) {
            return gone;
        }
        active.decided = decided;
        note_entry(&active.machine, &mut active.draft, &mut self.journal, seat);
        note_go(&mut self.searches, seat, gone.moves);
        self.failure = failure_at(seat, gone.fault);
        gone
    }
}

/// Whether something of a call may be due that can be made in one go after a step of this kind,
/// where that was thought so before the step or not. Only time hangs on it: `step` makes whatever
/// is not made so. Names come by Grants, and what a call pays begins after its Decide. A question
/// and a write end by a Release; but one that follows a try gives a name back, and nothing is due
/// after it.
fn may_be_due(kind: Kind, is_due: bool) -> bool {
    match kind {
        Kind::Grant | Kind::Decide => true,
        Kind::Release => !is_due,
        _ => false,
    }
}

/// Whether nothing was made.
fn has_gone_nowhere(gone: &Gone) -> bool
    ensures { IsTrue result ↔ HasGoneNowhere gone.now.moves gone.now.fault }
{
    gone.moves == 0 && gone.fault.is_none()
}

/// So many moves of a seat in one go are counted. A search that began by one of them was answered
/// by one, with no step of another seat between.
fn note_go(searches: &mut SearchCounts, seat: u8, moves: u32)
    requires { IsCountedSeat searches.old.counts seat }
    ensures notes { NotesGo seat moves searches.old searches.new }
    ensures sound { AreSoundCounts searches.new }
{
    searches.are_sound();
    if moves < QUESTION_STEPS {
        return;
    }
    searches.note_search(seat);
    searches.are_sound();
}

/// What failed a step of a seat, where one met a fault.
fn failure_at(seat: u8, fault: Option<FileFault>) -> Option<Failure>
    ensures { result ≡ failure_at seat fault }
{
    match fault {
        Some(fault) => Some(Failure { seat, fault }),
        None => None,
    }
}
