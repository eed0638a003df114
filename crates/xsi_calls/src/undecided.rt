//! A call up to its Decide.

ghost use Rattle.std.specs.Prelude.{◌≡◌, ℕ, IfOk, None, true};
ghost use Rattle.xsi_inquiry.specs.Telling.{Gives};
ghost use Rattle.xsi_calls.specs.UndecidedWords.{Change, PoolState, RecordKey, Records, State, Table, is_done};
ghost use Rattle.xsi_calls.specs.Undecided.{CanDecide, trials_of};
ghost use Rattle.xsi_calls.specs.Beginning.{GoesOnTrying};
ghost use Rattle.xsi_calls.specs.Knowing.{IsUndecided};
ghost use Rattle.xsi_calls.specs.Parts.{asked_with, question_under, tried_in, tried_under, undecided_with};
ghost use Rattle.xsi_calls.specs.Deciding.{IsDecided};
ghost use Rattle.call_writes.specs.Views.{is_full};

use crate::decided::Decided;
use crate::part::Part;
use crate::questions::Questions;
use crate::trials::TrialsPlace;
use call_writes::{Due, Settled, decide};
use queue_model::Call;
use xsi_inquiry::{Inquiry, NotASystem};

impl Part {
    /// Whether trials are under way: once all is asked the first one begins where the call inserts on
    /// trial. Else it can decide.
    pub(crate) fn begin_first(
        &mut self,
        questions: &Questions,
        call: &Call,
    ) -> Result<bool, NotASystem>
        requires asked { tried_under self.old ≡ None →
            is_done call.now (asked_with questions.now (question_under self.old)) ≡ true }
        ensures { GoesOnTrying call.now questions.now result self.old self.new }
    {
        if self.is_trying() {
            return Ok(true);
        }
        if !questions.inquiry().inserts(call) {
            return Ok(false);
        }
        questions.keep_order();
        let Ok(_decision) = decide(call, questions.inquiry()) else {
            return Err(NotASystem);
        };
        self.begin_trials();
        Ok(true)
    }

    /// The decision, at the call's Decide, once a step has ended: by what it was told, and by the
    /// stop mark. After an error it has told what no system has.
    pub(crate) fn decide(
        &mut self,
        questions: &Questions,
        call: &Call,
        stopped: bool,
    ) -> Result<Decided, NotASystem>
        requires { CanDecide call.now (undecided_with call.now questions.now self.old) }
        // whatever the device gives
        ensures question { question_under self.new ≡ question_under self.old }
        ensures untried { tried_under self.new ≡ None }
        ensures due { IfOk result (λ decided.
            decided.due ≡ (trials_of (undecided_with call.now questions.now self.old)).due) }
        // on an honest device, in a sound world
        ensures decided { (hash : RecordKey → ℕ) (seat : ℕ) (s : State) (records : Records)
            (pool : PoolState) (locks : Table) (change : Change) →
            IsUndecided hash seat call.now s (undecided_with call.now questions.now self.old)
            records pool locks change → s.stopped ≡ stopped → Gives result (λ decided. IsDecided
            hash seat call.now s (undecided_with call.now questions.now self.old) decided records
            pool locks change) }
    {
        questions.keep_order();
        let (due, is_full) = self.trials_due();
        self.rest();
        if is_full {
            return Ok(Decided { settled: None, due });
        }
        if questions.inquiry().wants(call).is_some() {
            return Err(NotASystem);
        }
        let decision = decide(call, questions.inquiry())?;
        Ok(Decided {
            settled: Some(Settled::of(decision, stopped)),
            due,
        })
    }

    /// What of the trials is due, and whether one of them has no room.
    fn trials_due(&self) -> (Due, bool)
        ensures due { result.0 ≡ (tried_in (tried_under self.now)).due }
        ensures full { result.1 ≡ is_full (tried_in (tried_under self.now)) }
    {
        match self {
            Part::Writes(
                TrialsPlace {
                    writes,
                    on_trial: true,
                    ..
                },
            ) => (writes.due(), writes.is_full()),
            Part::Asks(_) | Part::Writes(_) | Part::Sweeps(_) => (Due::Trying(0), false),
        }
    }
}
