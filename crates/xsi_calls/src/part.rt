//! The room of what of a call is under way.

ghost use Rattle.std.specs.Prelude.{◌≡◌, None, Some, false, true};
ghost use Rattle.std.specs.Option.{is_some};
ghost use Rattle.xsi_calls.specs.Parts.{conclusion_under, paying, question_under, tried_under};
ghost use Rattle.xsi_calls.specs.Concluding.{conclusion_by};
ghost use Rattle.call_writes.specs.Payments.{begun_payment, decided};
ghost use Rattle.xsi_calls.specs.Undecided.{untried};

use crate::conclusion::Conclusion;
use crate::question::QuestionPlace;
use crate::trials::TrialsPlace;
use bucket_page::PseudoKey;
use call_writes::{CallWrites, Due, Settled, SweepTurns, decide_at, decided, sweep_of};
use xsi_inquiry::Verdict;

/// What of a call is under way. Each part has an access of its own, and they come one after the
/// other, so they share one room. It stays that of the writes from call to call as long as no step
/// needs another part.
#[derive(Drop)]
pub(crate) enum Part {
    /// A question is asked.
    Asks(QuestionPlace),
    /// Records are inserted on trial, or the plan is written, or its trials are undone.
    Writes(TrialsPlace),
    /// The messages of a queue are swept.
    Sweeps(SweepTurns),
}

impl Part {
    /// Nothing is under way.
    pub(crate) fn new() -> Part
        ensures question { question_under result ≡ None }
        ensures untried { tried_under result ≡ None }
    {
        Part::Writes(TrialsPlace {
            writes: CallWrites::new(),
            on_trial: false,
            conclusion: Conclusion::Waits,
        })
    }

    /// Whether a question is under way.
    pub(crate) fn is_asking(&self) -> bool
        ensures { result ≡ is_some (question_under self.now) }
    {
        match self {
            Part::Asks(question) => question.is_asking(),
            Part::Writes(_) | Part::Sweeps(_) => false,
        }
    }

    /// Whether trials have begun.
    pub(crate) fn is_trying(&self) -> bool
        ensures { result ≡ is_some (tried_under self.now) }
    {
        match self {
            Part::Writes(place) => place.on_trial,
            Part::Asks(_) | Part::Sweeps(_) => false,
        }
    }

    /// What the call has come to, once it has decided. A Remove that sweeps is Done.
    pub(crate) fn conclusion(&self) -> Conclusion
        ensures { result ≡ conclusion_under self.now }
    {
        match self {
            Part::Writes(place) => place.conclusion,
            Part::Sweeps(_) => Conclusion::Answers(Verdict::Done),
            Part::Asks(_) => Conclusion::Waits,
        }
    }

    /// Nothing is asked or tried any more.
    pub(crate) fn rest(&mut self)
        ensures question { question_under self.new ≡ None }
        ensures untried { tried_under self.new ≡ None }
    {
        match self {
            Part::Asks(question) => question.close(),
            Part::Writes(place) => place.on_trial = false,
            Part::Sweeps(_) => {}
        }
    }

    /// The room is that of a question, of the one under way or else of the next one.
    pub(crate) fn make_question(&mut self)
        ensures { self.new ≡ Part.Asks (question_under self.old) }
    {
        if !matches!(self, Part::Asks(_)) {
            *self = Part::Asks(QuestionPlace::new());
        }
    }

    /// Trials begin, in the place of the last writes where these have the room.
    pub(crate) fn begin_trials(&mut self)
        ensures { self.new ≡ Part.Writes (record {
          writes = untried;
          on_trial = true;
          conclusion = conclusion_under self.new;
        }) }
    {
        match self {
            Part::Writes(place) => {
                place.writes.renew();
                place.on_trial = true;
            }
            Part::Asks(_) | Part::Sweeps(_) => {
                *self = Part::Writes(TrialsPlace {
                    writes: CallWrites::new(),
                    on_trial: true,
                    conclusion: Conclusion::Waits,
                });
            }
        }
    }

    /// The payment begins of a call that has come to this; to none where one of its trials had no
    /// room. Of its trials, which rest, this is due.
    pub(crate) fn begin_payment<K: PseudoKey>(
        &mut self,
        settled: Option<Settled>,
        due: Due,
        keys: &K,
    )
        ensures { self.new
            ≡ paying (begun_payment (K.of_key keys.now) settled due) (conclusion_by settled) }
    {
        let Some(sweep) = sweep_of(settled) else {
            self.begin_writes(due, Conclusion::of(settled));
            return;
        };
        if sweep.first.is_none() {
            self.begin_writes(due, Conclusion::of(settled));
            return;
        }
        *self = Part::Sweeps(SweepTurns::begin(sweep, keys));
    }

    /// The payment begins with the writes, in the place of the last ones where these are at rest.
    fn begin_writes(&mut self, due: Due, conclusion: Conclusion)
        ensures { self.new ≡ Part.Writes (record {
          writes = decided due;
          on_trial = false;
          conclusion = conclusion;
        }) }
    {
        if let Part::Writes(place) = self {
            if !place.writes.is_under_way() {
                decide_at(&mut place.writes, due);
                place.on_trial = false;
                place.conclusion = conclusion;
                return;
            }
        }
        *self = Part::Writes(TrialsPlace {
            writes: decided(due),
            on_trial: false,
            conclusion,
        });
    }
}
