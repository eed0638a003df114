//! The machine.

ghost use Rattle.std.specs.Prelude.{◌≡◌, IsOk, IsSome, None, OnErr, OnOk, Some, false};
ghost use Rattle.std.specs.Option.{is_some};
ghost use Rattle.xsi_calls.specs.declared.conclusion.Conclusion.TheVariants.{Waits};
ghost use Rattle.xsi_calls.specs.Words.{CanDecide, IsReady, HasRoom, IsSeat, row_of};
ghost use Rattle.xsi_calls.specs.FileLocks.{HoldsOfFile};
ghost use Rattle.xsi_calls.specs.Parts.{IsToPay, conclusion_under, payment_under, undecided_with};
ghost use Rattle.xsi_calls.specs.Machine.{Begins, IsOver, answer_of_call, call_locks, conclusion_of, finds_of, is_paying, is_searching, is_undecided};
ghost use Rattle.xsi_calls.specs.CallSteps.{ComesTo, HasNoSystem, MakesCall, MakesRelease, is_end};
ghost use Rattle.xsi_calls.specs.QuestionSteps.{is_blocked};
ghost use Rattle.xsi_calls.specs.NameSteps.{GivesBack};

pub(crate) mod one_go;
mod skipping;

use crate::conclusion::Conclusion;
use crate::laws::calls_hold_their_file_locks;
use crate::part::Part;
use crate::phase::Phase;
use crate::questions::Questions;
use crate::trials::TrialsPlace;
use bucket_page::PseudoKey;
use buffer_pool::Pool;
use call_writes::{PlanOf, is_move, unwritten};
use file_pages::FileFault;
use page_device::PageDevice;
use page_locks::LockTable;
use queue_model::{Answer, Call, Caller};
use std::marker::Model;
use std::mem::size_of;
use step_rules::{Kind, Progress};
use xsi_inquiry::{NotASystem, Room, Verdict};

/// A call of a seat as one machine. It is lent pool, lock table, pseudokeys and the stop mark at
/// each step, and owns the room for its answer: no step takes memory.
#[derive(Drop)]
pub struct CallMachine {
    caller: Caller,
    phase: Phase,
    call: Call,
    questions: Questions,
    part: Part,
}

const _: () = prove!(size_of::<CallMachine>() <= 2000);

impl Model for CallMachine {
    ghost use Rattle.xsi_calls.specs.Machine.{CallView};
    ghost use Rattle.xsi_calls.specs.Parts.{IsOneMachine, conclusion_under, payment_under, undecided_with};
    ghost use Rattle.xsi_calls.specs.Stages.{stage_at};

    ghost Value = { CallView };

    ghost view = { λ m. record {
      caller = m.caller;
      call = m.call;
      undecided = undecided_with m.call m.questions m.part;
      stage = stage_at m.phase (payment_under m.part) (conclusion_under m.part);
    } };

    ghost invariant = { λ m. IsOneMachine (record {
      caller = m.caller;
      call = m.call;
      undecided = undecided_with m.call m.questions m.part;
      stage = stage_at m.phase (payment_under m.part) (conclusion_under m.part);
    }) m.phase m.part };
}

impl CallMachine {
    /// A call that begins. The bytes that it is answered have this room, which is all the memory that
    /// it can need.
    pub fn new(caller: Caller, call: Call, room: Room) -> CallMachine
        requires { HasRoom call room }
        ensures begins { Begins caller call result }
        ensures room { result.undecided.questions.room ≡ room }
    {
        let questions = Questions::begin(caller, &call, room);
        CallMachine {
            caller,
            phase: Phase::Undecided,
            call,
            questions,
            part: Part::new(),
        }
    }

    /// Becomes another call, in the place of one that is over. The bytes that it is answered have
    /// this room.
    pub fn renew(&mut self, caller: Caller, call: Call, room: Room)
        requires { HasRoom call room }
        ensures begins { Begins caller call self.new }
        ensures room { self.new.undecided.questions.room ≡ room }
    {
        self.questions.renew(caller, &call, room);
        self.part.rest();
        self.caller = caller;
        self.call = call;
        self.phase = Phase::Undecided;
    }

    /// A call that has waited, and has ended so, begins anew over the same room.
    pub fn begin_again(&mut self)
        requires waits { conclusion_of self.old ≡ Some Waits }
        requires over { IsOver self.old }
        ensures begins { Begins self.old.caller self.old.call self.new }
        ensures room { self.new.undecided.questions.room ≡ self.old.undecided.questions.room }
    {
        self.questions.begin_again(self.caller, &self.call);
        self.part.rest();
        self.phase = Phase::Undecided;
    }

    /// The call.
    pub fn call(&self) -> &Call
        ensures { result.now ≡ self.now.call }
    {
        &self.call
    }

    /// Who makes it.
    pub fn caller(&self) -> Caller
        ensures { result ≡ self.now.caller }
    {
        self.caller
    }

    /// What it has come to, once it has decided.
    pub fn conclusion(&self) -> Option<Conclusion>
        ensures { result ≡ conclusion_of self.now }
    {
        match self.phase {
            Phase::Undecided => None,
            Phase::Paying | Phase::Releasing => Some(self.part.conclusion()),
        }
    }

    /// Whether it has come to something.
    pub fn has_concluded(&self) -> bool
        ensures { result ≡ is_some (conclusion_of self.now) }
    {
        !self.is_undecided()
    }

    /// Whether it has come to an answer.
    pub fn is_answered(&self) -> bool
        ensures { result ≡ is_some (answer_of_call self.now) }
    {
        self.has_concluded() && matches!(self.part.conclusion(), Conclusion::Answers(_))
    }

    /// The searches that it has begun before its Decide since it last began, those of its trials
    /// too: the steps by which its seat was granted the directory to read. Of a Receive they are at
    /// most three; `u32::MAX` stands for more.
    pub fn finds(&self) -> u32
        ensures { result ≡ finds_of self.now }
    {
        self.questions.finds()
    }

    /// Whether a search of it is under way: the directory was granted to it, to read, and no page has
    /// answered it.
    pub fn is_searching(&self) -> bool
        ensures { result ≡ is_searching self.now }
    {
        match (&self.phase, &self.part) {
            (Phase::Undecided, Part::Asks(place)) => {
                place.is_asking() && place.question.access.is_searching()
            }
            (Phase::Undecided, Part::Writes(place)) => {
                place.on_trial && place.writes.is_searching()
            }
            (Phase::Paying, Part::Writes(place)) => place.writes.is_searching(),
            (Phase::Paying, Part::Sweeps(sweep)) => sweep.is_searching(),
            (_, _) => false,
        }
    }

    /// Of the file it holds exactly the locks that its place asks for: its names are none of them.
    pub fn holds_of_file(&self)
        ensures { HoldsOfFile self.now }
    {
        self.questions.keep_order();
        calls_hold_their_file_locks();
    }

    /// The answer, into which its room and its call's memory go; none where it has come to none.
    /// What stays is only there for the next call to begin in its place.
    pub fn take_answer(&mut self) -> Option<Answer>
        ensures answer { result ≡ answer_of_call self.old }
        ensures kept { result ≡ None → self.new ≡ self.old }
        ensures stays { IsSome result → IsSome (answer_of_call self.new) }
    {
        let Some(Conclusion::Answers(verdict)) = self.conclusion() else {
            return None;
        };
        self.call = Call::Remove { id: 0 };
        Some(verdict.answer_in(self.questions.take_room()))
    }

    /// The answer, with a copy of its bytes in other room for as many; none where it has come to
    /// none. No memory is taken.
    pub fn answer_in(&self, other: Room) -> Option<Answer>
        requires { other.most ≡ self.now.undecided.questions.room.most }
        ensures { result ≡ answer_of_call self.now }
    {
        match self.conclusion() {
            Some(conclusion) => { conclusion.answer_in(self.questions.room().copied_to(other)) }
            None => None,
        }
    }

    /// One step: of what it asks and tries, then its Decide, then of what it owes, and last a name
    /// that is given back. It owes the sweep, or else the writes, which begin in the step after that
    /// by which the sweep has ended. A sweep that has failed is refused as `Failed`, and nothing is
    /// written after it. Behind the last write a name is given back in the same step. It has ended
    /// where nothing is owed and no name is held. It stands in whoever steps the call.
    #[inline(always)]
    pub fn step<D: PageDevice, K: PseudoKey>(
        &mut self,
        pool: &mut Pool<D>,
        locks: &mut LockTable,
        keys: &K,
        stopped: bool,
        seat: u8,
    ) -> Progress<FileFault>
        requires seat { IsSeat locks.old seat }
        requires ready { IsReady pool.old }
        requires row { row_of locks.old seat ≡ call_locks self.old }
        ensures { MakesCall (K.of_key keys.now) seat stopped result self.old self.new
            pool.old pool.new locks.old locks.new }
    {
        if self.is_undecided() {
            if self.part.is_asking() {
                return match &mut self.part {
                    Part::Asks(question) => {
                        self.questions
                            .go_on(question, pool, locks, keys, seat, &self.call)
                    }
                    Part::Writes(_) | Part::Sweeps(_) => unreachable!(),
                };
            }
            if !self.part.is_trying() && !self.questions.has_asked(&self.call) {
                if let Some(did) = self
                    .questions
                    .turn(&mut self.part, locks, keys, seat, &self.call)
                {
                    return did;
                }
                // The question that has begun makes its first step.
                return match &mut self.part {
                    Part::Asks(question) => {
                        let did = self
                            .questions
                            .go_on(question, pool, locks, keys, seat, &self.call);
                        if is_blocked(did) {
                            question.close();
                            return did;
                        }
                        did
                    }
                    Part::Writes(_) | Part::Sweeps(_) => unreachable!(),
                };
            }
            let Ok(tries) = self.part.begin_first(&self.questions, &self.call) else {
                return Progress::Fault(FileFault::Failed);
            };
            let did = if tries {
                self.questions.keep_order();
                let plan = PlanOf::new(&self.call, self.questions.inquiry());
                let did = match &mut self.part {
                    Part::Writes(place) => place.writes.step(&plan, pool, locks, keys, seat),
                    Part::Asks(_) | Part::Sweeps(_) => unreachable!(),
                };
                self.questions.count(did, locks, seat);
                did
            } else {
                Progress::Ended
            };
            if !is_end(did) {
                return did;
            }
            self.questions.keep_order();
            let Ok(()) = decide(&self.questions, &mut self.part, &self.call, keys, stopped) else {
                return Progress::Fault(FileFault::Failed);
            };
            self.phase = Phase::Paying;
            return Progress::Moved(Kind::Decide);
        }
        if self.is_paying() {
            self.questions.keep_order();
            let plan = PlanOf::new(&self.call, self.questions.inquiry());
            match &mut self.part {
                Part::Asks(_) => unreachable!(),
                Part::Sweeps(sweep) => {
                    if sweep.is_over() {
                        return Progress::Fault(FileFault::Failed);
                    }
                    let did = sweep.step(pool, locks, keys, seat);
                    if !is_move(did) {
                        return did;
                    }
                    if !sweep.is_over() {
                        return did;
                    }
                    self.part = Part::Writes(TrialsPlace {
                        writes: unwritten(),
                        on_trial: false,
                        conclusion: Conclusion::Answers(Verdict::Done),
                    });
                    return did;
                }
                Part::Writes(place) => {
                    let did = place.writes.step(&plan, pool, locks, keys, seat);
                    if !is_end(did) {
                        return did;
                    }
                }
            }
            self.phase = Phase::Releasing;
            return self.release(locks, seat);
        }
        self.release(locks, seat)
    }

    /// Whether it has not decided.
    fn is_undecided(&self) -> bool
        ensures { result ≡ is_undecided self.now.stage }
    {
        matches!(self.phase, Phase::Undecided)
    }

    /// Whether it pays.
    fn is_paying(&self) -> bool
        ensures { result ≡ is_paying self.now.stage }
    {
        matches!(self.phase, Phase::Paying)
    }

    /// The name that was taken last is given back.
    fn release(&mut self, locks: &mut LockTable, seat: u8) -> Progress<FileFault>
        requires seat { IsSeat locks.old seat }
        requires row { row_of locks.old seat ≡ call_locks self.old }
        requires undecided { is_undecided self.old.stage ≡ false }
        requires paid { is_paying self.old.stage ≡ false }
        ensures steps { MakesRelease seat result self.old self.new locks.old locks.new }
        ensures gives { GivesBack result self.old.undecided.questions.names
            self.new.undecided.questions.names }
    {
        self.questions.give_back(locks, seat)
    }
}

/// What a call comes to that has asked and tried all, and what it pays from then on. It stands apart,
/// since each step would make room for what it alone needs.
#[inline(never)]
fn decide<K: PseudoKey>(
    questions: &Questions,
    part: &mut Part,
    call: &Call,
    keys: &K,
    stopped: bool,
) -> Result<(), NotASystem>
    requires { CanDecide call.now (undecided_with call.now questions.now part.old) }
    ensures comes { OnOk result (ComesTo (K.of_key keys.now) call.now stopped
        (conclusion_under part.new) (undecided_with call.now questions.now part.old)
        (undecided_with call.now questions.now part.new) (payment_under part.new)) }
    ensures fails { OnErr result (HasNoSystem (K.of_key keys.now) call.now stopped
        (undecided_with call.now questions.now part.old)
        (undecided_with call.now questions.now part.new)) }
    ensures pays { IsOk result → IsToPay part.new }
{
    let decided = part.decide(questions, call, stopped)?;
    part.begin_payment(decided.settled, decided.due, keys);
    Ok(())
}

/// Whether it has ended.
fn is_end(did: Progress<FileFault>) -> bool
    ensures { result ≡ is_end did }
{
    matches!(did, Progress::Ended)
}

/// Whether another seat stood in the way.
fn is_blocked(did: Progress<FileFault>) -> bool
    ensures { result ≡ is_blocked did }
{
    matches!(did, Progress::Blocked(_))
}
