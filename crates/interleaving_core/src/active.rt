//! A call under way at a seat, and what is kept for its entry in the journal.

ghost use Rattle.std.specs.Prelude.{◌≡◌, ◌↔◌, ◌+◌, ◌≤◌, ◌++◌, IfErr, IfOk, IfSome, IsSome, IsTrue, None, Some, length, false, true, vec_capacity};
ghost use Rattle.std.specs.Option.{is_some};
ghost use Rattle.xsi_calls.specs.Machine.{IsNew, IsOver, answer_of_call, call_locks, conclusion_of};
ghost use Rattle.interleaving_core.specs.Active.{BeginsAgain, HasBegun, HasRoomAs, decided_by, draft_by, drafted, entries_by, is_waiting, told_at_end};
ghost use Rattle.interleaving_core.specs.Renewing.{IsWaiting, outlasting};
ghost use Rattle.interleaving_core.specs.Turn.{GoesAnew};
ghost use Rattle.interleaving_core.specs.Waiting.{stays_waiting};
ghost use Rattle.interleaving_core.specs.Words.{IsReady, IsSeat, row_of};

use crate::fault::StepFault;
use crate::step::Step;
use crate::waiting::is_woken;
use bucket_page::PseudoKey;
use buffer_pool::Pool;
use page_device::PageDevice;
use page_locks::LockTable;
use queue_model::{Call, Caller, Entry, NoMemory};
use std::alloc::Global;
use std::marker::Model;
use xsi_calls::{CallMachine, Conclusion};
use xsi_inquiry::Room;

/// What is kept for the entry of a call that is not answered yet: a copy of the call, and room for a
/// copy of the bytes of its answer.
#[derive(Drop)]
pub(crate) struct Draft {
    pub(crate) call: Call,
    pub(crate) room: Room,
}

impl Draft {
    /// That of a call of which the answer has this room. It stands in whoever begins one, since a draft is
    /// large, and would else be moved through memory.
    #[inline(always)]
    fn of(call: &Call, room: &Room) -> Result<Draft, NoMemory>
        ensures call { IfOk result (λ d. d.call ≡ call.now) }
        ensures room { IfOk result (λ d. d.room.most ≡ room.now.most) }
    {
        Ok(Draft {
            call: call.try_copy()?,
            room: room.try_twin()?,
        })
    }
}

/// A call under way at a seat. What is kept for its entry joins the journal at its Decide.
#[derive(Drop)]
pub(crate) struct Active {
    pub(crate) machine: CallMachine,
    pub(crate) draft: Option<Draft>,
    begun: usize,
    pub(crate) decided: usize,
    pub(crate) wait: Option<usize>,
}

impl Model for Active {
    ghost use Rattle.interleaving_core.specs.Active.{ActiveView, IsKept};

    ghost Value = { ActiveView };

    ghost view = { λ a. record {
      machine = a.machine;
      draft = a.draft;
      begun = a.begun;
      decided = a.decided;
      wait = a.wait;
    } };

    ghost invariant = { λ a. IsKept a.machine a.draft a.wait };
}

impl Active {
    /// A call of a caller begins while the journal has so many entries. All memory that it and its
    /// entry can need is taken here. Where there is none the call comes back whole.
    pub(crate) fn begin(
        alloc: Global,
        caller: Caller,
        call: Call,
        many: usize,
    ) -> Result<Active, Call>
        ensures ok { IfOk result (HasBegun caller call many) }
        ensures err { IfErr result (λ back. back ≡ call) }
    {
        let Ok(room) = Room::new(alloc, &call) else {
            return Err(call);
        };
        let Ok(draft) = Draft::of(&call, &room) else {
            return Err(call);
        };
        Ok(Active {
            machine: CallMachine::new(caller, call, room),
            draft: Some(draft),
            begun: many,
            decided: many,
            wait: None,
        })
    }

    /// Another call of a caller begins in the place of one that is over, as `begin` says.
    pub(crate) fn renew(
        &mut self,
        alloc: Global,
        caller: Caller,
        call: Call,
        many: usize,
    ) -> Result<(), Call>
        ensures ok { IfOk result (λ _. HasBegun caller call many self.new) }
        ensures err { IfErr result (λ back. back ≡ call) }
    {
        let Ok(room) = Room::new(alloc, &call) else {
            return Err(call);
        };
        let Ok(draft) = Draft::of(&call, &room) else {
            return Err(call);
        };
        // The draft goes to its place before the call does, so that not both are moved at once.
        self.draft = Some(draft);
        self.begun = many;
        self.decided = many;
        self.wait = None;
        self.machine.renew(caller, call, room);
        Ok(())
    }

    /// Whether its seat was told that it waits, and nothing has woken it since. Then it need not look
    /// at these entries again. It stands in whoever steps the seat, since few calls wait.
    #[inline(always)]
    pub(crate) fn stays_waiting(&mut self, journal: &[Entry]) -> bool
        ensures is { result ≡ stays_waiting self.old.wait self.old.machine.call journal.now }
        ensures waits { result ≡ true →
            self.new ≡ record self.old { wait = Some (length journal.now) } }
        ensures goes { result ≡ false → self.new ≡ self.old }
    {
        let Some(since) = self.wait else {
            return false;
        };
        if is_woken(self.machine.call(), since, journal) {
            return false;
        }
        self.wait = Some(journal.len());
        true
    }

    /// The entries that are due for it.
    pub(crate) fn due(&self) -> usize
        ensures { result ≡ drafted self.now.draft }
    {
        match &self.draft {
            Some(_) => 1,
            None => 0,
        }
    }

    /// Whether its call will wait.
    pub(crate) fn waits(&self) -> bool
        ensures { result ≡ is_waiting (conclusion_of self.now.machine) }
    {
        matches!(self.machine.conclusion(), Some(Conclusion::Waits))
    }

    /// Once its seat was told that it waits, it has begun anew.
    pub(crate) fn is_new_while_waiting(&self)
        ensures { IsSome self.now.wait → IsNew self.now.machine }
    {
        let _ = &self.wait;
    }

    /// Whether its seat was told that it waits.
    pub(crate) fn is_waiting(&self) -> bool
        ensures { IsTrue result ↔ IsWaiting self.now }
    {
        self.is_new_while_waiting();
        self.wait.is_some()
    }

    /// The journal is taken out. Where nothing of it wakes the call, it waits on beside an empty one.
    pub(crate) fn outlast(&mut self, journal: &[Entry])
        ensures { self.new ≡ outlasting journal.now self.old }
    {
        let waits = self.stays_waiting(journal);
        self.begun = 0;
        self.decided = 0;
        self.wait = waits.then_some(0);
    }

    /// Whether it has come to an answer.
    pub(crate) fn is_answered(&self) -> bool
        ensures { result ≡ is_some (answer_of_call self.now.machine) }
    {
        self.machine.is_answered()
    }

    /// Its call, which has no answer yet: the copy that was kept for its entry.
    pub(crate) fn into_call(self) -> Call
        requires { answer_of_call self.machine ≡ None }
        ensures { result ≡ self.machine.call }
    {
        let Active {
            machine: _,
            draft,
            begun: _,
            decided: _,
            wait: _,
        } = self;
        draft.unwrap().call
    }

    /// The call that will wait, and has given its names back, begins anew. Where an entry since its
    /// Decide wakes it, its first step is made now, and else once one does. It stands apart, since
    /// each step would make room for what it alone needs.
    #[inline(never)]
    pub(crate) fn turn_anew<D: PageDevice, K: PseudoKey>(
        &mut self,
        pool: &mut Pool<D>,
        locks: &mut LockTable,
        keys: &K,
        journal: &mut Vec<Entry>,
        stopped: bool,
        seat: u8,
    ) -> Step
        requires waits { is_waiting (conclusion_of self.old.machine) ≡ true }
        requires over { IsOver self.old.machine }
        requires seat { IsSeat locks.old seat }
        requires ready { IsReady pool.old }
        requires row { row_of locks.old seat ≡ call_locks self.old.machine }
        requires room { drafted self.old.draft + length journal.old.items
            ≤ vec_capacity journal.old }
        ensures anew { GoesAnew (K.of_key keys.now) seat stopped result self.old self.new
            pool.old pool.new locks.old locks.new journal.old.items journal.new.items }
        ensures capacity { vec_capacity journal.old ≤ vec_capacity journal.new }
    {
        self.begin_again();
        if self.stays_waiting(journal.as_slice()) {
            return Step::Waiting;
        }
        self.decided = decided_by(&self.machine, journal.len(), self.decided);
        self.wait = None;
        let did = self.machine.step(pool, locks, keys, stopped, seat);
        note_entry(&self.machine, &mut self.draft, journal, seat);
        // A call that has begun has not ended.
        Step::of(did).unwrap()
    }

    /// The call that will wait, and has given its names back, is to begin anew, once an entry since
    /// its Decide wakes it.
    fn begin_again(&mut self)
        requires waits { is_waiting (conclusion_of self.old.machine) ≡ true }
        requires over { IsOver self.old.machine }
        ensures { BeginsAgain self.old self.new }
    {
        self.machine.begin_again();
        self.wait = Some(self.decided);
    }

    /// What its seat is told of a call that is over, and does not wait. What stays is only there for
    /// the next call to begin in its place.
    pub(crate) fn end(&mut self) -> Step
        ensures { result ≡ told_at_end (answer_of_call self.old.machine) }
    {
        match self.machine.take_answer() {
            Some(answer) => Step::Answered(answer),
            None => Step::Fault(StepFault::NoRoom),
        }
    }
}

/// How long the journal was at the Decide of a call; before that, how long it is.
pub(crate) fn decided_by(machine: &CallMachine, many: usize, decided: usize) -> usize
    ensures { result ≡ decided_by (conclusion_of machine.now) many decided }
{
    if machine.has_concluded() {
        decided
    } else {
        many
    }
}

/// The entry of a call that has come to an answer joins the journal, where it has not yet.
#[inline(always)]
pub(crate) fn note_entry(
    machine: &CallMachine,
    draft: &mut Option<Draft>,
    journal: &mut Vec<Entry>,
    seat: u8,
)
    requires fits { IfSome draft.old (λ d. HasRoomAs d.room machine.now) }
    requires room { drafted draft.old + length journal.old.items ≤ vec_capacity journal.old }
    ensures journal { journal.new.items ≡ journal.old.items ++
        entries_by seat (answer_of_call machine.now) draft.old }
    ensures draft { draft.new ≡ draft_by (answer_of_call machine.now) draft.old }
    ensures capacity { vec_capacity journal.old ≤ vec_capacity journal.new }
{
    if !machine.is_answered() {
        return;
    }
    if draft.is_none() {
        return;
    }
    join(machine, draft, journal, seat);
}

/// The entry of a call that has come to an answer joins the journal. It stands apart, since each step
/// would make room for an entry.
#[inline(never)]
fn join(machine: &CallMachine, draft: &mut Option<Draft>, journal: &mut Vec<Entry>, seat: u8)
    requires answered { IsSome (answer_of_call machine.now) }
    requires fits { IfSome draft.old (λ d. HasRoomAs d.room machine.now) }
    requires room { drafted draft.old + length journal.old.items ≤ vec_capacity journal.old }
    ensures journal { journal.new.items ≡ journal.old.items ++
        entries_by seat (answer_of_call machine.now) draft.old }
    ensures draft { draft.new ≡ draft_by (answer_of_call machine.now) draft.old }
    ensures capacity { vec_capacity journal.old ≤ vec_capacity journal.new }
{
    let Some(kept) = draft.take() else {
        return;
    };
    let Some(answer) = machine.answer_in(kept.room) else {
        return;
    };
    let entry = Entry::Decided {
        seat,
        call: kept.call,
        answer,
    };
    journal.push(entry).unwrap();
}
