//! The call that asks.

ghost use Rattle.std.specs.Prelude.{◌≡◌, ◌≤◌, ◌↔◌, [], None, false, true, IfNone, IfSome, IsSome, IsTrue};
ghost use Rattle.xsi_calls.specs.NameSteps.{GivesBack, MakesNameStep};
ghost use Rattle.xsi_inquiry.specs.Rooms.{HasRoom};
ghost use Rattle.xsi_inquiry.specs.Telling.{most_asked};
ghost use Rattle.xsi_calls.specs.QuestionWords.{AreNames, IsReady, IsSeat, PoolState, State, caller_of, left_of, row_of, with_row};
ghost use Rattle.xsi_calls.specs.Answering.{key_asked};
ghost use Rattle.xsi_calls.specs.Counting.{finds_behind};
ghost use Rattle.xsi_calls.specs.Parts.{asked_with, question_under, tried_under};
ghost use Rattle.xsi_calls.specs.Questions.{IsBare, KnowsNear, changes, has_asked, is_done, is_ready, questions_locks};
ghost use Rattle.xsi_calls.specs.QuestionSteps.{BeginsNext, MakesQuestions};

mod skipping;

use crate::counting::finds_behind;
use crate::held_names::HeldNames;
use crate::part::Part;
use crate::question::{QuestionPlace, goes_on, listen};
use crate::turn::NameTurn;
use bucket_page::{PseudoKey, RecordKey};
use buffer_pool::Pool;
use call_writes::AnyInquiry;
use file_pages::FileFault;
use page_device::PageDevice;
use page_locks::LockTable;
use queue_model::{Call, Caller};
use queue_records::counter_key;
use step_rules::Progress;
use xsi_inquiry::{Inquiry, Room, Wanted};

/// A call's reading half: what it asks of the file, under the names that it takes for that. It is
/// lent the room of the question that is under way.
#[derive(Drop)]
pub(crate) struct Questions {
    inquiry: AnyInquiry,
    room: Room,
    names: HeldNames,
    finds: u32,
}

impl Questions {
    /// Those of a call that begins. The bytes that it is answered have this room.
    pub(crate) fn begin(by: Caller, call: &Call, room: Room) -> Questions
        ensures caller { caller_of result.inquiry ≡ by }
        ensures few { left_of call.now result.inquiry ≤ most_asked call.now }
        ensures finds { result.finds ≡ 0 }
        ensures bare { IsBare (asked_with result None) }
        ensures room { result.room ≡ room }
        ensures knows { (s : State) → HasRoom call.now room →
            KnowsNear call.now (asked_with result None) s }
    {
        Questions {
            inquiry: AnyInquiry::begin(by, call),
            room,
            names: HeldNames::new(),
            finds: 0,
        }
    }

    /// A call that has waited begins anew, over the same room. It holds no name.
    #[inline(always)]
    pub(crate) fn begin_again(&mut self, by: Caller, call: &Call)
        requires { IsBare (asked_with self.old None) }
        ensures caller { caller_of self.new.inquiry ≡ by }
        ensures few { left_of call.now self.new.inquiry ≤ most_asked call.now }
        ensures finds { self.new.finds ≡ 0 }
        ensures bare { IsBare (asked_with self.new None) }
        ensures room { self.new.room ≡ self.old.room }
        ensures knows { (s : State) → HasRoom call.now self.old.room →
            KnowsNear call.now (asked_with self.new None) s }
    {
        self.inquiry.begin_anew(by, call);
        self.finds = 0;
    }

    /// Become those of another call, in the place of one that is over. The bytes that it is answered
    /// have this room.
    pub(crate) fn renew(&mut self, by: Caller, call: &Call, room: Room)
        ensures caller { caller_of self.new.inquiry ≡ by }
        ensures few { left_of call.now self.new.inquiry ≤ most_asked call.now }
        ensures finds { self.new.finds ≡ 0 }
        ensures bare { IsBare (asked_with self.new None) }
        ensures room { self.new.room ≡ room }
        ensures knows { (s : State) → HasRoom call.now room →
            KnowsNear call.now (asked_with self.new None) s }
    {
        self.room = room;
        self.names = HeldNames::new();
        self.begin_again(by, call);
    }

    /// The inquiry, which is asked to decide once all is asked.
    pub(crate) fn inquiry(&self) -> &AnyInquiry
        ensures { result.now ≡ self.now.inquiry }
    {
        &self.inquiry
    }

    /// The searches that its call has begun since it last began: those of its questions, one a
    /// question, and what was counted beside them.
    pub(crate) fn finds(&self) -> u32
        ensures { result ≡ self.now.finds }
    {
        self.finds
    }

    /// Counts a search of the call beside its questions, where one has begun by this step.
    pub(crate) fn count(&mut self, step: Progress<FileFault>, locks: &LockTable, seat: u8)
        requires { IsSeat locks.now seat }
        ensures { self.new ≡ record self.old {
          finds = finds_behind step (row_of locks.now seat) self.old.finds;
        } }
    {
        self.finds = finds_behind(step, locks, seat, self.finds);
    }

    /// The room for the bytes that the call is answered.
    pub(crate) fn room(&self) -> &Room
        ensures { result.now ≡ self.now.room }
    {
        &self.room
    }

    /// The room moves out, for the answer. What stays has room for no byte.
    pub(crate) fn take_room(&mut self) -> Room
        ensures room { result ≡ self.old.room }
        ensures others { self.new ≡ record self.old { room = self.new.room } }
    {
        self.room.take()
    }

    /// Its names stand in order, each once and at most three, none of them the directory or a page.
    pub(crate) fn keep_order(&self)
        ensures { AreNames self.now.names }
    {
        self.names.keep_order();
    }

    /// Whether nothing is left to ask, and what is inserted on trial or written stands under names
    /// that are held.
    pub(crate) fn is_done(&self, part: &Part, call: &Call) -> bool
        ensures { result ≡ is_done call.now (asked_with self.now (question_under part.now)) }
    {
        if part.is_asking() {
            return false;
        }
        self.has_asked(call)
    }

    /// Whether the inquiry asks nothing more, and the names are there where it changes the file. It
    /// stands in whoever asks, since mostly few comparisons tell it.
    #[inline(always)]
    pub(crate) fn has_asked(&self, call: &Call) -> bool
        ensures { result ≡ has_asked call.now (asked_with self.now None) }
    {
        if self.inquiry.wants(call).is_some() {
            return false;
        }
        // Mostly the names are there, which is told by one comparison, and what is written is not
        // looked at.
        if is_ready(self.names.turn(call, &self.inquiry)) {
            return true;
        }
        !self.changes(call)
    }

    /// Whether it inserts on trial or writes something where its inquiry has come. It stands apart,
    /// since it is seldom asked, and makes room for a write.
    #[inline(never)]
    fn changes(&self, call: &Call) -> bool
        ensures { result ≡ changes call.now self.now.inquiry }
    {
        if self.inquiry.inserts(call) {
            return true;
        }
        match self.inquiry.next_write(call, 0) {
            None => false,
            Some(_) => true,
        }
    }

    /// Whether no name is held.
    pub(crate) fn holds_none(&self) -> bool
        ensures { IsTrue result ↔ (self.now.names ≡ []) }
    {
        self.names.is_empty()
    }

    /// One step after the call's last write: the name that was taken last is given back.
    pub(crate) fn give_back(&mut self, locks: &mut LockTable, seat: u8) -> Progress<FileFault>
        requires seat { IsSeat locks.old seat }
        requires row { row_of locks.old seat ≡ self.old.names }
        // whatever the device gives
        ensures gives { GivesBack result self.old.names self.new.names }
        ensures others { self.new ≡ record self.old { names = self.new.names } }
        ensures row { locks.new ≡ with_row locks.old seat self.new.names }
        // on an honest device, in a sound world
        ensures step { MakesNameStep seat None result locks.old locks.new }
    {
        self.names.give_back(locks, seat)
    }

    /// One step where no question is under way and not all is asked: a name is taken or given back.
    /// Where exactly the names are held that are needed it makes none, and tells none: then the next
    /// question begins in the room.
    pub(crate) fn turn<K: PseudoKey>(
        &mut self,
        part: &mut Part,
        locks: &mut LockTable,
        keys: &K,
        seat: u8,
        call: &Call,
    ) -> Option<Progress<FileFault>>
        requires seat { IsSeat locks.old seat }
        requires none { question_under part.old ≡ None }
        requires untried { tried_under part.old ≡ None }
        requires asks { has_asked call.now (asked_with self.old None) ≡ false }
        requires row { row_of locks.old seat ≡ self.old.names }
        ensures made { IfSome result (λ did. (pool : PoolState) → IsReady pool →
            MakesQuestions (K.of_key keys.now) seat call.now did
            (asked_with self.old (question_under part.old))
            (asked_with self.new (question_under part.new)) pool pool locks.old locks.new) }
        ensures same { IfNone result ((self.new ≡ self.old) × (locks.new ≡ locks.old)) }
        ensures begins { IfNone result (BeginsNext (K.of_key keys.now) call.now
            (asked_with self.old None) (question_under part.new)) }
        ensures untried { tried_under part.new ≡ None }
    {
        self.names.keep_order();
        match self.names.turn(call, &self.inquiry) {
            NameTurn::Take(lock) => Some(self.names.take(locks, seat, lock)),
            NameTurn::GiveBack => Some(self.names.give_back(locks, seat)),
            NameTurn::Ready => {
                let Some(wanted) = self.inquiry.wants(call) else {
                    unreachable!();
                };
                let key = key_asked(wanted);
                part.make_question();
                match part {
                    Part::Asks(question) => question.begin(key, keys.of(&key)),
                    Part::Writes(_) | Part::Sweeps(_) => unreachable!(),
                }
                None
            }
        }
    }

    /// One step of the question under way.
    pub(crate) fn go_on<D: PageDevice, K: PseudoKey>(
        &mut self,
        question: &mut QuestionPlace,
        pool: &mut Pool<D>,
        locks: &mut LockTable,
        keys: &K,
        seat: u8,
        call: &Call,
    ) -> Progress<FileFault>
        requires seat { IsSeat locks.old seat }
        requires ready { IsReady pool.old }
        requires under_way { IsSome question.old }
        requires row { row_of locks.old seat ≡ questions_locks (asked_with self.old question.old) }
        ensures { MakesQuestions (K.of_key keys.now) seat call.now result
            (asked_with self.old question.old) (asked_with self.new question.new)
            pool.old pool.new locks.old locks.new }
    {
        self.names.keep_order();
        let did = question.question.access.step(pool, locks, keys, seat);
        let heard = listen(
            &mut question.question,
            &mut self.inquiry,
            &mut self.room,
            call,
            did,
        );
        question.is_asking = goes_on(&question.question);
        let Ok(()) = heard else {
            return Progress::Fault(FileFault::Failed);
        };
        self.finds = finds_behind(did, locks, seat, self.finds);
        did
    }
}

/// The key that a question reads.
fn key_asked(wanted: Wanted) -> RecordKey
    ensures { result ≡ key_asked wanted }
{
    match wanted {
        Wanted::At(key) => key,
        Wanted::Given(_) => counter_key(),
    }
}

/// Whether the names are held that are needed.
fn is_ready(turn: NameTurn) -> bool
    ensures { result ≡ is_ready turn }
{
    matches!(turn, NameTurn::Ready)
}
