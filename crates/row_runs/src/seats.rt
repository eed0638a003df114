//! Seats at calls on a kernel.

ghost use Rattle.std.specs.Prelude.{◌↔◌, IsTrue};
ghost use Rattle.page_locks.specs.Table.{IsSeat};

use crate::calls;
use crate::keys::Keys;
use crate::kinds::Made;
use crate::line::Line;
use crate::lists::Lists;
use crate::told::{tell_fault, tell_move, tell_step, tell_truth, tell_withdrawn};
use crate::words::{Words, Wrong};
use interleaving_core::{BeginFault, Kernel, Step};
use page_device::MemDevice;
use page_locks::Lock;
use queue_model::Call;
use std::alloc::Global;
use step_rules::Kind;

/// A kernel over a file in memory.
pub type FileKernel = Kernel<MemDevice, Keys>;

/// A seat begins, steps or drives, or is asked for what it did.
#[derive(Clone, Copy)]
pub enum SeatDeed {
    Begin,
    /// It begins, and is driven.
    Call,
    Step,
    /// Steps, one by one, for as long as they move.
    Run,
    Drive,
    /// Steps up to the first of a kind.
    Reach,
    /// How many steps of a kind it has made since it began.
    Made,
    /// Seats 1 to this one make steps by turns, until each is answered.
    Turns,
    Searched,
    Withdraw,
    Between,
    Stop,
    Renew,
    Forget,
}

/// These by their verbs.
pub const SEAT_DEEDS: [(&[u8], SeatDeed); 14] = [
    (b"begin", SeatDeed::Begin),
    (b"call", SeatDeed::Call),
    (b"step", SeatDeed::Step),
    (b"run", SeatDeed::Run),
    (b"drive", SeatDeed::Drive),
    (b"reach", SeatDeed::Reach),
    (b"made", SeatDeed::Made),
    (b"turns", SeatDeed::Turns),
    (b"searched", SeatDeed::Searched),
    (b"withdraw", SeatDeed::Withdraw),
    (b"between", SeatDeed::Between),
    (b"stop", SeatDeed::Stop),
    (b"renew", SeatDeed::Renew),
    (b"forget", SeatDeed::Forget),
];

impl SeatDeed {
    /// Whether a call begins by it.
    pub fn begins(self) -> bool {
        matches!(self, SeatDeed::Begin | SeatDeed::Call)
    }
}

/// More steps than any call of a row makes.
const MOST_STEPS: u32 = 100_000;

/// What a deed of a seat that is not there is told.
const NO_SEAT: Wrong = Wrong::Wanted("a seat of the kernel");

/// What a step came to, as far as whoever goes on needs it.
#[derive(Clone, Copy)]
enum Came {
    Moved(Kind),
    Answered,
    /// It is blocked, waits, is idle, or does not go on.
    Stays,
}

/// A kernel, and how many steps of each kind its seats have made.
#[derive(Drop)]
pub struct Seats {
    pub kernel: FileKernel,
    made: Made,
}

/// Whether the kernel has this seat.
fn has_seat(kernel: &FileKernel, seat: u8) -> bool
    ensures { IsTrue result ↔ IsSeat kernel.now.locks seat }
{
    seat >= 1 && seat <= kernel.seats()
}

/// The number of the fault by which a call is refused.
fn refusal(begun: &Result<(), (Call, BeginFault)>) -> Option<u8> {
    match begun {
        Ok(()) => None,
        Err((_, fault)) => Some(fault.number()),
    }
}

/// What a step came to.
fn came_of(step: &Step) -> Came {
    match step {
        Step::Moved(kind) => Came::Moved(*kind),
        Step::Answered(_) => Came::Answered,
        _ => Came::Stays,
    }
}

/// The lock that a seat was granted last, of those that it holds.
fn last(kernel: &FileKernel, seat: u8) -> Option<Lock> {
    if !has_seat(kernel, seat) {
        return None;
    }
    kernel.locks().last(seat)
}

impl Seats {
    /// Seats none of which has made a step.
    pub fn new(kernel: FileKernel) -> Seats {
        Seats {
            kernel,
            made: Made::NONE,
        }
    }

    /// Begins a call of this moment, and drives it where the deed says so. Where it does not begin
    /// the fault is told.
    pub fn make(
        &mut self,
        alloc: Global,
        deed: SeatDeed,
        words: &mut Words<'_>,
        moment: u64,
        line: &mut Line,
    ) -> Result<(), Wrong> {
        let seat = words.seat()?;
        let refused = self.begin(alloc, seat, words, moment)?;
        if let Some(number) = refused {
            tell_fault(line, number);
            return Ok(());
        }
        match deed {
            SeatDeed::Begin => Ok(()),
            _ => self.drive(seat, line),
        }
    }

    /// Does a deed of a seat that begins no call, and tells what it came to. The journal goes on from
    /// the plain lists.
    pub fn does(
        &mut self,
        alloc: Global,
        deed: SeatDeed,
        words: &mut Words<'_>,
        lists: &mut Lists,
        line: &mut Line,
    ) -> Result<(), Wrong> {
        match deed {
            SeatDeed::Made => self.count(words, line),
            SeatDeed::Turns => self.take_turns(alloc, words, line),
            SeatDeed::Searched => self.tell_search(words, line),
            SeatDeed::Withdraw => self.withdraw(words, line),
            SeatDeed::Between => {
                tell_truth(line, self.kernel.is_between_calls());
                Ok(())
            }
            SeatDeed::Stop => {
                self.kernel.stop();
                Ok(())
            }
            SeatDeed::Renew => self.renew(lists, line),
            SeatDeed::Forget => {
                self.forget(lists, line);
                Ok(())
            }
            _ => self.go(deed, words, line),
        }
    }

    /// A seat makes steps, and it is told what the last one came to.
    fn go(&mut self, deed: SeatDeed, words: &mut Words<'_>, line: &mut Line) -> Result<(), Wrong> {
        let seat = words.seat()?;
        match deed {
            SeatDeed::Step => self.step_once(seat, line),
            SeatDeed::Run => self.run(seat, None, line),
            SeatDeed::Reach => {
                let kind = words.kind()?;
                self.run(seat, Some(kind), line)
            }
            _ => self.drive(seat, line),
        }
    }

    /// A call begins at a seat. The number of the fault by which it is refused.
    fn begin(
        &mut self,
        alloc: Global,
        seat: u8,
        words: &mut Words<'_>,
        moment: u64,
    ) -> Result<Option<u8>, Wrong> {
        if !has_seat(&self.kernel, seat) {
            return Err(NO_SEAT);
        }
        let call = calls::read(alloc, words, moment)?;
        let refused = refusal(&self.kernel.begin(seat, call));
        if refused.is_none() {
            self.made.begin(seat);
        }
        Ok(refused)
    }

    /// Tells how many steps of a kind a seat has made since its call began.
    fn count(&self, words: &mut Words<'_>, line: &mut Line) -> Result<(), Wrong> {
        let seat = words.seat()?;
        let kind = words.kind()?;
        line.number(u64::from(self.made.of(seat, kind)));
        Ok(())
    }

    /// Tells the hops of a seat's last search, the steps in its time that may add one, and whether no
    /// change of the structure was under way.
    fn tell_search(&self, words: &mut Words<'_>, line: &mut Line) -> Result<(), Wrong> {
        let seat = words.seat()?;
        if !has_seat(&self.kernel, seat) {
            return Err(NO_SEAT);
        }
        line.word("hops");
        line.number(self.kernel.hops(seat));
        line.word("changes");
        line.number(self.kernel.changes(seat));
        line.word("calm");
        tell_truth(line, self.kernel.was_calm(seat));
        Ok(())
    }

    /// Takes the call of a seat back.
    fn withdraw(&mut self, words: &mut Words<'_>, line: &mut Line) -> Result<(), Wrong> {
        let seat = words.seat()?;
        if !has_seat(&self.kernel, seat) {
            return Err(NO_SEAT);
        }
        tell_withdrawn(line, &self.kernel.withdraw(seat));
        Ok(())
    }

    /// One step of a seat, which is counted where it moves; else it is told what it came to.
    fn step(&mut self, seat: u8, line: &mut Line) -> Result<Came, Wrong> {
        if !has_seat(&self.kernel, seat) {
            return Err(NO_SEAT);
        }
        let step = self.kernel.step(seat);
        let came = came_of(&step);
        match came {
            Came::Moved(kind) => self.made.note(seat, kind),
            _ => tell_step(line, &step, None),
        }
        Ok(came)
    }

    /// Steps of a seat for as long as it moves, made in one go.
    fn drive(&mut self, seat: u8, line: &mut Line) -> Result<(), Wrong> {
        if !has_seat(&self.kernel, seat) {
            return Err(NO_SEAT);
        }
        let step = self.kernel.drive(seat);
        tell_step(line, &step, last(&self.kernel, seat));
        Ok(())
    }

    /// One step of a seat, and what it came to.
    fn step_once(&mut self, seat: u8, line: &mut Line) -> Result<(), Wrong> {
        if let Came::Moved(kind) = self.step(seat, line)? {
            tell_move(line, kind, last(&self.kernel, seat));
        }
        Ok(())
    }

    /// Steps of a seat up to the first of a kind, or that does not move, and what that came to.
    fn run(&mut self, seat: u8, until: Option<Kind>, line: &mut Line) -> Result<(), Wrong> {
        for _ in 0..MOST_STEPS {
            let Came::Moved(kind) = self.step(seat, line)? else {
                return Ok(());
            };
            if until == Some(kind) {
                tell_move(line, kind, last(&self.kernel, seat));
                return Ok(());
            }
        }
        Err(Wrong::Wanted("a call that ends"))
    }

    /// Seats 1 to this one make steps by turns until each is answered, and the answers are told in
    /// the order of seats.
    fn take_turns(
        &mut self,
        alloc: Global,
        words: &mut Words<'_>,
        line: &mut Line,
    ) -> Result<(), Wrong> {
        let seats = words.seat()?;
        let mut answers = Vec::new(alloc);
        self.answer_all(alloc, seats, &mut answers)?;
        for answer in &answers {
            line.add(answer);
        }
        Ok(())
    }

    /// Steps of so many seats by turns until each is answered, with a line for each.
    fn answer_all(
        &mut self,
        alloc: Global,
        seats: u8,
        answers: &mut Vec<Line>,
    ) -> Result<(), Wrong> {
        for _ in 0..seats {
            let Ok(()) = answers.push(Line::new(alloc)) else {
                return Err(Wrong::NoMemory);
            };
        }
        for _ in 0..MOST_STEPS {
            if self.take_turn(answers.as_mut_slice())? {
                return Ok(());
            }
        }
        Err(Wrong::Wanted("calls that end"))
    }

    /// One step of each seat that has no answer yet. Whether each has one.
    fn take_turn(&mut self, answers: &mut [Line]) -> Result<bool, Wrong> {
        let mut seat: u8 = 0;
        let mut are_answered = true;
        for answer in answers.iter_mut() {
            seat = seat.saturating_add(1);
            are_answered = self.is_answered(seat, answer)? && are_answered;
        }
        Ok(are_answered)
    }

    /// Whether a seat has an answer, where it makes one step if it had none.
    fn is_answered(&mut self, seat: u8, answer: &mut Line) -> Result<bool, Wrong> {
        if !answer.is_empty() {
            return Ok(true);
        }
        if let Came::Answered = self.step(seat, answer)? {
            return Ok(true);
        }
        answer.clear();
        Ok(false)
    }

    /// Takes the journal out.
    fn renew(&mut self, lists: &mut Lists, line: &mut Line) -> Result<(), Wrong> {
        if !self.kernel.is_between_calls() {
            line.word("busy");
            return Ok(());
        }
        match self.kernel.renew() {
            Ok(journal) => {
                lists.tell(journal.as_slice(), line);
                Ok(())
            }
            Err(_) => Err(Wrong::NoMemory),
        }
    }

    /// Lets the journal go.
    fn forget(&mut self, lists: &mut Lists, line: &mut Line) {
        if !self.kernel.is_between_calls() {
            return line.word("busy");
        }
        lists.tell(self.kernel.journal(), line);
        self.kernel.forget();
    }
}
