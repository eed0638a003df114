//! Seats at work on the records of a file, with no call above them.

use crate::keys::Keys;
use crate::kinds::Made;
use crate::line::Line;
use crate::seats::SeatDeed;
use crate::told::{tell_blocked, tell_fault, tell_move};
use crate::words::{Words, Wrong};
use file_pages::FileFault;
use machine_trials::{Trial, Value};
use page_device::MemDevice;
use record_file::Tried;
use step_rules::{Kind, Progress};

/// More steps than any work of a row makes.
const MOST_STEPS: u32 = 100_000;

/// What a deed of a seat that has no work is told.
const NO_SEAT: Wrong = Wrong::Wanted("a seat that has work");

/// What a seat does with a record.
#[derive(Clone, Copy)]
pub enum Operation {
    /// A search alone, which stays on the page that answers.
    Search,
    Find,
    /// A value of so many bytes.
    Insert,
    Delete,
}

/// These by their verbs.
pub const OPERATIONS: [(&[u8], Operation); 4] = [
    (b"search", Operation::Search),
    (b"find", Operation::Find),
    (b"insert", Operation::Insert),
    (b"delete", Operation::Delete),
];

/// Seats at work, and how many steps of each kind they have made.
#[derive(Drop)]
pub struct Machines {
    pub trial: Trial<MemDevice, Keys>,
    made: Made,
}

impl Machines {
    /// Seats none of which has work.
    pub fn new(trial: Trial<MemDevice, Keys>) -> Machines {
        Machines {
            trial,
            made: Made::NONE,
        }
    }

    /// The next idle seat begins an operation, and the seat is told; and what it comes to, where it
    /// is stepped to its end.
    pub fn operate(
        &mut self,
        operation: Operation,
        ends: bool,
        words: &mut Words<'_>,
        line: &mut Line,
    ) -> Result<(), Wrong> {
        let Some(seat) = self.begin(operation, words)? else {
            line.word("none");
            return Ok(());
        };
        line.word("seat");
        line.number(u64::from(seat));
        if ends {
            let did = self.run(seat, None)?;
            self.tell(seat, did, line);
        }
        Ok(())
    }

    /// The idle seat that begins an operation, if there is one.
    fn begin(&mut self, operation: Operation, words: &mut Words<'_>) -> Result<Option<u8>, Wrong> {
        let key = words.one_key()?;
        Ok(match operation {
            Operation::Search => self.trial.search(key),
            Operation::Find => self.trial.find(key),
            Operation::Insert => {
                let bytes = words.number("a number of bytes")? as usize;
                self.trial.insert(key, Value { mark: 7, bytes })
            }
            Operation::Delete => self.trial.delete(key),
        })
    }

    /// Does a deed of a seat, and tells what it came to.
    pub fn does(
        &mut self,
        deed: SeatDeed,
        words: &mut Words<'_>,
        line: &mut Line,
    ) -> Result<(), Wrong> {
        let seat = words.seat()?;
        match deed {
            SeatDeed::Made => self.count(seat, words, line),
            SeatDeed::Searched => self.tell_search(seat, line),
            _ => {
                let did = self.go(deed, seat, words)?;
                self.tell(seat, did, line);
                Ok(())
            }
        }
    }

    /// A seat makes steps. What the last one came to.
    fn go(
        &mut self,
        deed: SeatDeed,
        seat: u8,
        words: &mut Words<'_>,
    ) -> Result<Progress<FileFault>, Wrong> {
        match deed {
            SeatDeed::Step => self.step(seat),
            SeatDeed::Run => self.run(seat, None),
            SeatDeed::Reach => {
                let kind = words.kind()?;
                self.run(seat, Some(kind))
            }
            _ => Err(Wrong::Elsewhere("a kernel")),
        }
    }

    /// Tells how many steps of a kind a seat has made since its work began.
    fn count(&self, seat: u8, words: &mut Words<'_>, line: &mut Line) -> Result<(), Wrong> {
        let kind = words.kind()?;
        line.number(u64::from(self.made.of(seat, kind)));
        Ok(())
    }

    /// Tells the hops of a seat's search.
    fn tell_search(&self, seat: u8, line: &mut Line) -> Result<(), Wrong> {
        let hops = self.trial.hops(seat).ok_or(NO_SEAT)?;
        line.word("hops");
        line.number(hops);
        Ok(())
    }

    /// One step of a seat, which is counted where it moves.
    fn step(&mut self, seat: u8) -> Result<Progress<FileFault>, Wrong> {
        let did = self.trial.step(seat).ok_or(NO_SEAT)?;
        if let Progress::Moved(kind) = did {
            self.made.note(seat, kind);
        }
        Ok(did)
    }

    /// Steps of a seat up to the first of a kind, or that does not move.
    fn run(&mut self, seat: u8, until: Option<Kind>) -> Result<Progress<FileFault>, Wrong> {
        for _ in 0..MOST_STEPS {
            let did = self.step(seat)?;
            match did {
                Progress::Moved(kind) if until != Some(kind) => {}
                _ => return Ok(did),
            }
        }
        Err(Wrong::Wanted("work that ends"))
    }

    /// Tells what a step of a seat came to, and where that has ended what its work did.
    fn tell(&self, seat: u8, did: Progress<FileFault>, line: &mut Line) {
        match did {
            Progress::Moved(kind) => tell_move(line, kind, self.trial.last(seat)),
            Progress::Blocked(other) => tell_blocked(line, other),
            Progress::Fault(fault) => tell_fault(line, fault.number()),
            Progress::Ended => self.tell_end(seat, line),
        }
    }

    /// Tells what the work of a seat that has ended came to: an insert whether it put the record,
    /// any other the page that answered and how long the value is there.
    fn tell_end(&self, seat: u8, line: &mut Line) {
        match self.trial.tried(seat) {
            Some(Tried::IsPut) => return line.word("put"),
            Some(Tried::IsThere) => return line.word("there"),
            Some(Tried::IsFull) => return line.word("full"),
            None => {}
        }
        match self.trial.found(seat) {
            Some((page, bytes)) => {
                line.word("page");
                line.number(u64::from(page));
                match bytes {
                    Some(bytes) => line.number(bytes as u64),
                    None => line.word("none"),
                }
            }
            None => line.word("ended"),
        }
    }
}
