//! Where deeds are done: a file in memory, and whoever works on it.

mod changes;
mod files;
mod looks;

use crate::alone::Alone;
use crate::events::{play, play_file, read_events};
use crate::keys::Keys;
use crate::line::Line;
use crate::lists::Lists;
use crate::machines::{Machines, OPERATIONS};
use crate::seats::{SEAT_DEEDS, SeatDeed, Seats};
use crate::tables::{LOCK_DEEDS, LockDeed};
use crate::words::{Words, Wrong, named};
use crate::{calls, tables};
use changes::CHANGES;
use files::{FILE_DEEDS, NO_FILE};
use looks::LOOKS;
use page_device::MemDevice;
use page_locks::LockTable;
use std::alloc::Global;

/// Who works on the file.
#[derive(Drop)]
enum Stage {
    /// There is no file.
    Nothing,
    /// Nobody.
    File(MemDevice),
    /// Seats at calls.
    Seats(Seats),
    /// One call at a time.
    Alone(Alone),
    /// Seats at records.
    Machines(Machines),
    /// There is no file, but a table of locks.
    Table(LockTable),
}

/// A file in memory, whoever works on it, and what is known of it.
#[derive(Drop)]
pub struct Bench {
    keys: Keys,
    lists: Lists,
    /// How many calls have begun: the moment of each is its number.
    calls: u64,
    kept: Option<MemDevice>,
    stage: Stage,
}

impl Bench {
    /// No file.
    pub fn new(alloc: Global) -> Bench {
        Bench {
            keys: Keys::Sha,
            lists: Lists::new(alloc),
            calls: 0,
            kept: None,
            stage: Stage::Nothing,
        }
    }

    /// Does the deed of a verb, and tells what it came to; nothing where that is what it says.
    pub fn does(
        &mut self,
        alloc: Global,
        verb: &[u8],
        words: &mut Words<'_>,
        line: &mut Line,
    ) -> Result<(), Wrong> {
        if let Some(deed) = named(&FILE_DEEDS, verb) {
            return self.file(alloc, deed, words, line);
        }
        if let Some(deed) = named(&CHANGES, verb) {
            return self.change(alloc, deed, words);
        }
        if let Some(deed) = named(&SEAT_DEEDS, verb) {
            return self.seat(alloc, deed, words, line);
        }
        if let Some(look) = named(&LOOKS, verb) {
            return self.look(look, words, line);
        }
        if let Some(deed) = named(&LOCK_DEEDS, verb) {
            return self.lock_deed(deed, words, line);
        }
        if verb == b"play".as_slice() {
            return self.play(alloc, words, line);
        }
        self.record_deed(verb, words, line)
    }

    /// Whoever works on the file from here on takes the place of who did.
    fn put(&mut self, stage: Stage) {
        self.stage = stage;
    }

    /// Plays events on a kernel, or on the file.
    fn play(&mut self, alloc: Global, words: &mut Words<'_>, line: &mut Line) -> Result<(), Wrong> {
        let events = read_events(alloc, words)?;
        match &mut self.stage {
            Stage::Seats(seats) => play(alloc, &mut seats.kernel, events, line),
            Stage::File(device) => {
                play_file(alloc, device, self.keys, &mut self.lists, events, line)
            }
            _ => Err(NO_FILE),
        }
    }

    /// A deed of a seat.
    fn seat(
        &mut self,
        alloc: Global,
        deed: SeatDeed,
        words: &mut Words<'_>,
        line: &mut Line,
    ) -> Result<(), Wrong> {
        match &mut self.stage {
            Stage::Seats(seats) => {
                if !deed.begins() {
                    return seats.does(alloc, deed, words, &mut self.lists, line);
                }
                self.calls = self.calls.saturating_add(1);
                seats.make(alloc, deed, words, self.calls, line)
            }
            Stage::Machines(machines) => machines.does(deed, words, line),
            Stage::Alone(_) => self.call_alone(alloc, deed, words, line),
            _ => Err(Wrong::Elsewhere("seats")),
        }
    }

    /// A call is made as the machine that it is.
    fn call_alone(
        &mut self,
        alloc: Global,
        deed: SeatDeed,
        words: &mut Words<'_>,
        line: &mut Line,
    ) -> Result<(), Wrong> {
        let (Stage::Alone(alone), SeatDeed::Call) = (&mut self.stage, deed) else {
            return Err(Wrong::Elsewhere("a kernel"));
        };
        let seat = words.seat()?;
        let Some(caller) = self.lists.callers(seat).last() else {
            return Err(Wrong::Wanted("a seat"));
        };
        self.calls = self.calls.saturating_add(1);
        let call = calls::read(alloc, words, self.calls)?;
        if alone.begin(alloc, *caller, call).is_err() {
            return Err(Wrong::NoMemory);
        }
        alone.run(self.keys, line);
        Ok(())
    }

    /// A deed with a record.
    fn record_deed(
        &mut self,
        verb: &[u8],
        words: &mut Words<'_>,
        line: &mut Line,
    ) -> Result<(), Wrong> {
        let ends = verb != b"start".as_slice();
        let operation = if ends {
            named(&OPERATIONS, verb).ok_or(Wrong::Wanted("a deed"))?
        } else {
            words.one_of(&OPERATIONS, "search, find, insert or delete")?
        };
        match &mut self.stage {
            Stage::Machines(machines) => machines.operate(operation, ends, words, line),
            _ => Err(Wrong::Elsewhere("records")),
        }
    }

    /// A deed with locks.
    fn lock_deed(
        &mut self,
        deed: LockDeed,
        words: &mut Words<'_>,
        line: &mut Line,
    ) -> Result<(), Wrong> {
        match &mut self.stage {
            Stage::Table(table) => tables::does(table, deed, words, line),
            _ => Err(Wrong::Elsewhere("locks")),
        }
    }
}
