//! Files are made, opened, closed, checked and kept.

use crate::alone::Alone;
use crate::bench::{Bench, Stage};
use crate::file::are_alike;
use crate::keys::{KEYS, Keys};
use crate::line::Line;
use crate::lists::Lists;
use crate::machines::Machines;
use crate::seats::{FileKernel, Seats};
use crate::told::{tell_fault, tell_truth};
use crate::words::{Words, Wrong};
use file_check::{CheckFault, Checked, check};
use interleaving_core::{Kernel, NotClosed, OpenFault};
use machine_trials::Trial;
use page_device::{MemDevice, copied};
use page_locks::LockTable;
use queue_model::System;
use record_file::format;
use std::alloc::Global;
use std::mem;

/// What is done with a file.
#[derive(Clone, Copy)]
pub enum FileDeed {
    /// A new one of so many pages, whose keys become pseudokeys so, takes the place of any other.
    New,
    /// User and group of who sits at a seat.
    Ids,
    /// A kernel of so many seats and frames opens it.
    Open,
    /// One call at a time is made on it, each as the machine that it is.
    Alone,
    /// Seats are to work on its records, over so many frames.
    Records,
    /// A table of locks for so many seats, beside any file.
    Locks,
    /// Whoever works on it ends.
    Close,
    /// It is checked.
    Check,
    /// It is kept as it is.
    Keep,
    /// What was kept is there again.
    Again,
    /// Whether it is what was kept, byte by byte.
    Alike,
}

/// These by their verbs.
pub const FILE_DEEDS: [(&[u8], FileDeed); 11] = [
    (b"new", FileDeed::New),
    (b"ids", FileDeed::Ids),
    (b"open", FileDeed::Open),
    (b"alone", FileDeed::Alone),
    (b"records", FileDeed::Records),
    (b"locks", FileDeed::Locks),
    (b"close", FileDeed::Close),
    (b"check", FileDeed::Check),
    (b"keep", FileDeed::Keep),
    (b"again", FileDeed::Again),
    (b"alike", FileDeed::Alike),
];

/// Pages that a new file has at least, and at most in a row.
const LEAST_PAGES: u32 = 258;

const MOST_PAGES: u32 = 1_024;

/// What is wanted where there is no file, or somebody works on it.
pub(crate) const NO_FILE: Wrong = Wrong::Elsewhere("a file on which nobody works");

impl Bench {
    /// Does a deed with the file, and tells what it came to.
    pub(crate) fn file(
        &mut self,
        alloc: Global,
        deed: FileDeed,
        words: &mut Words<'_>,
        line: &mut Line,
    ) -> Result<(), Wrong> {
        match deed {
            FileDeed::New => self.make(alloc, words),
            FileDeed::Ids => self.sit(words),
            FileDeed::Open => self.open(alloc, words, line),
            FileDeed::Alone => self.be_alone(alloc),
            FileDeed::Records => self.work(alloc, words),
            FileDeed::Locks => self.lock(alloc, words),
            FileDeed::Close => self.close(line),
            FileDeed::Check => self.check(alloc, line),
            FileDeed::Keep => self.keep(alloc),
            FileDeed::Again => self.restore(alloc),
            FileDeed::Alike => self.compare(line),
        }
    }

    /// A new file takes the place of any other.
    fn make(&mut self, alloc: Global, words: &mut Words<'_>) -> Result<(), Wrong> {
        let pages = words.number("a number of pages")?;
        let keys = words.one_of(&KEYS, "sha, number or zero")?;
        if pages < LEAST_PAGES || pages > MOST_PAGES {
            return Err(Wrong::Wanted("258 to 1024 pages"));
        }
        let mut device = MemDevice::new(alloc);
        if format(&mut device, pages).is_err() {
            return Err(Wrong::NoMemory);
        }
        self.keys = keys;
        self.lists = Lists::new(alloc);
        self.calls = 0;
        self.put(Stage::File(device));
        Ok(())
    }

    /// Another user sits at a seat.
    fn sit(&mut self, words: &mut Words<'_>) -> Result<(), Wrong> {
        let seat = words.seat()?;
        let user = words.number("a user id")?;
        let group = words.number("a group id")?;
        self.lists.seat(seat, user, group);
        Ok(())
    }

    /// The file, on which nobody works. One without pages stands in its place.
    fn take(&mut self, alloc: Global) -> Result<MemDevice, Wrong> {
        match &mut self.stage {
            Stage::File(device) => Ok(mem::replace(device, MemDevice::new(alloc))),
            _ => Err(NO_FILE),
        }
    }

    /// A kernel opens the file, or it is told why not.
    fn open(&mut self, alloc: Global, words: &mut Words<'_>, line: &mut Line) -> Result<(), Wrong> {
        let seats = words.seat()?;
        let frames = words.number("a number of frames")?;
        let callers = self.lists.callers(seats);
        if callers.is_empty() || callers.len() > 64 {
            return Err(Wrong::Wanted("1 to 64 seats"));
        }
        let Stage::File(device) = &mut self.stage else {
            return Err(NO_FILE);
        };
        let device = mem::replace(device, MemDevice::new(alloc));
        let opened = Kernel::open(alloc, device, self.keys, callers, frames as usize);
        self.go_on_with(opened, line);
        Ok(())
    }

    /// Seats are at calls from here on, where a kernel was opened; else it is told why not.
    fn go_on_with(&mut self, opened: Result<FileKernel, (MemDevice, OpenFault)>, line: &mut Line) {
        match opened {
            Ok(kernel) => self.put(Stage::Seats(Seats::new(kernel))),
            Err((device, fault)) => {
                self.put(Stage::File(device));
                tell_fault(line, fault.number());
            }
        }
    }

    /// One call at a time is to be made on the file.
    fn be_alone(&mut self, alloc: Global) -> Result<(), Wrong> {
        let caller = self.lists.root();
        let device = self.take(alloc)?;
        match Alone::new(alloc, device, caller) {
            Ok(alone) => {
                self.put(Stage::Alone(alone));
                Ok(())
            }
            Err(_) => Err(Wrong::NoMemory),
        }
    }

    /// Seats are to work on the records of the file.
    fn work(&mut self, alloc: Global, words: &mut Words<'_>) -> Result<(), Wrong> {
        let frames = words.number("a number of frames")?;
        let device = self.take(alloc)?;
        match Trial::open(alloc, device, frames as usize, self.keys) {
            Ok(trial) => {
                self.put(Stage::Machines(Machines::new(trial)));
                Ok(())
            }
            Err(_) => Err(Wrong::NoMemory),
        }
    }

    /// A table of locks takes the place of any file.
    fn lock(&mut self, alloc: Global, words: &mut Words<'_>) -> Result<(), Wrong> {
        let seats = words.seat()?;
        if seats == 0 || seats > 64 {
            return Err(Wrong::Wanted("1 to 64 seats"));
        }
        match LockTable::new(alloc, seats) {
            Ok(table) => {
                self.put(Stage::Table(table));
                Ok(())
            }
            Err(_) => Err(Wrong::NoMemory),
        }
    }

    /// The file is kept as it is.
    fn keep(&mut self, alloc: Global) -> Result<(), Wrong> {
        let Stage::File(device) = &mut self.stage else {
            return Err(NO_FILE);
        };
        let Ok(copy) = copied(alloc, device) else {
            return Err(Wrong::NoMemory);
        };
        self.kept = Some(copy);
        Ok(())
    }

    /// What was kept is there again.
    fn restore(&mut self, alloc: Global) -> Result<(), Wrong> {
        let Some(device) = &mut self.kept else {
            return Err(Wrong::Elsewhere("a file that was kept"));
        };
        let Ok(copy) = copied(alloc, device) else {
            return Err(Wrong::NoMemory);
        };
        self.put(Stage::File(copy));
        Ok(())
    }

    /// Tells whether the file is what was kept.
    fn compare(&mut self, line: &mut Line) -> Result<(), Wrong> {
        let (Stage::File(device), Some(kept)) = (&mut self.stage, &mut self.kept) else {
            return Err(NO_FILE);
        };
        tell_truth(line, are_alike(device, kept));
        Ok(())
    }

    /// Whoever works on the file ends, and its pages are written.
    fn close(&mut self, line: &mut Line) -> Result<(), Wrong> {
        if !matches!(&self.stage, Stage::Seats(_) | Stage::Machines(_)) {
            return Err(Wrong::Elsewhere("a kernel or records"));
        }
        let stage = mem::replace(&mut self.stage, Stage::Nothing);
        self.close_stage(stage, line);
        Ok(())
    }

    /// The kernel or the records are closed.
    fn close_stage(&mut self, stage: Stage, line: &mut Line) {
        match stage {
            Stage::Seats(seats) => self.close_seats(seats, line),
            Stage::Machines(machines) => self.close_machines(machines, line),
            _ => {}
        }
    }

    /// The kernel is closed, and its journal told. With a call under way it stays.
    fn close_seats(&mut self, seats: Seats, line: &mut Line) {
        match seats.kernel.close() {
            Ok(closed) => {
                self.lists.tell(closed.journal.as_slice(), line);
                self.put(Stage::File(closed.device));
            }
            Err(not_closed) => self.go_on_after(not_closed, line),
        }
    }

    /// The kernel stays, or it is told why it was not closed well.
    fn go_on_after(&mut self, not_closed: NotClosed<MemDevice, Keys>, line: &mut Line) {
        match not_closed {
            NotClosed::Busy(kernel) => {
                self.put(Stage::Seats(Seats::new(kernel)));
                line.word("busy");
            }
            NotClosed::Fault(_closed, fault) => tell_fault(line, fault.number()),
        }
    }

    /// The pages on which machines have worked are written.
    fn close_machines(&mut self, machines: Machines, line: &mut Line) {
        match machines.trial.close() {
            Ok(device) => self.put(Stage::File(device)),
            Err(fault) => tell_fault(line, fault.number()),
        }
    }

    /// The file is checked whole, and it is told what it holds or what is wrong with it.
    fn check(&mut self, alloc: Global, line: &mut Line) -> Result<(), Wrong> {
        let device = self.take(alloc)?;
        let Checked { device, found } = check(alloc, device, self.keys);
        tell_found(&found, line);
        self.put(Stage::File(device));
        Ok(())
    }
}

/// Tells how many queues and messages a file has that is right, or what is wrong with it.
fn tell_found(found: &Result<System, CheckFault>, line: &mut Line) {
    match found {
        Ok(system) => {
            line.word("ok");
            line.number(system.queues() as u64);
            line.number(system.messages() as u64);
        }
        Err(fault) => tell_fault(line, fault.number()),
    }
}
