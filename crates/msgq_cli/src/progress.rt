//! How far a long walk over a large file has come, shown on a terminal. No claim rests on these
//! words.

ghost use Rattle.std.specs.Prelude.{◌≡◌};
ghost use Rattle.msgq_cli.specs.Progress.{device_of};

use page_device::{DeviceFault, Page, PageDevice};
use std::cell::RefCell;
use std::fmt::Display;
use std::io::{IsTerminal, Write};

/// A file of more pages is large.
const MOST_UNSHOWN: u32 = 4_096;

/// The line is written anew each time that so many pages more were read or made.
const STEP: u64 = 1_024;

/// To the beginning of the line, which is cleared.
const CLEARED: &[u8] = b"\r\x1b[K";

/// Where devices show how far they have come: a line of a terminal, which they share.
#[derive(Drop)]
pub struct Progress<'a, E: Write> {
    errors: RefCell<&'a mut E>,
    is_terminal: bool,
}

impl<'a, E: Write + IsTerminal> Progress<'a, E> {
    /// A line of this writer, where it is a terminal.
    pub fn new(errors: &'a mut E) -> Progress<'a, E> {
        let is_terminal = errors.is_terminal();
        Progress {
            errors: RefCell::new(errors),
            is_terminal,
        }
    }
}

impl<E: Write> Progress<'_, E> {
    /// Whether so many transfers of a device of so many pages are told.
    fn tells(&self, count: u64, pages: u32) -> bool {
        self.is_terminal && pages > MOST_UNSHOWN && count % STEP == 0
    }

    /// Writes the line anew.
    fn show<D: Display + Drop>(&self, words: D) {
        if let Ok(mut errors) = self.errors.try_borrow_mut() {
            let _ = errors.write_all(CLEARED);
            let _ = errors.write_fmt(words);
        }
    }

    /// Clears the line.
    fn clear(&self) {
        if let Ok(mut errors) = self.errors.try_borrow_mut() {
            let _ = errors.write_all(CLEARED);
        }
    }
}

/// What the pages of a device are gone through for.
#[derive(Clone, Copy, PartialEq, Eq)]
enum Phase {
    /// They are read, each once, and then those of records again.
    Read,
    /// They are made, one behind the other.
    Made,
    /// Those that were made are written again, in any order.
    Filled,
}

/// A device that passes its transfers on to another, and shows how many pages were read, made or
/// written.
#[derive(Drop)]
pub struct Shown<'p, 'a, D: PageDevice, E: Write> {
    device: D,
    progress: &'p Progress<'a, E>,
    phase: Phase,
    count: u64,
    has_line: bool,
}

impl<'p, 'a, D: PageDevice, E: Write> Shown<'p, 'a, D, E> {
    /// The transfers of a device, which are shown where it is large.
    pub fn new(device: D, progress: &'p Progress<'a, E>) -> Shown<'p, 'a, D, E>
        ensures { device_of result ≡ device }
    {
        Shown {
            device,
            progress,
            phase: Phase::Read,
            count: 0,
            has_line: false,
        }
    }

    /// The device; what is shown ends here.
    pub fn into_device(self) -> D
        ensures { result ≡ device_of self.entry }
    {
        let Shown {
            device,
            progress,
            phase: _,
            count: _,
            has_line,
        } = self;
        if has_line {
            progress.clear();
        }
        device
    }
}

impl<D: PageDevice, E: Write> PageDevice for Shown<'_, '_, D, E> {
    ghost is_honest = { λ s. D.is_honest s.device };

    ghost content = { λ s. D.content s.device };

    ghost is_synced = { λ s. D.is_synced s.device };

    ghost fault_count = { λ s. D.fault_count s.device };

    fn pages(&self) -> u32 {
        self.device.pages()
    }

    fn faults(&self) -> u64 {
        self.device.faults()
    }

    fn read(&mut self, page: u32, into: &mut Page) -> Result<(), DeviceFault> {
        if self.phase == Phase::Read {
            let pages = self.device.pages();
            self.count = self.count.saturating_add(1);
            if self.progress.tells(self.count, pages) {
                self.has_line = true;
                show_reads(self.count, pages, self.progress);
            }
        }
        self.device.read(page, into)
    }

    fn write(&mut self, page: u32, bytes: &Page) -> Result<(), DeviceFault> {
        let pages = self.device.pages();
        self.count = self.count.saturating_add(1);
        if self.progress.tells(self.count, pages) {
            self.has_line = true;
            let written = self.count;
            self.progress
                .show(format_args!("msgq: wrote {written} pages"));
        }
        self.device.write(page, bytes)
    }

    fn extend(&mut self, bytes: &Page) -> Result<(), DeviceFault> {
        self.phase = Phase::Made;
        let pages = self.device.pages().saturating_add(1);
        if self.progress.tells(u64::from(pages), pages) {
            self.has_line = true;
            self.progress.show(format_args!("msgq: made {pages} pages"));
        }
        self.device.extend(bytes)
    }

    fn sync(&mut self) -> Result<(), DeviceFault> {
        self.count = 0;
        self.phase = match self.phase {
            Phase::Made => Phase::Filled,
            Phase::Read | Phase::Filled => Phase::Read,
        };
        self.device.sync()
    }
}

/// Shows how many pages were read.
fn show_reads<E: Write>(reads: u64, pages: u32, progress: &Progress<E>) {
    let again = reads.saturating_sub(u64::from(pages));
    let once = reads - again;
    if again > 0 {
        progress.show(format_args!(
            "msgq: checked {once} of {pages} pages, and {again} again for their records"
        ));
    } else {
        progress.show(format_args!("msgq: checked {once} of {pages} pages"));
    }
}
