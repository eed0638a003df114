//! Who looks on while a script is replayed.

use crate::deed::Deed;
use crate::holdings::{Holdings, LockChange, may_block};
use crate::spelled::Spelled;
use page_locks::{LockName, LockTable};
use std::alloc::Global;
use std::io;
use std::io::{LineWriter, Write};
use step_rules::Kind;

/// What an onlooker is shown.
#[derive(Clone, Copy)]
pub enum Sight {
    /// An event of a seat.
    Event {
        /// The seat.
        seat: u8,
        /// The number of its line that is under way, or was replied.
        line: u64,
        /// What came of it.
        deed: Deed,
    },
    /// From here on no call waits.
    Stop,
}

/// Who is shown what is done in a replay, as it is done, and what the seats hold after it. Whatever
/// it makes of it, the replay is the same.
pub trait Onlooker {
    /// Is shown this, after which the seats hold these locks.
    fn see(&mut self, sight: Sight, locks: &LockTable);
}

/// One that may be missing.
impl<O: Onlooker> Onlooker for Option<O> {
    fn see(&mut self, sight: Sight, locks: &LockTable) {
        if let Some(onlooker) = self {
            onlooker.see(sight, locks);
        }
    }
}

/// Writes a line for each event, in one piece, as docs/SCRIPTS.md, "Trace", spells it. What the writer
/// refuses is left out.
#[derive(Drop)]
pub(crate) struct Trace<W: Write + Drop> {
    lines: LineWriter<W>,
    holdings: Holdings,
}

impl<W: Write + Drop> Trace<W> {
    /// A trace to a writer where one is wanted, of seats that hold nothing yet, and none where there
    /// is no memory for a line and for what they may come to hold.
    pub(crate) fn new(alloc: Global, writer: W, is_wanted: bool) -> Option<Trace<W>> {
        if !is_wanted {
            return None;
        }
        let lines = LineWriter::new(alloc, writer).ok()?;
        let holdings = Holdings::new(alloc).ok()?;
        Some(Trace { lines, holdings })
    }

    /// Tells a step, and the lock that it granted or gave back. One that did neither is told with the
    /// pages that its seat holds.
    fn tell_step(&mut self, seat: u8, kind: Kind, change: LockChange) -> io::Result<()> {
        let kind = kind.name();
        write!(self.lines, "{seat} {kind}")?;
        match (change.lost, change.gained) {
            (Some(lost), Some(gained)) => {
                let (lost, gained) = (Spelled(lost), Spelled(gained));
                write!(self.lines, " {lost} to {gained}")?;
            }
            (Some(lock), None) | (None, Some(lock)) => {
                let lock = Spelled(lock);
                write!(self.lines, " {lock}")?;
            }
            (None, None) => self.tell_pages(seat)?,
        }
        writeln!(self.lines)
    }

    /// Tells the pages that a seat holds.
    fn tell_pages(&mut self, seat: u8) -> io::Result<()> {
        for holding in self.holdings.as_slice() {
            if holding.seat == seat
                && let LockName::Page(page) = holding.lock.name
            {
                write!(self.lines, " page {page}")?;
            }
        }
        Ok(())
    }

    /// Tells that a seat stands in the way of another, and which of its locks may do so.
    fn tell_block(&mut self, seat: u8, other: u8) -> io::Result<()> {
        write!(self.lines, "{seat} blocked by {other}")?;
        let last = self.holdings.last(seat);
        let mut joint = ", which holds";
        for holding in self.holdings.as_slice() {
            if holding.seat == other && may_block(holding.lock, last) {
                let lock = Spelled(holding.lock);
                write!(self.lines, "{joint} {lock}")?;
                joint = ",";
            }
        }
        writeln!(self.lines)
    }
}

impl<W: Write + Drop> Onlooker for Trace<W> {
    fn see(&mut self, sight: Sight, locks: &LockTable) {
        let Sight::Event { seat, line, deed } = sight else {
            let _ = writeln!(self.lines, "stop");
            return;
        };
        let change = self.holdings.follow(seat, locks);
        let _ = match deed {
            Deed::Nothing => Ok(()),
            Deed::Begun => writeln!(self.lines, "{seat} begins {line}"),
            Deed::Moved(kind) => self.tell_step(seat, kind, change),
            Deed::Blocked(other) => self.tell_block(seat, other),
            Deed::Waits => writeln!(self.lines, "{seat} waits"),
            Deed::Replied => writeln!(self.lines, "{seat} replied {line}"),
        };
    }
}
