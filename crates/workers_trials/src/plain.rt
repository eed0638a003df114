//! A journal beside plain lists, asked one call at a time, and beside the lists of seats.

use queue_model::{Applied, Caller, Entry, System};
use std::alloc::Global;

/// The system after a journal, where each of its answers is that of plain lists which were asked the
/// calls before it. The pid of a caller is the number of its seat.
pub fn replayed(alloc: Global, journal: &[Entry]) -> Option<System> {
    let mut system = System::empty(alloc);
    for entry in journal {
        if !follows(&mut system, entry) {
            return None;
        }
    }
    Some(system)
}

/// Whether an entry is what plain lists answer now.
fn follows(system: &mut System, entry: &Entry) -> bool {
    match entry {
        Entry::Stopped => {
            system.stop();
            true
        }
        Entry::Decided { seat, call, answer } => {
            let caller = Caller {
                pid: u32::from(*seat),
                uid: 0,
                gid: 0,
            };
            match system.apply(caller, call) {
                Applied::Answer(given) => given == *answer,
                Applied::Waits | Applied::NoMemory => false,
            }
        }
    }
}

/// Whether two systems have the same queues, as Stat tells of them.
pub fn have_same_queues(one: &System, other: &System) -> bool {
    let queues = one.queues();
    other.queues() == queues && (0..queues).all(|place| one.info(place) == other.info(place))
}

/// How many calls a journal has.
pub fn calls(journal: &[Entry]) -> usize {
    journal
        .iter()
        .filter(|entry| !matches!(entry, Entry::Stopped))
        .count()
}

/// Whether a list is the part of a seat in a journal, in its order, but for so many entries that are
/// the last of the part.
pub fn is_part(journal: &[Entry], seat: u8, list: &[Entry], more: usize) -> bool {
    let mut left = more;
    let mut told: usize = 0;
    for entry in journal {
        if is_of(entry, seat) {
            match list.get(told) {
                Some(its) => {
                    if its != entry {
                        return false;
                    }
                    told = told.saturating_add(1);
                }
                None => match left.checked_sub(1) {
                    Some(fewer) => left = fewer,
                    None => return false,
                },
            }
        }
    }
    told == list.len()
}

/// Whether the last calls of a journal are those of these seats, in this order.
pub fn ends_with(journal: &[Entry], seats: &[u8]) -> bool {
    let first = journal.len().saturating_sub(seats.len());
    for (place, seat) in seats.iter().enumerate() {
        match journal.get(first.saturating_add(place)) {
            Some(entry) => {
                if !is_of(entry, *seat) {
                    return false;
                }
            }
            None => return false,
        }
    }
    true
}

/// Whether an entry is one of a seat's calls.
fn is_of(entry: &Entry, seat: u8) -> bool {
    match entry {
        Entry::Decided { seat: other, .. } => *other == seat,
        Entry::Stopped => false,
    }
}
