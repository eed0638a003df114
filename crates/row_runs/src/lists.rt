//! Plain lists, which are asked what the journals of a file say, one call at a time.

use crate::line::Line;
use page_locks::MAX_SEATS;
use queue_model::{Answer, Applied, Call, Caller, Entry, System};
use std::alloc::Global;

/// Who sits at the seats, and the system after all entries so far.
#[derive(Drop)]
pub struct Lists {
    callers: [Caller; MAX_SEATS as usize],
    system: System,
}

/// User 0 at no seat.
const ROOT: Caller = Caller {
    pid: 0,
    uid: 0,
    gid: 0,
};

impl Lists {
    /// No queues. At each seat sits a process of its number, of user 0.
    pub fn new(alloc: Global) -> Lists {
        let mut callers = [ROOT; MAX_SEATS as usize];
        let mut pid: u32 = 0;
        for caller in callers.iter_mut() {
            pid = pid.saturating_add(1);
            caller.pid = pid;
        }
        Lists {
            callers,
            system: System::empty(alloc),
        }
    }

    /// Another user sits at a seat.
    pub fn seat(&mut self, seat: u8, uid: u32, gid: u32) {
        let Some(place) = usize::from(seat).checked_sub(1) else {
            return;
        };
        if let Some(caller) = self.callers.get_mut(place) {
            caller.uid = uid;
            caller.gid = gid;
        }
    }

    /// Who sits at seat 1.
    pub fn root(&self) -> Caller {
        self.callers[0]
    }

    /// Who sits at the first seats, as many as these.
    pub fn callers(&self, seats: u8) -> &[Caller] {
        self.callers.get(..usize::from(seats)).unwrap_or(&[])
    }

    /// Tells how many entries a journal has, and whether each is what plain lists answer. They go
    /// on as it says.
    pub fn tell(&mut self, journal: &[Entry], line: &mut Line) {
        line.number(journal.len() as u64);
        line.word("entries");
        for entry in journal {
            if !self.follows(entry) {
                return line.word("unlike plain lists");
            }
        }
    }

    /// Whether an entry is what plain lists answer now.
    fn follows(&mut self, entry: &Entry) -> bool {
        match entry {
            Entry::Stopped => {
                self.system.stop();
                true
            }
            Entry::Decided { seat, call, answer } => self.answers(*seat, call, answer),
        }
    }

    /// Whether plain lists give this answer to a call of a seat.
    fn answers(&mut self, seat: u8, call: &Call, answer: &Answer) -> bool {
        match self.callers(seat).last() {
            Some(caller) => {
                let caller = *caller;
                is_answer(&self.system.apply(caller, call), answer)
            }
            None => false,
        }
    }
}

/// Whether plain lists gave this answer.
fn is_answer(applied: &Applied, answer: &Answer) -> bool {
    match applied {
        Applied::Answer(given) => given == answer,
        Applied::Waits | Applied::NoMemory => false,
    }
}
