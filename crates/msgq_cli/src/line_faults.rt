//! Which faults lines met, so that each kind is explained once.

use numbers::faults;

/// Where a kind of fault was met.
#[derive(Clone, Copy)]
pub(crate) struct Met {
    /// The first line that met it.
    pub first: u64,
    /// How many lines after it did.
    pub more: u64,
}

/// The faults that lines were replied, of each kind that a line meets by itself.
#[derive(Clone, Copy)]
pub(crate) struct LineFaults {
    /// 50.
    pub no_room: Option<Met>,
    /// 60.
    pub no_memory: Option<Met>,
    /// 61.
    pub session_full: Option<Met>,
}

impl LineFaults {
    /// No line has met one.
    pub const NONE: LineFaults = LineFaults {
        no_room: None,
        no_memory: None,
        session_full: None,
    };

    /// A line has met a fault. That of a file that failed (62) is told with what failed.
    pub fn note(&mut self, line: u64, fault: u8) {
        match fault {
            faults::NO_ROOM => self.no_room = Some(met_at(self.no_room, line)),
            faults::NO_MEMORY => self.no_memory = Some(met_at(self.no_memory, line)),
            faults::SESSION_FULL => self.session_full = Some(met_at(self.session_full, line)),
            _ => {}
        }
    }
}

/// Where a kind was met once a line more has met it.
fn met_at(met: Option<Met>, line: u64) -> Met {
    match met {
        Some(Met { first, more }) => Met {
            first,
            more: more.saturating_add(1),
        },
        None => Met {
            first: line,
            more: 0,
        },
    }
}
