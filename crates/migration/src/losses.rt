//! What was left out of a new file, or put in the place of what is lost.

ghost use Rattle.migration.specs.Rescues.{HasNoLosses};

use queue_model::NoMemory;
use std::alloc::Global;

/// Pages that stand one behind the other.
#[derive(Clone, Copy)]
pub struct Pages {
    pub first: u32,
    pub last: u32,
}

/// What was left out of a new file, or put in the place of what is lost.
#[derive(Drop)]
pub struct Losses {
    /// Pages that can't be read, in ascending order: a transfer failed, they have not their digest,
    /// they are none of such a file, or the file ends before them.
    pub unread: Vec<Pages>,
    /// Records that are none, on pages that were read.
    pub wrong: u64,
    /// Records of queues and messages of which another stands on a lower page, which was taken.
    pub twice: u64,
    /// Queues and messages past the limits of a system (docs/QUEUES.md, "Limits").
    pub beyond: u64,
    /// Queues that were made for messages whose queue has no record, by their ids.
    pub made: Vec<u32>,
    /// Queues that are private now, since one of a lower id has their key.
    pub keyless: u64,
    /// Whether the next id is not known: then it is the first behind those of the queues.
    pub has_no_counter: bool,
}

impl Losses {
    /// Nothing is lost.
    pub(crate) fn none(alloc: Global) -> Losses
        ensures { HasNoLosses result }
    {
        Losses {
            unread: Vec::new(alloc),
            wrong: 0,
            twice: 0,
            beyond: 0,
            made: Vec::new(alloc),
            keyless: 0,
            has_no_counter: false,
        }
    }

    /// A page can't be read. Those that were told before are lower.
    pub(crate) fn lose_page(&mut self, page: u32) -> Result<(), NoMemory> {
        if let Some(pages) = self.unread.last_mut() {
            if pages.last.checked_add(1) == Some(page) {
                pages.last = page;
                return Ok(());
            }
        }
        self.unread.push(Pages {
            first: page,
            last: page,
        })?;
        Ok(())
    }
}
