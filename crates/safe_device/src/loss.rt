//! What a crash makes of both files in memory.
ghost use Rattle.std.specs.Prelude.{◌≡◌, None, IfOk, OnOk};
ghost use Rattle.safe_device.specs.Memory.{FileMay, IsQuiet, MayLeave, Meets, left_of};

use crate::memory::MemPair;
use crate::snapshot::{Changes, FileChange, Pages, Snapshot, copy_journal};
use page_device::{PAGE_BYTES, Page};
use std::alloc::Global;
use std::io;

/// What a crash takes of the changes of a file that were not synced.
#[derive(Clone, Copy, PartialEq, Eq)]
pub enum Loss {
    /// None of them, as when a program is killed.
    Nothing,
    /// All of them.
    Everything,
    /// Every second one.
    EverySecond,
    /// Of each page that was written half its bytes.
    Torn,
}

impl MemPair {
    /// The files as a crash leaves them that takes so much of the file, and of the journal what was
    /// not synced, or nothing.
    #[tactic(auto, using(crate::proofs::Kept::quiet))]
    pub fn crash(
        &self,
        loss: Loss,
        keeps_journal: bool,
        transfers_left: usize,
    ) -> io::Result<MemPair>
        ensures left { IfOk result (λ after. MayLeave self.now.newest (left_of after.newest)) }
        ensures at_rest { IfOk result (λ after. after.newest.seen_journal ≡ None → IsQuiet after) }
    {
        let alloc = self.alloc;
        let file = match loss {
            Loss::Nothing => self.newest.seen_file.try_copy(alloc)?,
            _ => self.newest.lose(alloc, loss)?,
        };
        let kept = if keeps_journal {
            &self.newest.seen_journal
        } else {
            &self.newest.synced_journal
        };
        let journal = copy_journal(kept, alloc)?;
        Ok(MemPair {
            alloc,
            newest: Snapshot {
                synced_file: file.try_copy(alloc)?,
                seen_file: file,
                changes: Changes::new(alloc),
                synced_journal: copy_journal(&journal, alloc)?,
                seen_journal: journal,
            },
            past: Vec::new(alloc),
            transfers_left,
            transfers: 0,
        })
    }
}

impl MemPair {
    /// The files as the next program finds them where one was killed: nothing is lost of what was
    /// not synced, and a crash may still take it.
    pub fn killed(self, transfers_left: usize) -> MemPair
        ensures { result.newest ≡ self.newest }
    {
        MemPair {
            alloc: self.alloc,
            newest: self.newest,
            past: self.past,
            transfers_left,
            transfers: 0,
        }
    }
}

impl Snapshot {
    /// The file as it was synced, with so much of what it has met since as a crash leaves.
    fn lose(&self, alloc: Global, loss: Loss) -> io::Result<Pages>
        ensures { IfOk result (λ file. FileMay self.now.changes self.now.synced_file file) }
    {
        let mut file = self.synced_file.try_copy(alloc)?;
        for (place, change) in self.changes.items.iter().enumerate() {
            self.meet(&mut file, *change, loss.keeps(place), loss == Loss::Torn)?;
        }
        Ok(file)
    }

    /// Makes a change of the file, or not; of a page that is torn, its first half.
    fn meet(&self, file: &mut Pages, change: FileChange, keeps: bool, tears: bool) -> io::Result<()>
        ensures { OnOk result (Meets change file.old file.new) }
    {
        match change {
            FileChange::Stored(page) => {
                let mut bytes = self.byte_page(page);
                if tears {
                    bytes[PAGE_BYTES / 2..].fill(0);
                }
                if keeps || tears {
                    file.set(page, &bytes);
                }
                Ok(())
            }
            FileChange::Added => {
                if keeps {
                    return file.push(&[0; PAGE_BYTES]);
                }
                Ok(())
            }
            FileChange::Cut(pages) => {
                if keeps {
                    file.cut(pages);
                }
                Ok(())
            }
        }
    }

    /// A page as it was last written.
    fn byte_page(&self, page: u32) -> Page {
        match self.seen_file.items.get(page as usize) {
            Some(bytes) => *bytes,
            None => [0; PAGE_BYTES],
        }
    }
}

impl Loss {
    /// Whether the change at a place is kept.
    fn keeps(self, place: usize) -> bool {
        match self {
            Loss::Nothing => true,
            Loss::Everything | Loss::Torn => false,
            Loss::EverySecond => place % 2 == 1,
        }
    }
}
