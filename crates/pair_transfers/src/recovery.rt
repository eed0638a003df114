//! A recovery, act by act.
ghost use Rattle.std.specs.Prelude.{◌≡◌, true, IfErr, IfOk, Ok, OnErr, OnOk};
ghost use Rattle.pair_transfers.specs.Recovering.{begun, behind, next_act};
ghost use Rattle.pair_transfers.specs.declared.recovery.RecoverFault.TheVariants.{Device};
ghost use Rattle.pair_transfers.specs.declared.recovery.RecoveryPlace.TheVariants.{Failed};
ghost use Rattle.pair_transfers.specs.declared.recovery.Seen.TheVariants.{Whole};

use safe_device::FoundJournal;
use thiserror::Error;

/// What stands in a journal when its file is opened.
#[derive(Clone, Copy)]
pub enum Seen {
    /// No whole journal.
    Nothing,
    /// One of this file, which has so many pages.
    Whole(FoundJournal, u32),
    /// One of another file, or one that names pages which this one does not have.
    Foreign,
    /// One of another version.
    OtherVersion,
}

/// What is done of a recovery.
#[derive(Clone, Copy)]
pub enum RecoveryAct {
    /// The journal is synced.
    SyncJournal,
    /// The file is ended after its first so many pages.
    Cut(u32),
    /// This image of the journal, counted from 0, is written over its page.
    PutBack(u32),
    /// The file is synced.
    SyncFile,
    /// The images of the journal are let go, and its calls stay.
    EndImages,
    /// The journal is ended.
    End,
}

/// Where a recovery has come to.
#[derive(Clone, Copy)]
pub enum RecoveryPlace {
    /// Nothing is to be put back.
    Resting,
    /// The same, and the file outlasts a crash.
    Settled,
    /// Images are to be put back, or pages to be cut off.
    Found,
    /// The journal outlasts a crash.
    Durable,
    /// So many images are in their places.
    Putting(u32),
    /// The file is as it was, and outlasts a crash.
    Restored,
    /// The images are let go.
    Cleared,
    /// All is done.
    Recovered,
    /// A transfer has failed.
    Failed,
}

/// Why a file is not brought back to its last sync.
#[derive(Clone, Copy, Debug, PartialEq, Eq, Error)]
pub enum RecoverFault {
    /// A transfer failed. It may be tried again.
    #[error("the file or its journal could not be read or written")]
    Device,
    /// The journal is of another file, or damaged. Nothing was written.
    #[error("its journal is of another file")]
    Foreign,
    /// The journal is of another version. Nothing was written.
    #[error("its journal is of another version")]
    OtherVersion,
}

/// A recovery of a file from its journal.
#[derive(Clone, Copy)]
pub struct Recovery {
    pub place: RecoveryPlace,
    /// What the journal says of itself.
    pub found: FoundJournal,
}

/// What a journal says that is none.
const NO_JOURNAL: FoundJournal = FoundJournal {
    count: 0,
    calls: 0,
    images: 0,
};

impl Recovery {
    /// A recovery of which nothing is done yet, where there is one to be made.
    pub fn begin(seen: Seen) -> Result<Recovery, RecoverFault>
        ensures { result ≡ begun seen }
    {
        match seen {
            Seen::Nothing => Ok(Recovery {
                place: RecoveryPlace::Resting,
                found: NO_JOURNAL,
            }),
            Seen::Whole(found, pages) => Ok(Recovery::of(found, pages)),
            Seen::Foreign => Err(RecoverFault::Foreign),
            Seen::OtherVersion => Err(RecoverFault::OtherVersion),
        }
    }

    /// That of a journal which was found. Where calls alone stand behind the pages nothing is put back.
    fn of(found: FoundJournal, pages: u32) -> Recovery
        ensures { Ok result ≡ begun (Whole found pages) }
    {
        let has_calls = found.calls > 0;
        if has_calls && found.images == 0 && found.count == pages {
            return Recovery {
                place: RecoveryPlace::Resting,
                found,
            };
        }
        Recovery {
            place: RecoveryPlace::Found,
            found,
        }
    }

    /// What is to be done next; none where all is done.
    pub fn next(&self) -> Result<Option<RecoveryAct>, RecoverFault>
        ensures ok { IfOk result (λ act. act ≡ next_act self.now.found self.now.place) }
        ensures err { IfErr result (λ fault. fault ≡ Device) }
    {
        match self.place {
            RecoveryPlace::Resting => Ok(Some(RecoveryAct::SyncFile)),
            RecoveryPlace::Settled | RecoveryPlace::Found | RecoveryPlace::Cleared => {
                Ok(Some(RecoveryAct::SyncJournal))
            }
            RecoveryPlace::Durable => Ok(Some(RecoveryAct::Cut(self.found.count))),
            RecoveryPlace::Putting(index) if index < self.found.images => {
                Ok(Some(RecoveryAct::PutBack(index)))
            }
            RecoveryPlace::Putting(_) => Ok(Some(RecoveryAct::SyncFile)),
            RecoveryPlace::Restored if self.found.calls > 0 => Ok(Some(RecoveryAct::EndImages)),
            RecoveryPlace::Restored => Ok(Some(RecoveryAct::End)),
            RecoveryPlace::Recovered => Ok(None),
            RecoveryPlace::Failed => Err(RecoverFault::Device),
        }
    }

    /// It was done, or has failed.
    pub fn told(&mut self, is_done: bool) -> Result<(), RecoverFault>
        ensures ok { OnOk result (self.new ≡
            record self.old { place = behind self.old.found self.old.place }) }
        ensures done { OnOk result (is_done ≡ true) }
        ensures failed { OnErr result (self.new.place ≡ Failed) }
        ensures err { IfErr result (λ fault. fault ≡ Device) }
    {
        if !is_done {
            self.place = RecoveryPlace::Failed;
            return Err(RecoverFault::Device);
        }
        self.place = self.behind();
        Ok(())
    }

    /// Where it has come to once that is done.
    fn behind(&self) -> RecoveryPlace
        ensures { result ≡ behind self.now.found self.now.place }
    {
        match self.place {
            RecoveryPlace::Resting => RecoveryPlace::Settled,
            RecoveryPlace::Found => RecoveryPlace::Durable,
            RecoveryPlace::Durable => RecoveryPlace::Putting(0),
            RecoveryPlace::Putting(index) if index < self.found.images => {
                RecoveryPlace::Putting(index + 1)
            }
            RecoveryPlace::Putting(_) => RecoveryPlace::Restored,
            RecoveryPlace::Restored => RecoveryPlace::Cleared,
            RecoveryPlace::Settled | RecoveryPlace::Cleared | RecoveryPlace::Recovered => {
                RecoveryPlace::Recovered
            }
            RecoveryPlace::Failed => RecoveryPlace::Failed,
        }
    }
}
