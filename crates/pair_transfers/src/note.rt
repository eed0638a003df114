//! A note of calls, act by act.
ghost use Rattle.std.specs.Prelude.{◌≡◌, true, IfErr, IfOk, OnErr, OnOk};
ghost use Rattle.pair_transfers.specs.Noting.{behind_note, next_of_note};
ghost use Rattle.pair_transfers.specs.declared.note.NotePlace.TheVariants.{Failed, Unnoted};
ghost use Rattle.pair_transfers.specs.declared.save.SaveFault.TheVariants.{Device};

use crate::save::SaveFault;

/// What is done of a note.
#[derive(Clone, Copy)]
pub enum NoteAct {
    /// The calls are added to the journal.
    Add,
    /// The journal is synced.
    Sync,
}

/// Where a note has come to.
#[derive(Clone, Copy)]
pub enum NotePlace {
    /// Nothing is done.
    Unnoted,
    /// The calls stand in the journal.
    Added,
    /// They outlast a crash.
    Noted,
    /// A transfer has failed. The file is to be opened anew.
    Failed,
}

/// A note of calls in the journal of a file.
#[derive(Clone, Copy)]
pub struct Note {
    pub place: NotePlace,
}

impl Note {
    /// A note of which nothing is done yet.
    pub fn begin() -> Note
        ensures { result ≡ record { place = Unnoted } }
    {
        Note {
            place: NotePlace::Unnoted,
        }
    }

    /// What is to be done next; none where all is done.
    pub fn next(&self) -> Result<Option<NoteAct>, SaveFault>
        ensures ok { IfOk result (λ act. act ≡ next_of_note self.now.place) }
        ensures err { IfErr result (λ fault. fault ≡ Device) }
    {
        match self.place {
            NotePlace::Unnoted => Ok(Some(NoteAct::Add)),
            NotePlace::Added => Ok(Some(NoteAct::Sync)),
            NotePlace::Noted => Ok(None),
            NotePlace::Failed => Err(SaveFault::Device),
        }
    }

    /// It was done, or has failed.
    pub fn told(&mut self, is_done: bool) -> Result<(), SaveFault>
        ensures ok { OnOk result (self.new ≡ record { place = behind_note self.old.place }) }
        ensures done { OnOk result (is_done ≡ true) }
        ensures failed { OnErr result (self.new.place ≡ Failed) }
        ensures err { IfErr result (λ fault. fault ≡ Device) }
    {
        if !is_done {
            self.place = NotePlace::Failed;
            return Err(SaveFault::Device);
        }
        self.place = match self.place {
            NotePlace::Unnoted => NotePlace::Added,
            NotePlace::Added | NotePlace::Noted => NotePlace::Noted,
            NotePlace::Failed => NotePlace::Failed,
        };
        Ok(())
    }
}
