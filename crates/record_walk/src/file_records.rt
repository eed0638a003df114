//! The records of a file, by their keys.

ghost use Rattle.std.specs.Prelude.{◌≡◌, ◌≤◌, IsTrue, IfErr, OnOk};
ghost use Rattle.directory.specs.Layouts.{IsLayout};
ghost use Rattle.record_walk.specs.Answers.{AnswersFor};
ghost use Rattle.record_walk.specs.Files.{HasRecords, IsSameFile, held_on, source};
ghost use Rattle.record_walk.specs.LookupWords.{IsCaused, IsOfMachine};

use crate::fault::WalkFault;
use crate::page::{page_of, read_again};
use bucket_page::{PseudoKey, RecordKey};
use directory::Layout;
use file_walk::Outline;
use page_device::{Page, PageDevice};
use std::marker::Model;

/// A device that holds a file whose structure and records are right, as they were tested. Nothing
/// is written. A clause sees the pages.
#[derive(Drop)]
pub struct FileRecords<D: PageDevice, K: PseudoKey> {
    layout: Layout,
    device: D,
    outline: Outline,
    keys: K,
}

impl<D: PageDevice, K: PseudoKey> Model for FileRecords<D, K> {
    ghost use Rattle.std.specs.Prelude.{IsTrue};
    ghost use Rattle.record_walk.specs.Files.{HasRecords, Source, source};
    ghost use Rattle.directory.specs.Layouts.{IsLayout};

    ghost Value = { Source };

    ghost view = { λ f.
        source f.layout (D.content f.device) (D.is_honest f.device) (D.fault_count f.device) };

    ghost invariant = { λ f. IsLayout f.layout × (IsTrue (D.is_honest f.device) →
        HasRecords f.layout (K.of_key f.keys) (D.content f.device) f.outline) };
}

impl<D: PageDevice, K: PseudoKey + Drop> FileRecords<D, K> {
    /// The records of the file of a layout on a device, of which this outline was kept. It holds
    /// the device until `into_device`.
    pub fn new(layout: &Layout, device: D, outline: Outline, keys: K) -> FileRecords<D, K>
        requires layout { IsLayout layout.now }
        requires records { IsTrue (D.is_honest device) →
            HasRecords layout.now (K.of_key keys) (D.content device) outline }
        ensures { result ≡
            source layout.now (D.content device) (D.is_honest device) (D.fault_count device) }
    {
        FileRecords {
            layout: *layout,
            device,
            outline,
            keys,
        }
    }

    /// The device, as it is left.
    pub fn into_device(self) -> D
        ensures { self ≡ source
            self.layout (D.content result) (D.is_honest result) (D.fault_count result) }
    {
        let FileRecords {
            layout: _,
            device,
            outline: _,
            keys: _,
        } = self;
        device
    }

    /// Reads the page of the bucket that a key belongs in, and answers its number.
    pub(crate) fn read_page_of(
        &mut self,
        key: &RecordKey,
        bytes: &mut Page,
    ) -> Result<u32, WalkFault>
        ensures ok { IsTrue self.old.honest →
            OnOk result (AnswersFor self.old.layout (held_on self.old) key.now bytes.new) }
        ensures err { IsTrue self.old.honest → IfErr result (λ fault. IsOfMachine fault) }
        ensures same { IsSameFile self.old self.new }
        ensures later { self.old.faults ≤ self.new.faults }
        ensures cause { IsCaused self.old.faults self.new.faults result }
    {
        let page = page_of(&self.outline, &self.keys, key);
        read_again(&mut self.device, page, bytes)?;
        Ok(page)
    }

    /// The layout of the file.
    pub(crate) fn layout(&self) -> Layout
        ensures { result ≡ self.now.layout }
    {
        self.layout
    }
}
