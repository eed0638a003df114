//! What stands on the pages of a file, whatever is wrong with others of them.

ghost use Rattle.std.specs.Prelude.{◌≡◌, ◌≤◌, false, Err, IfErr, IfOk, IsTrue, OnOk, ⊤};
ghost use Rattle.directory.specs.Reading.{reading};
ghost use Rattle.directory.specs.declared.read.HeaderFault.TheVariants as headers;
ghost use Rattle.page_device.specs.Device.{HasRisen};
ghost use Rattle.migration.specs.Gathering.{HasRescueCause, MayHaveFailed, MayNotAdd, MissesPages};
ghost use Rattle.migration.specs.Readable.{IsPageAt, IsReadable, IsToldOfPages};

use crate::losses::Losses;
use crate::salvage_fault::SalvageFault;
use bucket_page::read_page;
use directory::{HeaderFault, read_header};
use page_device::{PAGE_BYTES, PageDevice, Payload, unseal};
use queue_model::{Body, Message, NoMemory};
use queue_records::{KeyEntry, MessageEntry, QueueEntry, Record};
use record_walk::{TestedBucket, read_tested};
use std::alloc::Global;

/// A message that was found, and the id of its queue.
#[derive(Drop)]
pub(crate) struct FoundMessage {
    pub(crate) id: u32,
    pub(crate) message: Message,
}

/// What was found on pages, of each the lowest first.
#[derive(Drop)]
pub(crate) struct Found {
    /// The greatest next id of a Counter, 0 where there is none.
    pub(crate) next_id: u32,
    pub(crate) keys: Vec<KeyEntry>,
    pub(crate) entries: Vec<QueueEntry>,
    pub(crate) messages: Vec<FoundMessage>,
    pub(crate) losses: Losses,
    /// Pages that could be read.
    read: u32,
    /// Pages of the file, as its header says, 0 where that can't be read.
    pages: u32,
}

/// What stands on the pages of a device; refused where none of them can be read.
pub(crate) fn gather<D: PageDevice>(alloc: Global, device: &mut D) -> Result<Found, SalvageFault>
    ensures same { D.content device.new ≡ D.content device.old }
    ensures honest { D.is_honest device.new ≡ D.is_honest device.old }
    ensures told { IsTrue (D.is_honest device.old) →
        IfErr result (IsToldOfPages (D.content device.old)
        (HasRisen (D.fault_count device.old) (D.fault_count device.new)) ⊤) }
    ensures cause { HasRescueCause (D.fault_count device.old) (D.fault_count device.new) result }
{
    let failed = device.faults();
    let pages = device.pages();
    let mut found = Found::new(alloc);
    for page in 0..pages {
        found.add_page(alloc, device, page)?;
    }
    if found.read == 0 {
        return Err(if device.faults() > failed {
            SalvageFault::Device
        } else if pages == 0 {
            SalvageFault::NoPage
        } else {
            SalvageFault::Unread
        });
    }
    found.lose_pages(pages)?;
    Ok(found)
}

impl Found {
    /// Nothing was found.
    fn new(alloc: Global) -> Found
        ensures { result.read ≡ 0 }
    {
        let mut losses = Losses::none(alloc);
        losses.has_no_counter = true;
        Found {
            next_id: 0,
            keys: Vec::new(alloc),
            entries: Vec::new(alloc),
            messages: Vec::new(alloc),
            losses,
            read: 0,
            pages: 0,
        }
    }

    /// The pages that the header tells of, from this on, can't be read.
    fn lose_pages(&mut self, first: u32) -> Result<(), NoMemory> {
        for page in first..self.pages {
            self.losses.lose_page(page)?;
        }
        Ok(())
    }

    /// Adds what stands on a page, or that it can't be read. A header of another version is refused.
    fn add_page<D: PageDevice>(
        &mut self,
        alloc: Global,
        device: &mut D,
        page: u32,
    ) -> Result<(), SalvageFault>
        ensures same { D.content device.new ≡ D.content device.old }
        ensures honest { D.is_honest device.new ≡ D.is_honest device.old }
        ensures later { D.fault_count device.old ≤ D.fault_count device.new }
        ensures ok { IsTrue (D.is_honest device.old) → OnOk result (self.new.read ≡ 0 →
            (self.old.read ≡ 0) × (IsReadable (D.content device.old) page →
            MayHaveFailed (D.fault_count device.old) (D.fault_count device.new))) }
        ensures err { IfErr result (MayNotAdd (D.is_honest device.old) (D.content device.old)) }
    {
        let mut bytes = [0; PAGE_BYTES];
        let Ok(()) = device.read(page, &mut bytes) else {
            return Ok(self.losses.lose_page(page)?);
        };
        let Ok(payload) = unseal(page, &bytes) else {
            return Ok(self.losses.lose_page(page)?);
        };
        let is_read = if page == 0 {
            self.add_header(&payload)?
        } else if let Some(bucket) = read_tested(&bytes) {
            self.add_records(alloc, &bucket)?;
            true
        } else {
            read_page(&payload).is_ok()
        };
        if is_read {
            self.read = self.read.saturating_add(1);
        } else {
            self.losses.lose_page(page)?;
        }
        Ok(())
    }

    /// Adds what the header says, and tells whether it is one.
    fn add_header(&mut self, payload: &Payload) -> Result<bool, SalvageFault>
        ensures ok { IfOk result (λ is. is ≡ false → IsPageAt 0 payload.now → ⊥) }
        ensures err { IfErr result (λ fault. (fault ≡ SalvageFault.BadVersion)
            × (reading payload.now ≡ Err headers.BadVersion)) }
        ensures same { self.new.read ≡ self.old.read }
    {
        match read_header(payload) {
            Ok(header) => {
                self.pages = header.pages;
                Ok(true)
            }
            Err(HeaderFault::BadHeader) => Ok(false),
            Err(HeaderFault::BadVersion) => Err(SalvageFault::BadVersion),
        }
    }

    /// Adds the records of a bucket. Those of types say nothing that messages do not say.
    fn add_records(&mut self, alloc: Global, bucket: &TestedBucket) -> Result<(), NoMemory>
        ensures { self.new.read ≡ self.old.read }
    {
        for record in bucket.records() {
            match Record::decode(&record.key, record.value) {
                Ok(Record::Counter(counter)) => {
                    self.next_id = self.next_id.max(counter.next_id);
                    self.losses.has_no_counter = false;
                }
                Ok(Record::Key(entry)) => self.keys.push(entry)?,
                Ok(Record::Queue(entry)) => self.entries.push(entry)?,
                Ok(Record::Message(entry)) => self.add_message(alloc, &entry)?,
                Ok(Record::Type(_)) => {}
                Err(_) => self.losses.wrong = self.losses.wrong.saturating_add(1),
            }
        }
        Ok(())
    }

    fn add_message(&mut self, alloc: Global, entry: &MessageEntry) -> Result<(), NoMemory>
        ensures { self.new.read ≡ self.old.read }
    {
        let bytes = Vec::from_slice(alloc, entry.body.as_slice())?;
        let message = Message {
            serial: entry.serial,
            sender: entry.sender,
            mtype: entry.mtype,
            bytes: Body::new(bytes),
        };
        self.messages.push(FoundMessage {
            id: entry.id,
            message,
        })?;
        Ok(())
    }
}
