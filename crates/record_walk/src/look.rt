//! The looks of a walk.

ghost use Rattle.std.specs.Prelude.{◌≡◌};

use crate::fault::WalkFault;
use crate::file_records::FileRecords;
use crate::page::value_in;
use crate::records::{Linked, MessageLinks, Records};
use crate::values::record_in;
use crate::versions::is_spelled_in;
use bucket_page::PseudoKey;
use page_device::{PAGE_BYTES, PageDevice};
use queue_model::{Body, Message};
use queue_records::{Counter, QueueEntry, Record, counter_key, message_key, queue_key};
use std::alloc::Global;

impl<D: PageDevice, K: PseudoKey + Drop> Records for FileRecords<D, K> {
    ghost use Rattle.record_walk.specs.Files.{held_on};

    ghost held = { held_on };

    ghost pages = { λ f. f.content };

    ghost is_honest = { λ f. f.honest };

    ghost fault_count = { λ f. f.faults };

    fn counter(&mut self) -> Result<Option<Counter>, WalkFault> {
        let key = counter_key();
        let layout = self.layout();
        let mut bytes = [0; PAGE_BYTES];
        let page = self.read_page_of(&key, &mut bytes)?;
        match record_in(&layout, &bytes, page, &key)? {
            Some(Record::Counter(counter)) => Ok(Some(counter)),
            Some(_) => Ok(None),
            None => Ok(None),
        }
    }

    fn queue(&mut self, id: u32) -> Result<Option<QueueEntry>, WalkFault> {
        let key = queue_key(id);
        let layout = self.layout();
        let mut bytes = [0; PAGE_BYTES];
        let page = self.read_page_of(&key, &mut bytes)?;
        match record_in(&layout, &bytes, page, &key)? {
            Some(Record::Queue(queue)) => Ok(Some(queue)),
            Some(_) => Ok(None),
            None => Ok(None),
        }
    }

    fn message(
        &mut self,
        alloc: Global,
        id: u32,
        serial: u64,
    ) -> Result<Option<Linked>, WalkFault> {
        let key = message_key(id, serial);
        let layout = self.layout();
        let mut bytes = [0; PAGE_BYTES];
        let page = self.read_page_of(&key, &mut bytes)?;
        match record_in(&layout, &bytes, page, &key)? {
            Some(Record::Message(message)) => Ok(Some(Linked {
                message: Message {
                    serial: message.serial,
                    sender: message.sender,
                    mtype: message.mtype,
                    bytes: Body::new(Vec::from_slice(alloc, message.body.as_slice())?),
                },
                links: MessageLinks {
                    previous: message.previous,
                    next: message.next,
                    next_of_type: message.next_of_type,
                },
            })),
            Some(_) => Ok(None),
            None => Ok(None),
        }
    }

    fn holds(&mut self, wanted: &Record) -> Result<bool, WalkFault> {
        let key = wanted.key();
        let layout = self.layout();
        let mut bytes = [0; PAGE_BYTES];
        let page = self.read_page_of(&key, &mut bytes)?;
        match value_in(&layout, &bytes, page, &key)? {
            Some(value) => Ok(is_spelled_in(&layout, wanted, value)),
            None => Ok(false),
        }
    }
}
