//! Files of 288 pages, and operations on their records.

use bucket_page::{PseudoKey, RecordKey};
use machine_trials::Trial;
use page_device::{MemDevice, PageDevice};
use record_file::format;
use std::alloc::Global;
use step_rules::{Kind, Progress};

/// Pages of each file here.
pub const PAGES: u32 = 288;

/// The key of the one record of a new file.
pub const COUNTER: RecordKey = RecordKey {
    kind: 1,
    queue: 0,
    number: 0,
};

/// More steps than any operation makes.
pub const MOST_STEPS: u32 = 4000;

/// A trial of a new file, with a frame for each page. No page is in a frame yet.
pub fn new_file<K: PseudoKey + Drop>(alloc: Global, keys: K) -> Option<Trial<MemDevice, K>> {
    let mut device = MemDevice::new(alloc);
    if format(&mut device, PAGES).is_err() {
        return None;
    }
    Trial::open(alloc, device, PAGES as usize, keys).ok()
}

/// Steps a seat to its end. How many steps were of this kind.
pub fn count<D: PageDevice + Drop, K: PseudoKey + Drop>(
    trial: &mut Trial<D, K>,
    seat: u8,
    counted: Kind,
) -> Option<u32> {
    let mut count: u32 = 0;
    for _ in 0..MOST_STEPS {
        match trial.step(seat)? {
            Progress::Ended => return Some(count),
            Progress::Moved(kind) if kind == counted => count = count.wrapping_add(1),
            Progress::Moved(_) => {}
            _ => return None,
        }
    }
    None
}
