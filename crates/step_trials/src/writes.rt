//! A write whose page leaves its frame behind the step that looked at it, while each transfer fails in turn.

use crate::files::{COUNTER, PAGES, count};
use bucket_page::NumberKey;
use machine_trials::Trial;
use page_device::{FaultyDevice, MemDevice, PageDevice};
use queue_records::{Counter, Record};
use record_file::format;
use std::alloc::Global;
use std::process::Abort;
use step_rules::{Kind, Progress};
use xsi_inquiry::Write;

/// The frames of the pool.
const FRAMES: usize = 12;

/// What the Counter becomes.
const CHANGED: Counter = Counter {
    next_id: 2,
    queues_alive: 1,
};

/// Changes the Counter. Behind the step that looks at its page others take all frames. A step that
/// failed is made once more. How many transfers failed; none where another fault came, or it did not
/// end.
fn change_once_more(trial: &mut Trial<FaultyDevice<MemDevice>, NumberKey>) -> Option<u64> {
    let seat = trial.write(COUNTER, &Write::Replace(Record::Counter(CHANGED)))?;
    let mut failed: u64 = 0;
    for _ in 0..100 {
        match trial.step(seat)? {
            Progress::Moved(Kind::Look) => failed = failed.wrapping_add(fill_frames(trial)),
            Progress::Moved(_) => {}
            Progress::Fault(fault) if fault.number() == 20 => failed = failed.wrapping_add(1),
            Progress::Ended => return Some(failed),
            _ => return None,
        }
    }
    None
}

/// Reads as many pages of the directory as there are frames. How many of these reads failed.
fn fill_frames(trial: &mut Trial<FaultyDevice<MemDevice>, NumberKey>) -> u64 {
    let mut failed: u64 = 0;
    for page in 2..=13 {
        if trial.payload(page).is_err() {
            failed = failed.wrapping_add(1);
        }
    }
    failed
}

/// Whether the Counter of a file is the changed one.
fn is_changed(alloc: Global, device: MemDevice) -> bool {
    let Ok(mut trial) = Trial::open(alloc, device, FRAMES, NumberKey) else {
        return false;
    };
    let Some(seat) = trial.ask(COUNTER) else {
        return false;
    };
    count(&mut trial, seat, Kind::Look) == Some(1)
        && trial.told(seat) == Some(Some(Record::Counter(CHANGED)))
}

/// How many transfers failed where the nth of this change is to fail, and whether the file is closed
/// and has it.
fn left_by(alloc: Global, nth: u64) -> Option<(u64, bool)> {
    let mut device = MemDevice::new(alloc);
    if format(&mut device, PAGES).is_err() {
        return None;
    }
    let mut trial = Trial::open(alloc, FaultyDevice::new(device, nth), FRAMES, NumberKey).ok()?;
    let failed = change_once_more(&mut trial)?;
    if failed != trial.faults() {
        return None;
    }
    match trial.close() {
        Ok(left) => Some((failed, is_changed(alloc, left.into_inner()))),
        Err(_) => Some((failed, false)),
    }
}

/// The header, the directory's page and the bucket are read, twelve others, and the bucket once more,
/// where it is written. Behind these the closing is to fail.
#[test]
fn a_write_whose_page_can_not_be_read_again_is_made_once_more(rt: HostRuntime) {
    for nth in 1..=16 {
        assert!(rt;
            left_by(rt.alloc(), nth) == Some((1, true)),
            "transfer {nth}"
        );
    }
    assert!(rt; left_by(rt.alloc(), 17) == Some((0, false)));
    assert!(rt; left_by(rt.alloc(), 0) == Some((0, true)));
}
