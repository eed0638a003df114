//! Finds that go straight to a page, and writes that are made in one go: only once each of their pages is in
//! a frame. That they tell and leave what their steps do stands in tests/driven.

use crate::files::{COUNTER, new_file};
use bucket_page::NumberKey;
use machine_trials::Trial;
use page_device::MemDevice;
use queue_records::{Counter, Record};
use std::process::Abort;
use step_rules::Progress;
use xsi_inquiry::Write;

/// A file of trials.
type File = Trial<MemDevice, NumberKey>;

/// The Counter of a new file.
const NEW: Counter = Counter {
    next_id: 1,
    queues_alive: 0,
};

/// What it becomes.
const CHANGED: Counter = Counter {
    next_id: 2,
    queues_alive: 1,
};

/// Whether a find goes straight to its page once this one is in a frame, too.
fn heads_behind(trial: &mut File, page: u32, at_once: bool) -> bool {
    trial.payload(page).is_ok() && trial.heads_for(COUNTER) == at_once.then_some(257)
}

/// Whether a find waits for each of its pages, and then reads the Counter there.
fn heads_in_turn(trial: &mut File) -> bool {
    trial.heads_for(COUNTER).is_none()
        && heads_behind(trial, 0, false)
        && heads_behind(trial, 1, false)
        && heads_behind(trial, 257, true)
        && trial.ahead(257, &COUNTER) == Some(Some(Record::Counter(NEW)))
}

#[test]
fn a_find_waits_for_each_of_its_pages_to_be_in_a_frame(rt: HostRuntime) {
    let Some(mut trial) = new_file(rt.alloc(), NumberKey) else {
        panic!(rt; "no file");
    };
    assert!(rt; heads_in_turn(&mut trial));
}

/// Whether a write is made in one go once this page is in a frame, too.
fn writes_behind(trial: &mut File, seat: u8, page: u32, at_once: bool) -> bool {
    let is_read = trial.payload(page).is_ok();
    match trial.write_through(seat) {
        Some(Ok(made)) => is_read && made == at_once,
        _ => false,
    }
}

/// Whether a write waits for each of its pages. Once it is made it has ended.
fn writes_in_turn(trial: &mut File) -> bool {
    let write = Write::Replace(Record::Counter(CHANGED));
    let Some(seat) = trial.write(COUNTER, &write) else {
        return false;
    };
    matches!(trial.write_through(seat), Some(Ok(false)))
        && writes_behind(trial, seat, 0, false)
        && writes_behind(trial, seat, 1, false)
        && writes_behind(trial, seat, 257, true)
        && matches!(trial.write_through(seat), Some(Ok(false)))
        && trial.step(seat) == Some(Progress::Ended)
}

#[test]
fn a_write_waits_for_each_of_its_pages_to_be_in_a_frame(rt: HostRuntime) {
    let Some(mut trial) = new_file(rt.alloc(), NumberKey) else {
        panic!(rt; "no file");
    };
    assert!(rt; writes_in_turn(&mut trial));
}
