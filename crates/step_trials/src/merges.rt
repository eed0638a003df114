//! A merge over the 32 pages of a directory of depth 14, of which each transfer fails. What it leaves
//! where none does stands in tests/rows (records.txt, 32).

use crate::files::{COUNTER, count, new_file};
use bucket_page::{NumberKey, RecordKey};
use machine_trials::{Trial, Value};
use page_device::{FaultyDevice, MemDevice, PAGE_BYTES, PageDevice, copied};
use record_file::Tried;
use std::alloc::Global;
use std::process::Abort;
use step_rules::{Kind, Progress};

/// The value of a record of 1,075 bytes: three fit a bucket, and a fourth does not.
const LONG: Value = Value {
    mark: 7,
    bytes: 1060,
};

/// More transfers than the delete makes.
const MOST_TRANSFERS: u64 = 500;

/// Records that are put, in this order: the first four into one bucket, which is split 14 times,
/// the others into its upper half, which is split once.
const PUT: [u32; 8] = [0, 8192, 16384, 24576, 1, 3, 5, 7];

/// Records that are deleted again. Page 258 keeps record 5 and page 272 record 7, behind a
/// directory of depth 14, and nothing is merged.
const DELETED: [u32; 2] = [1, 3];

/// The key of a record of this number. Each is of a queue of its own.
fn key(number: u32) -> RecordKey {
    RecordKey {
        kind: 5,
        queue: number,
        number: u64::from(number),
    }
}

/// The file with these, none where something else came.
fn two_halves(alloc: Global) -> Option<MemDevice> {
    let mut trial = new_file(alloc, NumberKey)?;
    let mut is_right = deletes(&mut trial, COUNTER);
    for number in PUT {
        is_right = puts(&mut trial, number) && is_right;
    }
    for number in DELETED {
        is_right = deletes(&mut trial, key(number)) && is_right;
    }
    let device = trial.close().ok()?;
    is_right.then_some(device)
}

/// Whether a long record is put.
fn puts(trial: &mut Trial<MemDevice, NumberKey>, number: u32) -> bool {
    let Some(seat) = trial.insert(key(number), LONG) else {
        return false;
    };
    count(trial, seat, Kind::WriteRecord).is_some() && trial.tried(seat) == Some(Tried::IsPut)
}

/// Whether a record is deleted, and nothing is merged by that.
fn deletes(trial: &mut Trial<MemDevice, NumberKey>, key: RecordKey) -> bool {
    let Some(seat) = trial.delete(key) else {
        return false;
    };
    count(trial, seat, Kind::Tombstone) == Some(0) && trial.found(seat).is_some()
}

/// Deletes record 7. A step may fail, once, and is made again. None where another fault came, or
/// it did not end.
fn delete_once_more<D: PageDevice + Drop>(trial: &mut Trial<D, NumberKey>) -> Option<u64> {
    let mut failed: u64 = 0;
    let seat = trial.delete(key(7))?;
    for _ in 0..1000 {
        match trial.step(seat)? {
            Progress::Moved(_) => {}
            Progress::Fault(fault) if failed == 0 && fault.number() == 20 => failed = 1,
            Progress::Ended if trial.found(seat) == Some((272, Some(1060))) => return Some(failed),
            _ => return None,
        }
    }
    None
}

/// Whether two devices have the same pages.
fn are_same(one: &mut MemDevice, other: &mut MemDevice) -> bool {
    if one.pages() != other.pages() {
        return false;
    }
    let mut pages = [[0; PAGE_BYTES]; 2];
    for number in 0..one.pages() {
        if one.read(number, &mut pages[0]).is_err() || other.read(number, &mut pages[1]).is_err() {
            return false;
        }
        if pages[0] != pages[1] {
            return false;
        }
    }
    true
}

/// How many transfers of the delete fail where its nth is to, and the file that it leaves, none where
/// the closing fails. None at all where another fault came.
fn merged(alloc: Global, device: &mut MemDevice, nth: u64) -> Option<(u64, Option<MemDevice>)> {
    let faulty = FaultyDevice::new(copied(alloc, device).ok()?, nth);
    let mut trial = Trial::open(alloc, faulty, 12, NumberKey).ok()?;
    let failed = delete_once_more(&mut trial)?;
    if failed != trial.faults() {
        return None;
    }
    let left = trial.close().ok().map(FaultyDevice::into_inner);
    Some((failed, left))
}

/// Whether the nth transfer of the delete fails and the file is left that comes where none does. None
/// where it is not of the delete: then it is that of the closing, which fails.
fn is_met(alloc: Global, device: &mut MemDevice, wanted: &mut MemDevice, nth: u64) -> Option<bool> {
    match merged(alloc, device, nth) {
        Some((1, Some(left))) => {
            let mut left = left;
            Some(are_same(&mut left, wanted))
        }
        Some((0, None)) => None,
        _ => Some(false),
    }
}

/// How many transfers of the delete failed in turn, each of which left the file that comes where
/// none fails; that of the closing is behind them.
fn met(alloc: Global) -> Option<u64> {
    let mut device = two_halves(alloc)?;
    let mut wanted = merged(alloc, &mut device, 0)?.1?;
    for nth in 1..=MOST_TRANSFERS {
        match is_met(alloc, &mut device, &mut wanted, nth) {
            Some(true) => {}
            Some(false) => return None,
            None => return Some(nth.wrapping_sub(1)),
        }
    }
    None
}

/// The header, 32 pages of the directory, two buckets, and the free page behind them.
#[test]
fn each_transfer_of_a_merge_fails_in_turn(rt: HostRuntime) {
    let met = met(rt.alloc()).unwrap_or(0);
    assert!(rt; met >= 35, "{met} transfers");
}
