//! A device one of whose transfers fails while messages are sent and received.

use crate::asks::{Ask, LONG};
use crate::board::Board;
use crate::closing::Left;
use crate::files::{is_file_of, new_file, open};
use crate::playing::{Deed, Plan, Script, play};
use page_device::{FaultyDevice, MemDevice, PageDevice, copied};
use std::alloc::Global;
use std::sync::Wait;
use std::test::Fail;
use std::thread::Threads;
use std::time::Clock;
use workers::Open;
use workers::interleavings::interleaving_core::{CloseFault, OpenFault};

/// The frames of the pool: so few that pages come and go.
const FRAMES: usize = 16;

/// The calls: two make the queue, and each message is sent and received.
const ENTRIES: usize = 82;

/// The first transfer that is made to fail: one of the last of the 352 by which the file is checked.
const FIRST: u64 = 345;

/// More transfers than one run makes.
const MOST_TRANSFERS: u64 = 100_000;

/// A device one of whose transfers fails.
type Faulty = FaultyDevice<MemDevice>;

/// A message as long as any.
const MESSAGE: Ask = Ask::Send(1, 1, LONG);

/// The queue of all is made, and may have as many bytes as any.
const QUEUE: &[(Ask, u32)] = &[(Ask::Get(7), 1), (Ask::Set(1, 65_536), 1)];

/// So it is, and the messages are sent.
const SENT: &[(Ask, u32)] = &[(Ask::Get(7), 1), (Ask::Set(1, 65_536), 1), (MESSAGE, 40)];

/// 40 messages are received.
const RECEIVES: Script = Script {
    deeds: &[Deed::Call(Ask::Receive(1, 1024))],
    many: 40,
};

/// Seat 1 does nothing more, and seat 2 receives.
const IN_TURN: &[Script] = &[
    Script {
        deeds: &[],
        many: 0,
    },
    RECEIVES,
];

/// Seat 1 sends 40 messages, and seat 2 receives.
const AT_ONCE: &[Script] = &[
    Script {
        deeds: &[Deed::Call(MESSAGE)],
        many: 40,
    },
    RECEIVES,
];

/// Calls that are made again and again, each time with a transfer failed that is so much later.
#[derive(Clone, Copy)]
struct Trial {
    before: &'static [(Ask, u32)],
    scripts: &'static [Script],
    later: u64,
}

/// 40 messages are received once all have been sent; each transfer fails in turn, from the last of
/// the check on.
#[test]
fn calls_in_turn_are_answered_or_told_that_a_step_has_failed(rt: HostRuntime) -> Result<(), Fail> {
    let trial = Trial {
        before: SENT,
        scripts: IN_TURN,
        later: 1,
    };
    fail_each(&rt, rt.alloc(), trial)
}

/// 40 messages are received while they are sent; one of five transfers fails in turn.
#[test]
fn calls_at_once_are_answered_or_told_that_a_step_has_failed(rt: HostRuntime) -> Result<(), Fail> {
    let trial = Trial {
        before: QUEUE,
        scripts: AT_ONCE,
        later: 5,
    };
    fail_each(&rt, rt.alloc(), trial)
}

/// Makes the calls of a trial again and again, until no transfer fails.
fn fail_each<R: Threads + Wait + Clock + Sync>(
    rt: &R,
    alloc: Global,
    trial: Trial,
) -> Result<(), Fail> {
    let mut file = new_file(alloc, 352)?;
    let mut nth: u64 = FIRST;
    for _ in 0..MOST_TRANSFERS {
        if !fails(rt, alloc, &mut file, nth, trial)? {
            return Ok(());
        }
        nth = nth.saturating_add(trial.later);
    }
    Err(Fail::from("each run has failed"))
}

/// Makes the calls of a trial on a copy of a file, of whose transfers this one is to fail. Whether one
/// has failed.
fn fails<R: Threads + Wait + Clock + Sync>(
    rt: &R,
    alloc: Global,
    file: &mut MemDevice,
    nth: u64,
    trial: Trial,
) -> Result<bool, Fail> {
    let device = FaultyDevice::new(copied(alloc, file)?, nth);
    let board = Board::new();
    let plan = Plan {
        alloc,
        before: trial.before,
        scripts: trial.scripts,
        rounds: 1,
        board: &board,
    };
    match open(alloc, device, 2, FRAMES) {
        Ok(prepared) => has_failed(alloc, play(rt, prepared, Open, &plan)?, board.last_failed()),
        Err((device, fault)) => has_failed_check(device, fault),
    }
}

/// Whether a transfer of the check has failed; else the file is refused for another cause.
fn has_failed_check(device: Faulty, fault: OpenFault) -> Result<bool, Fail> {
    match fault {
        OpenFault::Wrong(_) if device.faults() == 1 => Ok(true),
        _ => Err(fault.into()),
    }
}

/// Whether a transfer of a run has failed. Where a step has failed, each call from there on was told
/// so, also one that waited, and so seat 2 was the last that was; else all are answered. A transfer
/// that failed is told by then, but for one of the check before the first call, which is made once
/// more.
fn has_failed(alloc: Global, left: Left<Faulty>, told: u64) -> Result<bool, Fail> {
    let Left {
        device,
        journal,
        fault,
    } = left;
    let failed = device.faults();
    let entries = journal.len();
    let has_file = is_file_of(alloc, device.into_inner(), journal.as_slice());
    let is_right = match fault {
        None => entries == ENTRIES && has_file,
        Some(CloseFault::Device) => failed == 1 && entries == ENTRIES,
        Some(CloseFault::Failed) => failed == 1 && told == 2,
    };
    if !is_right {
        return Err(Fail::new(format_args!(
            "{failed} transfers failed, the end is {fault:?}, {entries} calls are decided",
        )));
    }
    Ok(failed != 0)
}
