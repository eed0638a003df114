//! Calls with a limit of time: what waits when it is over is taken back, and what can go on in time is
//! answered.

use crate::asks::Ask;
use crate::board::Board;
use crate::playing::{Deed, Plan, Script, play_well};
use std::alloc::Global;
use std::sync::Wait;
use std::test::Fail;
use std::thread::Threads;
use std::time::Clock;
use workers::Open;

/// How often each of three seats calls.
const CALLS: usize = 400;

/// How often a Receive with time enough waits for its message.
const ROUNDS: u32 = 200;

/// The microseconds of an hour.
const HOUR: u64 = 3_600_000_000;

/// The queue of all.
const QUEUE: &[(Ask, u32)] = &[(Ask::Get(7), 1)];

/// A Receive from it.
const RECEIVE: Ask = Ask::Receive(1, 10);

/// Sends to it.
const SENDS: &[Deed] = &[Deed::Call(Ask::Send(1, 1, b"ab"))];

/// The flag that seat 1 raises when the time of its call is over.
const OVER: u64 = 1;

/// The flag that seat 2 raises when it has sent.
const SENT: u64 = 2;

/// Seat 1 receives before anything is sent, and again once seat 2 has sent.
const TAKEN_BACK: &[Script] = &[
    Script {
        deeds: &[
            Deed::CallWithin(RECEIVE, 20_000),
            Deed::Raise(OVER),
            Deed::Await(SENT),
            Deed::CallWithin(RECEIVE, 0),
        ],
        many: 4,
    },
    Script {
        deeds: &[
            Deed::Await(OVER),
            Deed::Call(Ask::Send(1, 3, b"ab")),
            Deed::Raise(SENT),
        ],
        many: 3,
    },
];

/// A Send and a Receive with an hour.
const WITH_TIME: &[Script] = &[
    Script {
        deeds: SENDS,
        many: 1,
    },
    Script {
        deeds: &[Deed::CallWithin(RECEIVE, HOUR)],
        many: 1,
    },
];

/// Receives that have 0, 100 and 200 microseconds by turns.
const HASTY: Script = Script {
    deeds: &[
        Deed::CallWithin(RECEIVE, 0),
        Deed::CallWithin(RECEIVE, 100),
        Deed::CallWithin(RECEIVE, 200),
    ],
    many: CALLS,
};

/// Sends, and such Receives at two seats.
const WITHOUT_TIME: &[Script] = &[
    Script {
        deeds: SENDS,
        many: CALLS,
    },
    HASTY,
    HASTY,
];

/// A Receive of an empty queue is taken back when its time is over, and takes no message that is sent
/// then. Where one stands a Receive is answered though it has no time to wait.
#[test]
fn a_receive_that_waits_is_taken_back_when_its_time_is_over(rt: HostRuntime) -> Result<(), Fail> {
    assert_eq!(rt; played(&rt, rt.alloc(), TAKEN_BACK, 1, &[1, 2, 1])?, (3, 1));
    Ok(())
}

/// A Receive with an hour and a Send in threads of their own, time and again: whichever comes first, the
/// message is received. Without a limit of time so it is in tests/threads.
#[test]
fn a_receive_with_time_is_answered_once_its_message_is_sent(rt: HostRuntime) -> Result<(), Fail> {
    assert_eq!(rt; played(&rt, rt.alloc(), WITH_TIME, ROUNDS, &[])?, (401, 0));
    Ok(())
}

/// Seat 1 sends, and seats 2 and 3 receive with so little time that calls are taken back while others
/// send: each is answered or taken back, and what nobody took is in the file.
#[test]
fn calls_are_answered_or_taken_back_beside_sends(rt: HostRuntime) -> Result<(), Fail> {
    let (answered, taken_back) = played(&rt, rt.alloc(), WITHOUT_TIME, 1, &[])?;
    assert_eq!(rt; answered.saturating_add(taken_back), 1201);
    Ok(())
}

/// How many calls are decided where seats play these scripts once there is queue 1, the last of them by
/// the seats of this order, and how many are taken back.
fn played<R: Threads + Wait + Clock + Sync>(
    rt: &R,
    alloc: Global,
    scripts: &'static [Script],
    rounds: u32,
    order: &[u8],
) -> Result<(u64, u64), Fail> {
    let board = Board::new();
    let plan = Plan {
        alloc,
        before: QUEUE,
        scripts,
        rounds,
        board: &board,
    };
    let answered = play_well(rt, 3, Open, &plan, order)?;
    Ok((answered as u64, board.taken_back()))
}
