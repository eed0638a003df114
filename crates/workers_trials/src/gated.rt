//! Two calls that run at once: a Receive is answered while a Send is held between two of its steps,
//! and a Stat of the queue of that Send waits for it.

use crate::asks::{Ask, LONG};
use crate::board::{Board, LOOKS};
use crate::playing::{Deed, Plan, Script, play_well};
use std::sync::Wait;
use std::sync::atomic::AtomicUsize;
use std::sync::atomic::Ordering::SeqCst;
use std::test::Fail;
use std::time::Clock;
use step_rules::Kind;
use workers::{Gate, Open};

/// How often the flag is looked at that is to stay down.
const MORE_LOOKS: u32 = 1000;

/// The calls that come before: two queues, and six messages of 1,024 bytes on the first. The next
/// one splits the second bucket.
const BEFORE: &[(Ask, u32)] = &[
    (Ask::Get(7), 1),
    (Ask::Get(9), 1),
    (Ask::Send(2, 2, b"a"), 1),
    (Ask::Send(2, 2, b"b"), 1),
    (Ask::Receive(2, 1024), 1),
    (LONG_SEND, 6),
];

/// Each of those six, and the one that is held.
const LONG_SEND: Ask = Ask::Send(1, 1, LONG);

/// Whose calls are decided: the Receive comes before the Send that is held, and the Stat after it.
const ORDER: &[u8] = &[1, 1, 1, 1, 1, 1, 1, 1, 1, 1, 1, 2, 1, 3];

/// The flag that is up when the Send is to be held, and the kinds of its steps are looked at.
const WATCHED: u64 = 1;

/// That of the Send, which is held after its WriteOld.
const HELD: u64 = 2;

/// That of the Receive, which is answered.
const RECEIVED: u64 = 4;

/// That of the Stat, which is answered.
const TOLD: u64 = 8;

/// That of the gate, which saw the Receive answered, and after that the Stat not answered.
const IN_ORDER: u64 = 16;

/// That of the gate, which was told as many steps as the Send makes.
const ALL_TOLD: u64 = 32;

/// That of the gate, which was told another kind of step than the Send makes there.
const OTHERWISE: u64 = 64;

/// Seat 1 sends one message more, seat 2 receives from the other queue once that is held, and then
/// seat 3 asks for the state of the queue.
const SCRIPTS: &[Script] = &[
    Script {
        deeds: &[Deed::Raise(WATCHED), Deed::Call(LONG_SEND)],
        many: 2,
    },
    Script {
        deeds: &[
            Deed::Await(HELD),
            Deed::Call(Ask::Receive(2, 10)),
            Deed::Raise(RECEIVED),
        ],
        many: 3,
    },
    Script {
        deeds: &[
            Deed::Await(RECEIVED),
            Deed::Call(Ask::Stat(1)),
            Deed::Raise(TOLD),
        ],
        many: 3,
    },
];

/// The steps of the Send (docs/STEPS.md): it finds its queue and its type, and inserts the message,
/// for which its bucket is split. Then it decides, and replaces the queue, a message and the type.
const STEPS: &[&[Kind]] = &[
    NAME, FIND, FIND, TRY, SPLIT, INSERT, DECIDE, WRITE, WRITE, WRITE, END,
];

/// The queue is held.
const NAME: &[Kind] = &[Kind::Grant];

/// A record is found.
const FIND: &[Kind] = &[
    Kind::Grant,
    Kind::ReadDepth,
    Kind::ReadEntry,
    Kind::Grant,
    Kind::Release,
    Kind::Look,
    Kind::Release,
];

/// A record is to be put, and its bucket has no room.
const TRY: &[Kind] = FIND;

/// The bucket is split, which is as deep as the directory.
const SPLIT: &[Kind] = &[
    Kind::Grant,
    Kind::ReadDepth,
    Kind::ReadEntry,
    Kind::Grant,
    Kind::Look,
    Kind::TakePage,
    Kind::CopyDirectory,
    Kind::RaiseDepth,
    Kind::WriteNew,
    Kind::WriteOld,
    Kind::Retarget,
    Kind::SetCounts,
];

/// The record is put into the upper half.
const INSERT: &[Kind] = &[
    Kind::Look,
    Kind::Hop,
    Kind::Look,
    Kind::WriteRecord,
    Kind::Release,
    Kind::Release,
];

/// The call is decided.
const DECIDE: &[Kind] = &[Kind::Decide];

/// A record is replaced.
const WRITE: &[Kind] = &[
    Kind::Grant,
    Kind::ReadDepth,
    Kind::ReadEntry,
    Kind::Grant,
    Kind::Release,
    Kind::Look,
    Kind::WriteRecord,
    Kind::Release,
];

/// The queue is given back.
const END: &[Kind] = &[Kind::Release];

/// The kind of the step of this place, from 0 on, if the Send makes so many.
fn kind_at(place: usize) -> Option<Kind> {
    let mut left = place;
    for part in STEPS {
        match left.checked_sub(part.len()) {
            Some(fewer) => left = fewer,
            None => return part.get(left).copied(),
        }
    }
    None
}

/// It asks for as many steps a hold as the gate of the program. It holds seat 1 after a WriteOld, until a
/// Receive was answered, and a while longer.
#[derive(Drop)]
struct Holds<'a, R: Wait + Clock> {
    rt: &'a R,
    board: &'a Board,
    told: AtomicUsize,
}

impl<R: Wait + Clock> Gate for Holds<'_, R> {
    fn between(&self, seat: u8, kind: Kind) {
        let board = self.board;
        if seat != 1 || !board.is_up(WATCHED) {
            return;
        }
        let place = self.told.fetch_add(1, SeqCst);
        if kind_at(place) != Some(kind) {
            board.raise(OTHERWISE);
        }
        if kind_at(place.saturating_add(1)).is_none() {
            board.raise(ALL_TOLD);
        }
        if kind == Kind::WriteOld {
            board.raise(HELD);
            if board.comes_up(self.rt, RECEIVED, LOOKS)
                && !board.comes_up(self.rt, TOLD, MORE_LOOKS)
            {
                board.raise(IN_ORDER);
            }
        }
    }

    fn steps_at_once(&self) -> u32 {
        Open.steps_at_once()
    }
}

#[test]
fn a_receive_is_answered_while_a_send_is_held(rt: HostRuntime) -> Result<(), Fail> {
    let board = Board::new();
    let gate = Holds {
        rt: &rt,
        board: &board,
        told: AtomicUsize::new(0),
    };
    let plan = Plan {
        alloc: rt.alloc(),
        before: BEFORE,
        scripts: SCRIPTS,
        rounds: 1,
        board: &board,
    };
    assert_eq!(rt; play_well(&rt, 3, gate, &plan, ORDER)?, 14);
    assert!(rt; board.is_up(IN_ORDER | ALL_TOLD) && !board.is_up(OTHERWISE));
    Ok(())
}
