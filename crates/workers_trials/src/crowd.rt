//! Many threads at once, with as many steps a hold as a gate may ask for: what each was told is its part
//! of the journal, which plain lists answer the same, and the file that is left is right. With one
//! step a hold many threads stand in tests/threads.

use crate::asks::Ask;
use crate::board::Board;
use crate::playing::{Deed, Plan, Script, play_well};
use std::test::Fail;
use step_rules::Kind;
use workers::{Gate, MOST_AT_ONCE};

/// A gate that asks for as many steps a hold as any.
#[derive(Drop)]
struct Wide;

impl Gate for Wide {
    fn between(&self, _seat: u8, _kind: Kind) {}

    fn steps_at_once(&self) -> u32 {
        MOST_AT_ONCE
    }
}

/// The queue is for some messages only.
const QUEUE: &[(Ask, u32)] = &[(Ask::Get(1), 1), (Ask::Set(1, 5000), 1)];

/// Each seat sends 20 messages and receives as many, by turns.
const SCRIPTS: &[Script] = &[Script {
    deeds: &[
        Deed::Call(Ask::Send(1, 1, b"ab")),
        Deed::Call(Ask::Receive(1, 1024)),
    ],
    many: 40,
}; 64];

/// Each seat sends a message to queue 1 and receives one, by turns.
#[test]
fn sixty_four_seats_send_and_receive_on_one_queue(rt: HostRuntime) -> Result<(), Fail> {
    let board = Board::new();
    let plan = Plan {
        alloc: rt.alloc(),
        before: QUEUE,
        scripts: SCRIPTS,
        rounds: 1,
        board: &board,
    };
    assert_eq!(rt; play_well(&rt, 64, Wide, &plan, &[])?, 2562);
    Ok(())
}
