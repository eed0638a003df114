//! Rounds after a schedule: an event a seat, in order of seats, until all lines are replied.

ghost use Rattle.std.specs.Prelude.{◌≡◌, false};
ghost use Rattle.replays.specs.Rounds.{IsRound, MakesRounds, has_moved, is_over};

use crate::deed::Deed;
use crate::onlooker::Onlooker;
use crate::replay::{MOST_STEPS, Replay};
use page_device::PageDevice;

/// Makes rounds until no line is left, and tells whether none is.
///
/// Where a round moves no seat the system is stopped, once, so that calls that wait are answered;
/// where a round after that moves none, a line stays that nobody can finish. There are at most
/// 4,000,000 rounds a line.
pub(crate) fn finish<D: PageDevice + Drop, O: Onlooker>(
    replay: &mut Replay<D>,
    onlooker: &mut O,
) -> bool
    ensures rounds { MakesRounds replay.old replay.new }
    ensures over { result ≡ is_over replay.new }
{
    let most = (replay.lines() as u128) * u128::from(MOST_STEPS);
    let mut stopped = false;
    for _ in 0..most {
        if replay.is_at_end() {
            return true;
        }
        if round(replay, onlooker) {
            continue;
        }
        if stopped {
            return false;
        }
        replay.stop(onlooker);
        stopped = true;
    }
    replay.is_at_end()
}

/// An event of each seat. Tells whether one has moved.
fn round<D: PageDevice + Drop, O: Onlooker>(replay: &mut Replay<D>, onlooker: &mut O) -> bool
    requires { is_over replay.old ≡ false }
    ensures { IsRound result replay.old replay.new }
{
    let mut moves = false;
    for place in 0..replay.seats() {
        moves |= has_moved(replay.event(place + 1, onlooker));
    }
    moves
}

/// Whether an event has moved its seat.
fn has_moved(did: Deed) -> bool
    ensures { result ≡ has_moved did }
{
    match did {
        Deed::Nothing | Deed::Blocked(_) | Deed::Waits => false,
        Deed::Begun | Deed::Moved(_) | Deed::Replied => true,
    }
}
