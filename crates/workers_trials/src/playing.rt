//! Seats of a service at their calls, each in a thread of its own.

ghost use Rattle.std.specs.Prelude.{◌≡◌, ◌≤◌};
ghost use Rattle.bucket_page.specs.Pseudokeys.{number_key};
ghost use Rattle.workers.specs.Opening.{origin_of};

use crate::asks::Ask;
use crate::board::{Board, LOOKS};
use crate::closing::{Left, close, shown};
use crate::files::{SEATS, is_file_of, prepared};
use crate::plain::ends_with;
use bucket_page::NumberKey;
use page_device::PageDevice;
use std::alloc::Global;
use std::marker::Brand;
use std::sync::Wait;
use std::test::Fail;
use std::thread;
use std::thread::Threads;
use std::time::{Clock, Duration, Instant};
use workers::{Base, Fault, Gate, Prepared, Room, Seat, Service, Started, Unanswered};

/// What a seat does next.
#[derive(Clone, Copy)]
pub enum Deed {
    /// It makes a call, and waits for its answer.
    Call(Ask),
    /// It makes a call, and waits for its answer so many microseconds at most.
    CallWithin(Ask, u64),
    /// It waits for this flag to come up, but not for ever.
    Await(u64),
    /// It raises this flag.
    Raise(u64),
}

/// What a seat does in a thread of its own.
#[derive(Clone, Copy)]
pub struct Script {
    /// Its deeds, which it does by turns.
    pub deeds: &'static [Deed],
    /// How often it does one.
    pub many: usize,
}

impl Script {
    /// Which of its deeds it does when it has done so many.
    fn deed(self, done: usize) -> Option<Deed> {
        self.deeds.get(done.checked_rem(self.deeds.len())?).copied()
    }
}

/// What seats do.
#[derive(Clone, Copy)]
pub struct Plan<'a> {
    /// Where memory is taken.
    pub alloc: Global,
    /// The calls that seat 1 makes before the others begin, each so often.
    pub before: &'static [(Ask, u32)],
    /// What each seat does, from seat 1 on.
    pub scripts: &'static [Script],
    /// How often they play, each time once all have done it.
    pub rounds: u32,
    /// What they show one another.
    pub board: &'a Board,
}

/// A service of trials.
pub type Shared<D, G, N> = Service<D, NumberKey, G, N>;

/// Plays a plan on a new file. Tells how many calls were decided, the last of them by these seats in
/// this order. The service was closed well, and the file that is left is that of the journal.
pub fn play_well<G: Gate + Drop + Send + Sync, R: Threads + Wait + Clock + Sync>(
    rt: &R,
    seats: u8,
    gate: G,
    plan: &Plan<'_>,
    order: &[u8],
) -> Result<usize, Fail>
    requires some { 1 ≤ seats }
    requires few { seats ≤ 64 }
{
    let prepared = prepared(plan.alloc, 352, seats)?;
    let Left {
        device,
        journal,
        fault,
    } = play(rt, prepared, gate, plan)?;
    let has_file = is_file_of(plan.alloc, device, journal.as_slice());
    if has_file && fault.is_none() && ends_with(journal.as_slice(), order) {
        Ok(journal.len())
    } else {
        Err(Fail::from("another file is left, or another order"))
    }
}

/// Plays a plan on what was prepared, and ends the service.
pub fn play<D: PageDevice + Drop + Send, G: Gate + Drop + Send + Sync, R>(
    rt: &R,
    prepared: Prepared<D, NumberKey>,
    gate: G,
    plan: &Plan<'_>,
) -> Result<Left<D>, Fail>
where
    R: Threads + Wait + Clock + Sync,
{
    play_named::<D, G, Brand, R>(rt, prepared, gate, plan)
}

fn play_named<
    D: PageDevice + Drop + Send,
    G: Gate + Drop + Send + Sync,
    N: Room + Base + Send + Sync,
    R: Threads + Wait + Clock + Sync,
>(rt: &R, prepared: Prepared<D, NumberKey>, gate: G, plan: &Plan<'_>) -> Result<Left<D>, Fail>
    requires table { prepared.table ≡ N.table }
    requires origin { origin_of (λ _. number_key) prepared ≡ N.origin }
{
    let Ok(
        Started {
            service,
            mut seats,
            stopper,
            mut passes,
        },
    ) = prepared.start::<G, N>(gate)
    else {
        return Err(Fail::from("it starts"));
    };
    play_rounds(rt, &service, seats.as_mut_slice(), plan);
    let shown = shown(&service, seats.as_mut_slice(), passes.as_mut_slice());
    close(plan.alloc, service, stopper, seats, shown)
}

/// The first makes the calls that come before, and all play each round: each its script in a thread of
/// its own.
fn play_rounds<
    D: PageDevice + Drop + Send,
    G: Gate + Sync,
    N: Room + Base + Send + Sync,
    R: Threads + Wait + Clock + Sync,
>(rt: &R, service: &Shared<D, G, N>, seats: &mut [Seat<N>], plan: &Plan<'_>) {
    if let Some(first) = seats.first_mut() {
        begin(rt, service, first, plan);
    }
    for _ in 0..plan.rounds {
        thread::for_each_mut(
            rt,
            seats,
            SEATS,
            &|_, seat: &mut Seat<N>| { play_script(rt, service, seat, plan) },
        );
    }
}

/// A seat makes the calls that come before, each so often.
fn begin<D: PageDevice + Drop, G: Gate, N: Room + Base, R: Wait>(
    rt: &R,
    service: &Shared<D, G, N>,
    seat: &mut Seat<N>,
    plan: &Plan<'_>,
) {
    for (ask, times) in plan.before {
        for _ in 0..*times {
            call(rt, service, seat, plan, *ask);
        }
    }
}

/// A seat plays the script of its number.
fn play_script<D: PageDevice + Drop, G: Gate, N: Room + Base, R: Wait + Clock>(
    rt: &R,
    service: &Shared<D, G, N>,
    seat: &mut Seat<N>,
    plan: &Plan<'_>,
) {
    let place = usize::from(seat.number()).saturating_sub(1);
    if let Some(script) = plan.scripts.get(place) {
        for done in 0..script.many {
            if let Some(deed) = script.deed(done) {
                act(rt, service, seat, plan, deed);
            }
        }
    }
}

/// A seat does one thing.
fn act<D: PageDevice + Drop, G: Gate, N: Room + Base, R: Wait + Clock>(
    rt: &R,
    service: &Shared<D, G, N>,
    seat: &mut Seat<N>,
    plan: &Plan<'_>,
    deed: Deed,
) {
    match deed {
        Deed::Call(ask) => call(rt, service, seat, plan, ask),
        Deed::CallWithin(ask, micros) => call_within(rt, service, seat, plan, ask, micros),
        Deed::Await(flag) => {
            plan.board.comes_up(rt, flag, LOOKS);
        }
        Deed::Raise(flag) => plan.board.raise(flag),
    }
}

/// A seat makes a call.
fn call<D: PageDevice + Drop, G: Gate, N: Room + Base, R: Wait>(
    rt: &R,
    service: &Shared<D, G, N>,
    seat: &mut Seat<N>,
    plan: &Plan<'_>,
    ask: Ask,
) {
    if let Ok(call) = ask.call(plan.alloc) {
        if service.call(rt, seat, call).err() == Some(Fault::Failed) {
            plan.board.note_failure(seat.number());
        }
    }
}

/// A seat makes a call with a limit of time.
fn call_within<D: PageDevice + Drop, G: Gate, N: Room + Base, R: Wait + Clock>(
    rt: &R,
    service: &Shared<D, G, N>,
    seat: &mut Seat<N>,
    plan: &Plan<'_>,
    ask: Ask,
    micros: u64,
) {
    let limit = Duration::from_micros(micros);
    let start = Instant::now(rt).ok();
    if let Ok(call) = ask.call(plan.alloc) {
        if let Err(Unanswered::TimedOut(back)) = service.call_within(rt, seat, call, limit) {
            if ask.is(plan.alloc, &back) && is_over(rt, start, limit) {
                plan.board.note_taken_back();
            }
        }
    }
}

/// Whether a limit of time that began then is over.
fn is_over(clock: &impl Clock, start: Option<Instant>, limit: Duration) -> bool {
    let spent = start.and_then(|start| start.elapsed(clock).ok());
    spent.is_some_and(|spent| limit <= spent)
}
