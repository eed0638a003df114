//! The threads of a script's seats.

ghost use Rattle.std.specs.Prelude.{◌≡◌};
ghost use Rattle.std.specs.Thread.{IsSend, IsSync};
ghost use Rattle.service_runs.specs.Desks.{AreMade, AreUntouched, IsFresh, IsMadeOf};

use crate::desk::Desk;
use crate::waiter::{Shared, Waiter};
use page_device::PageDevice;
use queue_model::{Answer, Call, Entry};
use std::alloc::Global;
use std::io::Eprint;
use std::marker::Model;
use std::snapshot::Snapshot;
use std::sync::atomic::AtomicU64;
use std::sync::atomic::Ordering::SeqCst;
use std::sync::{Mutex, Wait};
use std::thread;
use std::thread::{Promise, PromisedHandle, Scope, SpawnError, Threads};
use std::time::{Clock, Duration};
use workers::{Base, Fault, GaugePass, Room, Seat, Stopper};

/// Milliseconds between two looks whether all threads are done, where that is shown.
const BETWEEN_LOOKS: u64 = 10;

/// After so many looks it is shown anew how far they are.
const LOOKS: u32 = 50;

/// A thread for each seat.
#[derive(Drop)]
pub struct ThreadASeat<'a, R> {
    rt: &'a R,
    alloc: Global,
    is_terminal: bool,
}

impl<'a, R> ThreadASeat<'a, R> {
    /// Threads by this handle. How far they are is shown on standard error where that is a
    /// terminal.
    pub fn new(rt: &'a R, alloc: Global, is_terminal: bool) -> ThreadASeat<'a, R> {
        ThreadASeat {
            rt,
            alloc,
            is_terminal,
        }
    }

    /// Their handle.
    pub fn rt(&self) -> &'a R {
        self.rt
    }

    /// Where memory is taken.
    pub fn alloc(&self) -> Global {
        self.alloc
    }
}

impl<R: Wait> Waiter for ThreadASeat<'_, R> {
    fn call<D: PageDevice + Drop, N: Room + Base>(
        &self,
        service: &Shared<D, N>,
        seat: &mut Seat<N>,
        call: Call,
    ) -> Result<Answer, Fault> {
        service.call(self.rt, seat, call)
    }

    fn stop<D: PageDevice + Drop, N: Room + Base>(
        &self,
        service: &Shared<D, N>,
        stopper: &Mutex<Stopper<N>>,
    ) {
        let mut stopper = stopper.lock(self.rt);
        service.stop(self.rt, &mut stopper);
    }
}

/// Has each desk make its lines in a thread of its own, beside the others, and waits until all
/// have, with a stopper where one of the lines is a `stop`. The lines of a desk for which no thread
/// can be started are each replied 60. How many calls were decided so far is seen by the pass, if
/// there is one.
pub fn make_all<
    'a,
    's,
    R: Threads + Wait + Clock + Eprint + Sync,
    D: PageDevice + Drop + Send,
    N: Room + Base + Send + Sync,
>(
    crew: &'a ThreadASeat<'a, R>,
    service: &'a Shared<D, N>,
    stopper: Option<&'a Mutex<Stopper<N>>>,
    gauge: Option<GaugePass<Entry, Call, N>>,
    desks: Vec<Desk<'s, N>>,
) -> Vec<Desk<'s, N>>
    requires fresh { AreUntouched desks.items }
    ensures made { AreMade N.origin desks.entry.items result.items }
{
    let team = Team {
        crew,
        service,
        stopper,
        refused: AtomicU64::new(0),
        left: AtomicU64::new(desks.len() as u64),
    };
    let team = &team;
    thread::scope(
        thread::scope_env(),
        crew.rt,
        move |scope| -> Vec<Desk<N>>
            requires { IsSync R.row × IsSend D.row × IsSend N.row × IsSync N.row
                × AreUntouched desks.items }
            ensures { AreMade N.origin desks.entry.items result.items }
        { make_in(scope, team, gauge, desks) },
    )
}

/// What the threads share.
#[derive(Drop)]
struct Team<'e, R, D: PageDevice, N: Room + Base> {
    crew: &'e ThreadASeat<'e, R>,
    service: &'e Shared<D, N>,
    stopper: Option<&'e Mutex<Stopper<N>>>,
    /// The seat for which no thread could be started.
    refused: AtomicU64,
    /// How many are not done.
    left: AtomicU64,
}

/// That the lines of a desk are made.
#[derive(Drop)]
struct Makes<'s, N: Room + Base> {
    desk: Snapshot<Desk<'s, N>>,
}

impl<'s, N: Room + Base> Promise<Desk<'s, N>> for Makes<'s, N> {
    ghost use Rattle.service_runs.specs.Desks.{IsMadeOf};

    ghost kept_by = { λ p d. IsMadeOf N.origin p.desk.value d };
}

/// What becomes of a desk: a thread makes its lines, or none could be started and they are refused.
/// Contracts see the desk as it was.
#[derive(Drop)]
struct Work<'s, N: Room + Base> {
    desk: Snapshot<Desk<'s, N>>,
    made: Result<PromisedHandle<Desk<'s, N>, Makes<'s, N>>, Desk<'s, N>>,
}

impl<'s, N: Room + Base> Model for Work<'s, N> {
    ghost use Rattle.std.specs.Prelude.{◌≡◌, IfErr, IfOk};
    ghost use Rattle.service_runs.specs.Desks.{DeskView, IsMadeOf};

    ghost Value = { DeskView };

    ghost view = { λ w. w.desk.value };

    ghost invariant = { λ w.
        IfOk w.made (λ thread. thread.promise.desk.value ≡ w.desk.value)
        × IfErr w.made (IsMadeOf N.origin w.desk.value) };
}

/// Has each desk make its lines in a thread of this scope, and waits until all have.
fn make_in<
    'e,
    's: 'e,
    E,
    R: Threads + Wait + Clock + Eprint + Sync,
    D: PageDevice + Drop + Send,
    N: Room + Base + Send + Sync,
>(
    scope: &'e Scope<'e, E>,
    team: &'e Team<'e, R, D, N>,
    gauge: Option<GaugePass<Entry, Call, N>>,
    desks: Vec<Desk<'s, N>>,
) -> Vec<Desk<'s, N>>
    requires { AreUntouched desks.items }
    ensures { AreMade N.origin desks.entry.items result.items }
{
    let Ok(mut works) = Vec::with_capacity(team.crew.alloc, desks.len()) else {
        return refuse_all(desks);
    };
    let Ok(mut made) = Vec::with_capacity(team.crew.alloc, desks.len()) else {
        return refuse_all(desks);
    };
    let lines = desks.first().map(Desk::script_lines).unwrap_or(0);
    for desk in desks {
        works.push_reserved(start(scope, team, desk));
    }
    if let Some(mut gauge) = gauge {
        team.watch(&mut gauge, lines);
    }
    for work in works {
        made.push_reserved(end(team, work));
    }
    made
}

/// Starts a thread in which a desk makes its lines. Where none can be started they are refused.
fn start<
    'e,
    's: 'e,
    E,
    R: Threads + Wait + Sync,
    D: PageDevice + Drop + Send,
    N: Room + Base + Send + Sync,
>(scope: &'e Scope<'e, E>, team: &'e Team<'e, R, D, N>, desk: Desk<'s, N>) -> Work<'s, N>
    requires { IsFresh desk }
    ensures { result ≡ desk.entry }
{
    let before = Snapshot::of(&desk);
    let promise = Makes {
        desk: Snapshot::of(&desk),
    };
    let seat = u64::from(desk.number());
    let work = move || -> Desk<N>
        requires { IsFresh desk }
        ensures { IsMadeOf N.origin desk.entry result }
    {
        let mut desk = desk;
        if team.refused.load(SeqCst) == seat {
            desk.refuse();
        } else {
            desk.make(team.crew, team.service, team.stopper);
        }
        team.left.fetch_sub(1, SeqCst);
        desk
    };
    let made = match scope.spawn_with(promise, work) {
        Ok(thread) => Ok(thread),
        Err(SpawnError { value: work }) => {
            team.refused.store(seat, SeqCst);
            Err(work())
        }
    };
    Work { desk: before, made }
}

/// The desk, once its lines are made.
fn end<'s, R: Threads, D: PageDevice, N: Room + Base>(
    team: &Team<R, D, N>,
    work: Work<'s, N>,
) -> Desk<'s, N>
    ensures { IsMadeOf N.origin work.entry result }
{
    let Work { desk: _, made } = work;
    match made {
        Ok(thread) => thread.join(team.crew.rt),
        Err(desk) => desk,
    }
}

/// No desk makes its lines.
fn refuse_all<'s, N: Room + Base>(desks: Vec<Desk<'s, N>>) -> Vec<Desk<'s, N>>
    requires { AreUntouched desks.items }
    ensures { AreMade N.origin desks.entry.items result.items }
{
    let mut desks = desks;
    for place in 0..desks.len() {
        desks[place].refuse();
    }
    desks
}

impl<R: Wait + Clock + Eprint, D: PageDevice + Drop, N: Room + Base> Team<'_, R, D, N> {
    /// Shows on a terminal how many of so many lines are answered, until all threads are done.
    fn watch(&self, gauge: &mut GaugePass<Entry, Call, N>, lines: usize) {
        if !self.crew.is_terminal {
            return;
        }
        let mut looks = 0u32;
        for _ in self.crew.rt.forever() {
            if self.left.load(SeqCst) == 0 {
                break;
            }
            thread::sleep(self.crew.rt, Duration::from_millis(BETWEEN_LOOKS));
            looks = looks.wrapping_add(1);
            if looks % LOOKS == 0 {
                let answered = self.service.gauge(gauge);
                let _ = eprint!(self.crew.rt; "\r\x1b[Kmsgq: answered {answered} of {lines} lines");
            }
        }
        if looks >= LOOKS {
            let _ = eprint!(self.crew.rt; "\r\x1b[K");
        }
    }
}
