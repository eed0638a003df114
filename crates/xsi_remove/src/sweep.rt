//! The sweep.

ghost use Rattle.std.specs.Prelude.{◌≡◌, ◌↔◌, true};
ghost use Rattle.xsi_remove.specs.Words.{EndsRow, IsReady, IsSeat, row_of, searches_under};
ghost use Rattle.xsi_remove.specs.Sweeps.{begun_sweep, sweep_access, sweep_locks};
ghost use Rattle.xsi_remove.specs.SweepSteps.{IsOver, MakesSweep};
ghost use Rattle.xsi_remove.specs.Works.{is_move};

use crate::work::Work;
use bucket_page::PseudoKey;
use buffer_pool::Pool;
use file_pages::FileFault;
use numbers::limits::MAX_MESSAGES;
use page_device::PageDevice;
use page_locks::LockTable;
use std::marker::Model;
use step_rules::Progress;
use xsi_control::Turn;
use xsi_inquiry::Sweep;

/// The sweep of the messages of a queue. It holds no name: whoever drives it holds that of the
/// queue.
#[derive(Drop)]
pub struct SweepTurns {
    work: Option<Work>,
}

impl Model for SweepTurns {
    ghost use Rattle.std.specs.Prelude.{Option};
    ghost use Rattle.xsi_remove.specs.declared.work.Work.{Work};

    ghost Value = { Option Work };

    ghost view = { λ s. s.work };
}

impl SweepTurns {
    /// The sweep that a Remove decides on.
    pub fn begin<K: PseudoKey>(sweep: Sweep, keys: &K) -> SweepTurns
        ensures { result ≡ begun_sweep (K.of_key keys.now) sweep }
    {
        SweepTurns {
            work: match sweep.first {
                Some(first) => Some(Work::begin(
                    Turn::new(sweep.id, first),
                    MAX_MESSAGES as u16 - 1,
                    keys,
                )),
                None => None,
            },
        }
    }

    /// Whether it has nothing left to do.
    pub fn is_over(&self) -> bool
        ensures { (result ≡ true) ↔ IsOver self.now }
    {
        match &self.work {
            Some(work) => work.has_ended(),
            None => true,
        }
    }

    /// Whether a search of it is under way: the directory was granted to it, and no page has
    /// answered.
    pub fn is_searching(&self) -> bool
        ensures { result ≡ searches_under (sweep_access self.now) }
    {
        match &self.work {
            Some(work) => work.access.is_searching(),
            None => false,
        }
    }

    /// One step of its access, of which the turn hears, and behind which what follows is begun
    /// where that has ended.
    pub fn step<D: PageDevice, K: PseudoKey>(
        &mut self,
        pool: &mut Pool<D>,
        locks: &mut LockTable,
        keys: &K,
        seat: u8,
    ) -> Progress<FileFault>
        requires seat { IsSeat locks.old seat }
        requires ready { IsReady pool.old }
        requires row { EndsRow (sweep_locks self.old) 3 (row_of locks.old seat) }
        ensures { MakesSweep (K.of_key keys.now) seat result self.old self.new
            pool.old pool.new locks.old locks.new }
    {
        let Some(Work { access, .. }) = &mut self.work else {
            return Progress::Ended;
        };
        let did = access.step(pool, locks, keys, seat);
        // The pattern lends the access alone: of a field that is lent through a reference to the
        // turn, what the step makes of it would not be known here.
        let Some(work) = &mut self.work else {
            unreachable!();
        };
        let Ok(()) = work.hear(did) else {
            return Progress::Fault(FileFault::Failed);
        };
        if !is_move(did) {
            return did;
        }
        if !work.has_ended() {
            return did;
        }
        match work.go_on(keys) {
            Ok(true) => did,
            Ok(false) => {
                self.work = None;
                did
            }
            Err(fault) => Progress::Fault(fault),
        }
    }
}

/// Whether the step moved.
fn is_move(did: Progress<FileFault>) -> bool
    ensures { result ≡ is_move did }
{
    matches!(did, Progress::Moved(_))
}
