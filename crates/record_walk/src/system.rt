//! The system of all records is read, queue by queue.

ghost use Rattle.std.specs.Prelude.{IsTrue, IfOk, IfErr};
ghost use Rattle.record_walk.specs.Fault.{IsCaused};
ghost use Rattle.record_walk.specs.Held.{IsStill};
ghost use Rattle.record_walk.specs.Systems.{AreQueueIds, AreQueuesOf, IsSystemOf};
ghost use Rattle.record_walk.specs.Told.{IsToldOfQueues, IsToldOfSystem};

use crate::fault::WalkFault;
use crate::queue::read_queue;
use crate::records::Records;
use queue_model::{Queue, System};
use queue_records::{Counter, Record};
use std::alloc::Global;

/// The one system of which all records stand, and to whose queues all Queue records belong. The ids
/// are those of the Queue records. It is refused exactly where there is no such system: at the
/// lowest id of which there is a Queue and no queue, or at the Counter.
pub fn read_system<F: Records>(
    file: &mut F,
    alloc: Global,
    ids: &[u32],
) -> Result<System, WalkFault>
    requires { IsTrue (F.is_honest file.old) → AreQueueIds (F.held file.old) ids.now }
    ensures ok { IsTrue (F.is_honest file.old) →
        IfOk result (λ system. IsSystemOf (F.held file.old) system) }
    ensures err { IsTrue (F.is_honest file.old) →
        IfErr result (IsToldOfSystem (F.held file.old)) }
    ensures still { IsStill F.held F.pages F.is_honest F.fault_count file.old file.new }
    ensures cause { IsCaused (F.fault_count file.old) (F.fault_count file.new) result }
{
    let Some(counter) = file.counter()? else {
        return Err(WalkFault::WrongCounter);
    };
    let queues = read_queues(file, alloc, ids)?;
    let Some(system) = System::of_queues(queues, counter.next_id) else {
        return Err(WalkFault::WrongCounter);
    };
    system.keeps_limits();
    let counted = Counter {
        next_id: system.next_id(),
        queues_alive: system.queues() as u32,
    };
    if !file.holds(&Record::Counter(counted))? {
        return Err(WalkFault::WrongCounter);
    }
    Ok(system)
}

/// The queues of these ids.
fn read_queues<F: Records>(
    file: &mut F,
    alloc: Global,
    ids: &[u32],
) -> Result<Vec<Queue>, WalkFault>
    ensures ok { IsTrue (F.is_honest file.old) →
        IfOk result (λ queues. AreQueuesOf (F.held file.old) ids.now queues.items) }
    ensures err { IsTrue (F.is_honest file.old) →
        IfErr result (IsToldOfQueues (F.held file.old) ids.now) }
    ensures still { IsStill F.held F.pages F.is_honest F.fault_count file.old file.new }
    ensures cause { IsCaused (F.fault_count file.old) (F.fault_count file.new) result }
{
    let mut queues = Vec::new(alloc);
    for id in ids {
        queues.push(read_queue(file, alloc, *id)?)?;
    }
    Ok(queues)
}
