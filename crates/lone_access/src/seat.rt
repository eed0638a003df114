//! The one seat of a file carries out an access to a record.

ghost use Rattle.std.specs.Prelude.{◌≡◌, [], List, Option, IfErr, OnOk};
ghost use Rattle.file_pages.specs.Fault.{FileHasCause, IsDevicesFault};
ghost use Rattle.page_locks.specs.declared.lock.Lock.{Lock};
ghost use Rattle.queue_records.specs.Keys.{guard_of};
ghost use Rattle.queue_records.specs.declared.record.Record.{Record};
ghost use Rattle.record_file.specs.Accesses.{access_key, access_locks};
ghost use Rattle.record_file.specs.Purposes.{Purpose};
ghost use Rattle.lone_access.specs.Alone.{IsAlone, KeepsPool, lock_on};
ghost use Rattle.lone_access.specs.OneAccess.{IsBegun, IsLeft};

use bucket_page::PseudoKey;
use buffer_pool::Pool;
use file_pages::FileFault;
use page_device::PageDevice;
use page_locks::{Grant, LockKind, LockName, LockTable};
use record_file::Access;
use step_rules::Progress;

/// The one seat.
const SEAT: u8 = 1;

/// An access of a lone seat ends within so many steps, that by which it tells so among them: one more
/// than it has left when it begins (specs/Lengths.antt of `record_file`).
const MOST_STEPS: u32 = 139_590;

/// Steps an access, which has begun, to its end, under the lock of its record: it is taken first, and
/// given back then. `locks` is a table of one seat, which holds nothing; `name` is the name under
/// which the record is locked.
///
/// Where a step fails its fault is told, and nothing is said of `locks`. `FileFault::Failed` is told also
/// where the lock is not granted, the access waits, or it has not ended after the most steps that one
/// takes: on a device that returns what was written none of these comes to pass.
pub fn carry_out<D: PageDevice, K: PseudoKey>(
    pool: &mut Pool<D>,
    locks: &mut LockTable,
    keys: &K,
    name: LockName,
    access: &mut Access,
) -> Result<(), FileFault>
    requires alone { IsAlone [] pool.old locks.old }
    requires name { name ≡ guard_of (access_key access.old) }
    requires begun { (before : List Lock) → access_locks access.old before ≡ before }
    ensures alone { OnOk result (IsAlone [] pool.new locks.new) }
    ensures kept { KeepsPool pool.old pool.new }
    ensures cause { IfErr result (FileHasCause pool.old pool.new) }
    ensures put { (p : Purpose) (found : Option Record) →
        IsBegun (K.of_key keys.now) p found access.old pool.old →
        OnOk result (IsLeft (K.of_key keys.now) p pool.old access.new pool.new) }
    ensures told { (p : Purpose) (found : Option Record) →
        IsBegun (K.of_key keys.now) p found access.old pool.old →
        IfErr result (IsDevicesFault pool.old pool.new) }
{
    if let Grant::Blocked(_) = locks.try_grant(SEAT, name, LockKind::Exclusive) {
        return Err(FileFault::Failed);
    }
    drive(pool, locks, keys, access)?;
    locks.release(SEAT, name);
    Ok(())
}

/// Steps an access, which has begun, to its end. The seat holds the lock of its record.
fn drive<D: PageDevice, K: PseudoKey>(
    pool: &mut Pool<D>,
    locks: &mut LockTable,
    keys: &K,
    access: &mut Access,
) -> Result<(), FileFault>
    requires alone { IsAlone (lock_on (access_key access.old)) pool.old locks.old }
    requires begun { (before : List Lock) → access_locks access.old before ≡ before }
    ensures alone { OnOk result (IsAlone (lock_on (access_key access.old)) pool.new locks.new) }
    ensures kept { KeepsPool pool.old pool.new }
    ensures cause { IfErr result (FileHasCause pool.old pool.new) }
    ensures put { (p : Purpose) (found : Option Record) →
        IsBegun (K.of_key keys.now) p found access.old pool.old →
        OnOk result (IsLeft (K.of_key keys.now) p pool.old access.new pool.new) }
    ensures told { (p : Purpose) (found : Option Record) →
        IsBegun (K.of_key keys.now) p found access.old pool.old →
        IfErr result (IsDevicesFault pool.old pool.new) }
{
    locks.keeps_limits();
    let mut moves = 0;
    while moves < MOST_STEPS {
        match access.step(pool, locks, keys, SEAT) {
            Progress::Moved(_) => moves += 1,
            Progress::Ended => return Ok(()),
            Progress::Fault(fault) => return Err(fault),
            Progress::Blocked(_) => return Err(FileFault::Failed),
        }
    }
    Err(FileFault::Failed)
}
