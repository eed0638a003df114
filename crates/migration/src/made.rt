//! The file of a system is made.

ghost use Rattle.std.specs.Prelude.{◌≡◌, ◌≤◌, ℕ, [], false, length, IsTrue, IfErr, OnOk};
ghost use Rattle.directory.specs.declared.layout.TheConstants.{LEAST_PAGES};
ghost use Rattle.page_device.specs.declared.page.TheConstants.{MAX_PAGES};
ghost use Rattle.file_check.specs.Whole.{IsFileOf};
ghost use Rattle.file_pages.specs.Files.{IsReady};
ghost use Rattle.migration.specs.Causes.{HasMakingCause};
ghost use Rattle.migration.specs.Copying.{IsMadeOf};
ghost use Rattle.migration.specs.Filling.{IsNew, MayNotFill, MayNotWrite};
ghost use Rattle.migration.specs.Writing.{KeepsDevice};
ghost use Rattle.record_file.specs.Files.{IsNewFile};

use crate::fault::MakingFault;
use crate::writer::write;
use bucket_page::PseudoKey;
use buffer_pool::Pool;
use file_check::is_file_of;
use page_device::{DeviceFault, PageDevice};
use page_locks::LockTable;
use queue_model::System;
use record_file::format;
use std::alloc::Global;

/// The frames of the pool over the new file, each of a page.
const FRAMES: usize = 4096;

/// Where a file is to be made.
#[derive(Drop)]
pub struct Target<D> {
    /// A device without pages.
    pub device: D,
    /// How many the file gets.
    pub pages: u32,
}

/// What became of a new file, and its device.
#[derive(Drop)]
pub struct Made<D> {
    pub device: D,
    pub made: Result<(), MakingFault>,
}

/// Makes the file of a system, which is not stopped, and checks that it is one. It is synced then.
pub fn make<D: PageDevice, K: PseudoKey>(
    alloc: Global,
    target: Target<D>,
    keys: &K,
    system: &System,
) -> Made<D>
    requires empty { D.content target.device ≡ [] }
    requires least { LEAST_PAGES ≤ target.pages }
    requires most { target.pages ≤ MAX_PAGES }
    ensures ok { IsTrue (D.is_honest target.device) → OnOk result.made (system.now.stopped ≡ false →
        IsMadeOf (K.of_key keys.now) target.pages (D.content result.device) system.now) }
    ensures synced { IsTrue (D.is_honest target.device) →
        OnOk result.made (IsTrue (D.is_synced result.device)) }
    ensures honest { D.is_honest result.device ≡ D.is_honest target.device }
    ensures cause { HasMakingCause
        (D.fault_count target.device) (D.fault_count result.device) result.made }
    ensures told { IsTrue (D.is_honest target.device) →
        IfErr result.made (MayNotFill (K.of_key keys.now) target.pages system.now) }
{
    let Target { mut device, pages } = target;
    if let Err(fault) = format(&mut device, pages) {
        return Made {
            device,
            made: Err(MakingFault::Device(fault)),
        };
    }
    let Made { mut device, made } = fill(alloc, device, keys, system);
    match made {
        Ok(()) => {
            let made = confirm(alloc, &mut device, keys, system);
            Made { device, made }
        }
        Err(fault) => Made {
            device,
            made: Err(fault),
        },
    }
}

/// Writes the records of a system into a new file.
fn fill<D: PageDevice, K: PseudoKey>(alloc: Global, device: D, keys: &K, system: &System) -> Made<D>
    ensures pages { length (D.content result.device) ≡ length (D.content device) }
    ensures honest { D.is_honest result.device ≡ D.is_honest device }
    ensures cause { HasMakingCause
        (D.fault_count device) (D.fault_count result.device) result.made }
    ensures told { (pages : ℕ) → IsNewFile pages (D.content device) → IsTrue (D.is_honest device) →
        IfErr result.made (MayNotFill (K.of_key keys.now) pages system.now) }
{
    let mut pool = match Pool::open(alloc, device, FRAMES) {
        Ok(pool) => pool,
        Err((device, fault)) => {
            return Made {
                device,
                made: Err(MakingFault::Pool(fault)),
            };
        }
    };
    let made = write_out(alloc, &mut pool, keys, system);
    Made {
        device: release(pool),
        made,
    }
}

/// Writes the records of a system into a new file in a pool, and the pool to its device.
fn write_out<D: PageDevice, K: PseudoKey>(
    alloc: Global,
    pool: &mut Pool<D>,
    keys: &K,
    system: &System,
) -> Result<(), MakingFault>
    requires { IsReady pool.old }
    ensures kept { KeepsDevice pool.old pool.new result }
    ensures told { IsNew (K.of_key keys.now) pool.old →
        IfErr result (MayNotFill (K.of_key keys.now) (length pool.old.images) system.now) }
{
    let mut locks = match LockTable::new(alloc, 1) {
        Ok(locks) => locks,
        Err(_) => return Err(MakingFault::NoMemory),
    };
    write(alloc, pool, &mut locks, keys, system)?;
    match pool.flush() {
        Ok(()) => Ok(()),
        Err(fault) => Err(MakingFault::Pool(fault)),
    }
}

/// The device of a pool, as it is.
fn release<D: PageDevice>(pool: Pool<D>) -> D
    ensures pages { length (D.content result) ≡ length pool.images }
    ensures honest { D.is_honest result ≡ pool.honest }
    ensures faults { D.fault_count result ≡ pool.faults }
{
    let _ = pool.pages();
    pool.into_device()
}

/// Whether a new file is that of the system; it is synced then, since what was read says nothing of
/// what outlasts the program. A device that failed meanwhile is told, and else want of memory.
fn confirm<D: PageDevice, K: PseudoKey>(
    alloc: Global,
    device: &mut D,
    keys: &K,
    system: &System,
) -> Result<(), MakingFault>
    ensures ok { IsTrue (D.is_honest device.old) → OnOk result (system.now.stopped ≡ false →
        IsFileOf (K.of_key keys.now) (D.content device.new) system.now) }
    ensures synced { IsTrue (D.is_honest device.old) →
        OnOk result (IsTrue (D.is_synced device.new)) }
    ensures same { D.content device.new ≡ D.content device.old }
    ensures honest { D.is_honest device.new ≡ D.is_honest device.old }
    ensures cause { HasMakingCause (D.fault_count device.old) (D.fault_count device.new) result }
    ensures told { IfErr result MayNotWrite }
{
    let failed = device.faults();
    match is_file_of(alloc, device, keys, system) {
        Ok(true) => Ok(device.sync()?),
        Ok(false) if device.faults() > failed => Err(MakingFault::Device(DeviceFault::Device)),
        Ok(false) => Err(MakingFault::NoMemory),
        Err(fault) => Err(MakingFault::Wrong(fault)),
    }
}
