//! A new file is made of what can be read of one that is wrong.

ghost use Rattle.std.specs.Prelude.{◌≡◌, ◌≤◌, [], false, IfErr, IfOk, IsTrue, ⊤};
ghost use Rattle.directory.specs.declared.layout.TheConstants.{LEAST_PAGES};
ghost use Rattle.page_device.specs.Device.{HasRisen};
ghost use Rattle.page_device.specs.declared.page.TheConstants.{MAX_PAGES};
ghost use Rattle.migration.specs.Causes.{HasSalvageCause};
ghost use Rattle.migration.specs.Gathering.{HasRescueCause, wants_memory};
ghost use Rattle.migration.specs.Readable.{IsToldOfPages};
ghost use Rattle.migration.specs.Rescues.{IsFoundIn, IsMadeOrTold, IsRescuedFrom, IsWhole};

use crate::found::gather;
use crate::kept::{put_together, running};
use crate::losses::Losses;
use crate::made::{Made, Target, make};
use crate::salvage_fault::SalvageFault;
use bucket_page::PseudoKey;
use directory::LEAST_PAGES;
use file_check::{CheckFault, Checked, check};
use file_walk::StructureFault;
use page_device::{MAX_PAGES, PageDevice};
use queue_model::System;
use std::alloc::Global;

/// The system of a new file, and what was left out of it.
#[derive(Drop)]
pub struct Rescue {
    pub system: System,
    pub losses: Losses,
}

/// What became of a file that was read for what can be read of it, and both devices.
#[derive(Drop)]
pub struct Salvaged<O, N> {
    pub old: O,
    pub new: N,
    pub found: Result<Rescue, SalvageFault>,
}

/// What was found of the file on a device, and the device.
#[derive(Drop)]
struct Rescued<D> {
    device: D,
    found: Result<Rescue, SalvageFault>,
}

/// Makes a new file of the system of an old one, of today's layout; the old one is only read. Where
/// its check refuses it, the system is made up of the messages whose page has its digest and whose
/// record is right, in queues with their ids, in order of serial; of two records of one key that on
/// the lower page counts. Where it answers, the new file was checked to be that of the system.
pub fn salvage<O: PageDevice, N: PageDevice, K: PseudoKey>(
    alloc: Global,
    old: O,
    target: Target<N>,
    keys: &K,
) -> Salvaged<O, N>
    requires empty { N.content target.device ≡ [] }
    requires least { LEAST_PAGES ≤ target.pages }
    requires most { target.pages ≤ MAX_PAGES }
    ensures ok { IsTrue (N.is_honest target.device) →
        IsMadeOrTold (K.of_key keys.now) target.pages (N.content result.new)
        (IsFoundIn (K.of_key keys.now) (O.content old) (IsTrue (O.is_honest old))
        (HasRisen (O.fault_count old) (O.fault_count result.old))) result.found }
    // Of a right file all is rescued, and what is told of one is so.
    ensures rescued { IsTrue (O.is_honest old) →
        IsRescuedFrom (K.of_key keys.now) (O.content old)
        (HasRisen (O.fault_count old) (O.fault_count result.old)) result.found }
    ensures same { O.content result.old ≡ O.content old }
    ensures honest { (O.is_honest result.old ≡ O.is_honest old)
        × (N.is_honest result.new ≡ N.is_honest target.device) }
    ensures synced { IsTrue (N.is_honest target.device) →
        IfOk result.found (λ _. IsTrue (N.is_synced result.new)) }
    ensures cause { HasSalvageCause (O.fault_count old) (O.fault_count result.old)
        (N.fault_count target.device) (N.fault_count result.new) result.found }
{
    let Rescued { device: old, found } = find_rescue(alloc, old, keys);
    let Rescue { system, losses } = match found {
        Ok(rescue) => rescue,
        Err(fault) => {
            return Salvaged {
                old,
                new: target.device,
                found: Err(fault),
            };
        }
    };
    let Made { device: new, made } = make(alloc, target, keys, &system);
    match made {
        Ok(()) => Salvaged {
            old,
            new,
            found: Ok(Rescue { system, losses }),
        },
        Err(fault) => Salvaged {
            old,
            new,
            found: Err(SalvageFault::New(fault)),
        },
    }
}

/// The system of a right file, and what can be read of one that is wrong.
fn find_rescue<D: PageDevice, K: PseudoKey>(alloc: Global, device: D, keys: &K) -> Rescued<D>
    ensures running { IfOk result.found (λ rescue. rescue.system.stopped ≡ false) }
    ensures rescued { IsTrue (D.is_honest device) →
        IsRescuedFrom (K.of_key keys.now) (D.content device)
        (HasRisen (D.fault_count device) (D.fault_count result.device)) result.found }
    ensures same { D.content result.device ≡ D.content device }
    ensures honest { D.is_honest result.device ≡ D.is_honest device }
    ensures cause { HasRescueCause
        (D.fault_count device) (D.fault_count result.device) result.found }
{
    let Checked { mut device, found } = check(alloc, device, keys);
    let fault = match found {
        Ok(system) => {
            let found = make_whole(alloc, &system);
            return Rescued { device, found };
        }
        Err(fault) => fault,
    };
    if lacks_memory(fault) {
        return Rescued {
            device,
            found: Err(SalvageFault::NoMemory),
        };
    }
    let found = make_rescue(alloc, &mut device);
    // The count of failed transfers fits a `u64`.
    let _ = device.faults();
    Rescued { device, found }
}

/// Whether a check ended for want of memory.
fn lacks_memory(fault: CheckFault) -> bool
    ensures { result ≡ wants_memory fault }
{
    match fault {
        CheckFault::Structure(StructureFault::NoMemory) => true,
        _ => false,
    }
}

/// A rescue of all of a system.
fn make_whole(alloc: Global, system: &System) -> Result<Rescue, SalvageFault>
    ensures running { IfOk result (λ rescue. rescue.system.stopped ≡ false) }
    ensures ok { IfOk result (IsWhole (record system.now { stopped = false })) }
    ensures err { IfErr result (λ fault. fault ≡ SalvageFault.NoMemory) }
{
    match running(alloc, system)? {
        Some(system) => Ok(Rescue {
            system,
            losses: Losses::none(alloc),
        }),
        None => Err(SalvageFault::Unlawful),
    }
}

/// What can be read of a file, as a system.
fn make_rescue<D: PageDevice>(alloc: Global, device: &mut D) -> Result<Rescue, SalvageFault>
    ensures running { IfOk result (λ rescue. rescue.system.stopped ≡ false) }
    ensures same { D.content device.new ≡ D.content device.old }
    ensures honest { D.is_honest device.new ≡ D.is_honest device.old }
    ensures told { IsTrue (D.is_honest device.old) →
        IfErr result (IsToldOfPages (D.content device.old)
        (HasRisen (D.fault_count device.old) (D.fault_count device.new)) ⊤) }
    ensures cause { HasRescueCause (D.fault_count device.old) (D.fault_count device.new) result }
{
    let found = gather(alloc, device)?;
    match put_together(alloc, found)? {
        Some((system, losses)) => Ok(Rescue { system, losses }),
        None => Err(SalvageFault::Unlawful),
    }
}
