//! A file is checked: its structure, each of its records by itself, and that all together are those
//! of one system.

ghost use Rattle.std.specs.Prelude.{◌≡◌, ◌⊎◌, false, IsTrue, IfOk, IfErr};
ghost use Rattle.record_walk.specs.Files.{HasRecords};
ghost use Rattle.record_walk.specs.Systems.{AreQueueIds, IsSystemOf};
ghost use Rattle.file_check.specs.Records.{HasCheckCause};
ghost use Rattle.file_check.specs.Right.{IsRightFileOf};
ghost use Rattle.file_check.specs.Whole.{IsFileIn, IsFileOf, IsToldIn, IsToldOf, IsWalkFault};
ghost use Rattle.file_check.specs.Words.{IsLayout, IsStructureIn, OLDER_LAYOUT, file_in, held_in};

use crate::compared::{has_just, quick_system};
use crate::fault::CheckFault;
use crate::ids::queue_ids;
use crate::records::test_records;
use crate::strays::test_strays;
use bucket_page::PseudoKey;
use directory::{LAYOUT, Layout, OLDER_LAYOUT, layouts_are_right};
use file_walk::{Outline, Structure, check_structure, check_structure_in};
use page_device::PageDevice;
use queue_model::System;
use record_walk::{FileRecords, read_system};
use std::alloc::Global;

/// What was found of the file on a device, and the device.
pub struct Checked<D> {
    pub device: D,
    pub found: Result<System, CheckFault>,
}

/// The system whose records a file holds. An answer is lawful and not stopped; the file is sound
/// and quiet, its directory and its counts are exact, and it holds exactly the records of that
/// system. A fault is the first thing that is wrong: with the structure, with a record by itself,
/// with all records together, with a record beside them. Nothing is written; the device is given
/// back as it was.
pub fn check<D: PageDevice, K: PseudoKey + Drop>(alloc: Global, device: D, keys: K) -> Checked<D>
    ensures ok { IsTrue (D.is_honest device) →
        IfOk result.found (IsFileOf (K.of_key keys) (D.content device)) }
    ensures err { IsTrue (D.is_honest device) →
        IfErr result.found (IsToldOf (K.of_key keys) (D.content device)) }
    ensures same { D.content result.device ≡ D.content device }
    ensures honest { D.is_honest result.device ≡ D.is_honest device }
    ensures cause { HasCheckCause
        (D.fault_count device) (D.fault_count result.device) result.found }
{
    layouts_are_right();
    check_in(alloc, &LAYOUT, device, keys)
}

/// The same of a file of version 1. Its queues have owner and creator 0, group 0 and mode 0666. A
/// file of today's version is of another.
pub fn check_older<D: PageDevice, K: PseudoKey + Drop>(
    alloc: Global,
    device: D,
    keys: K,
) -> Checked<D>
    ensures ok { IsTrue (D.is_honest device) →
        IfOk result.found (IsFileIn OLDER_LAYOUT (K.of_key keys) (D.content device)) }
    ensures err { IsTrue (D.is_honest device) →
        IfErr result.found (IsToldIn OLDER_LAYOUT (K.of_key keys) (D.content device)) }
    ensures same { D.content result.device ≡ D.content device }
    ensures honest { D.is_honest result.device ≡ D.is_honest device }
    ensures cause { HasCheckCause
        (D.fault_count device) (D.fault_count result.device) result.found }
{
    layouts_are_right();
    check_in(alloc, &OLDER_LAYOUT, device, keys)
}

/// The system whose records a file of a layout holds, as `check` tells it of today's.
pub fn check_in<D: PageDevice, K: PseudoKey + Drop>(
    alloc: Global,
    layout: &Layout,
    device: D,
    keys: K,
) -> Checked<D>
    requires { IsLayout layout.now }
    ensures ok { IsTrue (D.is_honest device) →
        IfOk result.found (IsFileIn layout.now (K.of_key keys) (D.content device)) }
    ensures err { IsTrue (D.is_honest device) →
        IfErr result.found (IsToldIn layout.now (K.of_key keys) (D.content device)) }
    ensures same { D.content result.device ≡ D.content device }
    ensures honest { D.is_honest result.device ≡ D.is_honest device }
    ensures cause { HasCheckCause
        (D.fault_count device) (D.fault_count result.device) result.found }
{
    let mut device = device;
    let structure = match check_structure_in(alloc, layout, &mut device) {
        Ok(structure) => structure,
        Err(fault) => {
            return Checked {
                device,
                found: Err(CheckFault::Structure(fault)),
            };
        }
    };
    match quick_system(
        alloc,
        layout,
        &mut device,
        &keys,
        structure.chain.as_slice(),
    ) {
        Some(system) => Checked {
            device,
            found: Ok(system),
        },
        None => check_each(alloc, layout, device, keys, structure),
    }
}

/// Whether the file on a device is that of a system: its structure and each of its records are
/// right, and it has exactly the records of the system, which is not stopped. A no says nothing of
/// the file.
pub fn is_file_of<D: PageDevice, K: PseudoKey>(
    alloc: Global,
    device: &mut D,
    keys: &K,
    system: &System,
) -> Result<bool, CheckFault>
    ensures ok { IsTrue (D.is_honest device.old) → IfOk result (λ is. IsTrue is →
        system.now.stopped ≡ false →
        IsFileOf (K.of_key keys.now) (D.content device.old) system.now) }
    ensures same { D.content device.new ≡ D.content device.old }
    ensures honest { D.is_honest device.new ≡ D.is_honest device.old }
    ensures cause { HasCheckCause (D.fault_count device.old) (D.fault_count device.new) result }
{
    layouts_are_right();
    let structure = check_structure(alloc, device)?;
    let chain = structure.chain.as_slice();
    test_records(&LAYOUT, device, keys, chain)?;
    Ok(has_just(alloc, &LAYOUT, device, chain, system).is_some())
}

/// The system whose records a file holds, of which the structure is right. A fault is the first
/// thing that is wrong with a record by itself, with all records together, or with a record beside
/// them.
fn check_each<D: PageDevice, K: PseudoKey + Drop>(
    alloc: Global,
    layout: &Layout,
    device: D,
    keys: K,
    structure: Structure,
) -> Checked<D>
    requires layout { IsLayout layout.now }
    requires structure { IsTrue (D.is_honest device) → IsStructureIn
        layout.now (D.content device) structure.outline structure.chain.items }
    ensures ok { IsTrue (D.is_honest device) →
        IfOk result.found (IsFileIn layout.now (K.of_key keys) (D.content device)) }
    ensures err { IsTrue (D.is_honest device) →
        IfErr result.found (IsToldIn layout.now (K.of_key keys) (D.content device)) }
    ensures same { D.content result.device ≡ D.content device }
    ensures honest { D.is_honest result.device ≡ D.is_honest device }
    ensures cause { HasCheckCause
        (D.fault_count device) (D.fault_count result.device) result.found }
{
    let mut device = device;
    match test_records(layout, &mut device, &keys, structure.chain.as_slice()) {
        Ok(()) => check_slowly(alloc, layout, device, keys, structure),
        Err(fault) => Checked {
            device,
            found: Err(fault),
        },
    }
}

/// The system whose records a file holds, of which structure and records are right. A fault is the
/// first thing that is wrong with all records together, or with a record beside them.
fn check_slowly<D: PageDevice, K: PseudoKey + Drop>(
    alloc: Global,
    layout: &Layout,
    device: D,
    keys: K,
    structure: Structure,
) -> Checked<D>
    requires layout { IsLayout layout.now }
    requires file { IsTrue (D.is_honest device) → IsRightFileOf
        layout.now (K.of_key keys) (D.content device) structure.outline structure.chain.items }
    ensures ok { IsTrue (D.is_honest device) →
        IfOk result.found (IsFileIn layout.now (K.of_key keys) (D.content device)) }
    ensures err { IsTrue (D.is_honest device) →
        IfErr result.found (IsToldIn layout.now (K.of_key keys) (D.content device)) }
    ensures same { D.content result.device ≡ D.content device }
    ensures honest { D.is_honest result.device ≡ D.is_honest device }
    ensures cause { HasCheckCause
        (D.fault_count device) (D.fault_count result.device) result.found }
{
    let mut device = device;
    let Structure { outline, chain } = structure;
    let ids = match queue_ids(alloc, layout, &mut device, chain.as_slice()) {
        Ok(ids) => ids,
        Err(fault) => {
            return Checked {
                device,
                found: Err(fault),
            };
        }
    };
    let walked = walk(alloc, layout, device, keys, outline, ids.as_slice());
    let Checked { mut device, found } = walked;
    let system = match found {
        Ok(system) => system,
        Err(fault) => {
            return Checked {
                device,
                found: Err(fault),
            };
        }
    };
    match test_strays(layout, &mut device, chain.as_slice(), &system) {
        Ok(()) => Checked {
            device,
            found: Ok(system),
        },
        Err(fault) => Checked {
            device,
            found: Err(fault),
        },
    }
}

/// The system of the records of a file of which structure and records are right, and the ids of its
/// Queues are these.
fn walk<D: PageDevice, K: PseudoKey + Drop>(
    alloc: Global,
    layout: &Layout,
    device: D,
    keys: K,
    outline: Outline,
    ids: &[u32],
) -> Checked<D>
    requires layout { IsLayout layout.now }
    requires records { IsTrue (D.is_honest device) →
        HasRecords layout.now (K.of_key keys) (D.content device) outline }
    requires ids { IsTrue (D.is_honest device) →
        AreQueueIds (held_in layout.now (file_in layout.now (D.content device))) ids.now }
    ensures ok { IsTrue (D.is_honest device) → IfOk result.found
        (IsSystemOf (held_in layout.now (file_in layout.now (D.content device)))) }
    ensures err { IsTrue (D.is_honest device) → IfErr result.found
        (IsWalkFault (held_in layout.now (file_in layout.now (D.content device)))) }
    ensures same { D.content result.device ≡ D.content device }
    ensures honest { D.is_honest result.device ≡ D.is_honest device }
    ensures cause { HasCheckCause
        (D.fault_count device) (D.fault_count result.device) result.found }
{
    let mut records = FileRecords::new(layout, device, outline, keys);
    let read = read_system(&mut records, alloc, ids);
    let device = records.into_device();
    match read {
        Ok(system) => Checked {
            device,
            found: Ok(system),
        },
        Err(fault) => Checked {
            device,
            found: Err(CheckFault::from(fault)),
        },
    }
}
