//! The structure of a file: all but its records.

ghost use Rattle.std.specs.Prelude.{◌≡◌, IsTrue, IfOk, IfErr};
ghost use Rattle.directory.specs.Layouts.{IsLayout};
ghost use Rattle.file_walk.specs.Order.{HasReadCause};
ghost use Rattle.file_walk.specs.Structure.{IsFirstFault, IsFirstFaultIn, IsStructureIn, IsStructureOf};

use crate::chain::chain_of;
use crate::fault::StructureFault;
use crate::index::test_directory;
use crate::outline::Outline;
use crate::pages::read_outline;
use crate::spares::test_spares;
use directory::{LAYOUT, Layout, layouts_are_right};
use page_device::PageDevice;
use std::alloc::Global;

/// A file of which the structure is right: its outline, and the pages of its chain in their order.
#[derive(Drop)]
pub struct Structure {
    pub outline: Outline,
    pub chain: Vec<u32>,
}

/// Tests the structure of the file on a device: page 0, the other pages, the chain of buckets,
/// the list of free pages, the directory. The first thing that is wrong, in this order, is
/// answered. Nothing is written.
///
/// Each page is read once, and its digest tested. Beside 64 KB while pages are read and four bytes
/// an entry it takes 21 bytes a page, and as much again while a list grows; the time grows with the
/// pages and the entries alone.
pub fn check_structure<D: PageDevice>(
    alloc: Global,
    device: &mut D,
) -> Result<Structure, StructureFault>
    ensures ok { IsTrue (D.is_honest device.old) → IfOk result (λ structure.
        IsStructureOf (D.content device.old) structure.outline structure.chain.items) }
    ensures err { IsTrue (D.is_honest device.old) →
        IfErr result (IsFirstFault (D.content device.old)) }
    ensures same { D.content device.new ≡ D.content device.old }
    ensures honest { D.is_honest device.new ≡ D.is_honest device.old }
    ensures cause { HasReadCause (D.fault_count device.old) (D.fault_count device.new) result }
{
    layouts_are_right();
    check_structure_in(alloc, &LAYOUT, device)
}

/// The same of a file of a layout.
pub fn check_structure_in<D: PageDevice>(
    alloc: Global,
    layout: &Layout,
    device: &mut D,
) -> Result<Structure, StructureFault>
    requires layout { IsLayout layout.now }
    ensures ok { IsTrue (D.is_honest device.old) → IfOk result (λ structure.
        IsStructureIn layout.now (D.content device.old) structure.outline structure.chain.items) }
    ensures err { IsTrue (D.is_honest device.old) →
        IfErr result (IsFirstFaultIn layout.now (D.content device.old)) }
    ensures same { D.content device.new ≡ D.content device.old }
    ensures honest { D.is_honest device.new ≡ D.is_honest device.old }
    ensures cause { HasReadCause (D.fault_count device.old) (D.fault_count device.new) result }
{
    let outline = read_outline(alloc, layout, device)?;
    let chain = chain_of(alloc, &outline)?;
    test_spares(alloc, &outline, &chain)?;
    test_directory(&outline, &chain)?;
    Ok(Structure { outline, chain })
}
