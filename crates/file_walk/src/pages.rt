//! The pages of a file are read, once and in their order.

ghost use Rattle.std.specs.Prelude.{◌≡◌, ℕ, ◌≤◌, ◌<◌, ◌^◌, ◌⊎◌, ◌++◌, length, take, IsTrue, IfOk, IfErr, OnOk};
ghost use Rattle.directory.specs.declared.layout.TheConstants.{FIRST_DIRECTORY_PAGE, GREATEST_DEPTH, PAGE_ENTRIES};
ghost use Rattle.directory.specs.Layouts.{IsLayout, least_pages};
ghost use Rattle.file_walk.specs.Outlines.{shape_of_bucket};
ghost use Rattle.file_walk.specs.Order.{HasReadCause, IsFaultIn, IsFirstWrongIn, IsOfMachine, IsReadingFaultIn};
ghost use Rattle.file_walk.specs.Runs.{HasRunCause, HoldsRun, IsToldSince};
ghost use Rattle.file_walk.specs.Readings.{AreEntriesOf, AreFormsOf, IsFormOf, IsOutlineOf, TakesEntries};

use crate::fault::StructureFault;
use crate::form::Form;
use crate::header_page::header_of;
use crate::outline::Outline;
use crate::sealed_run::SealedRun;
use bucket_page::{BucketView, Malformed, PageKind, read_page};
use directory::{DirectoryView, FIRST_DIRECTORY_PAGE, Layout, PAGE_ENTRIES, Range};
use hash_file::Shape;
use page_device::PageDevice;
use std::alloc::{AllocFailed, Global};

/// Reads the header and then each page: its digest first, and then what it spells. Each
/// page is read once; their digests are tested in runs.
pub fn read_outline<D: PageDevice>(
    alloc: Global,
    layout: &Layout,
    device: &mut D,
) -> Result<Outline, StructureFault>
    requires layout { IsLayout layout.now }
    ensures ok { IsTrue (D.is_honest device.old) →
        IfOk result (IsOutlineOf layout.now (D.content device.old)) }
    ensures err { IsTrue (D.is_honest device.old) →
        IfErr result (IsReadingFaultIn layout.now (D.content device.old)) }
    ensures same { D.content device.new ≡ D.content device.old }
    ensures honest { D.is_honest device.new ≡ D.is_honest device.old }
    ensures cause { HasReadCause (D.fault_count device.old) (D.fault_count device.new) result }
{
    let header = header_of(layout, device)?;
    let entries = entries_of(alloc, layout, device, header.depth)?;
    let forms = forms_of(alloc, layout, device, header.pages)?;
    Ok(Outline {
        layout: *layout,
        header,
        entries,
        forms,
    })
}

/// The entries of a directory of a depth, from its pages.
fn entries_of<D: PageDevice>(
    alloc: Global,
    layout: &Layout,
    device: &mut D,
    depth: u8,
) -> Result<Vec<u32>, StructureFault>
    requires layout { IsLayout layout.now }
    requires depth { depth ≤ layout.now.greatest_depth }
    requires whole { least_pages layout.now ≤ length (D.content device.old) }
    ensures ok { IfOk result (λ entries. AreEntriesOf
        layout.now (D.is_honest device.old) (D.content device.old) depth entries.items) }
    ensures err { IsTrue (D.is_honest device.old) → IfErr result (λ fault. IsOfMachine fault
        ⊎ IsFirstWrongIn layout.now (D.content device.old) FIRST_DIRECTORY_PAGE fault) }
    ensures same { D.content device.new ≡ D.content device.old }
    ensures honest { D.is_honest device.new ≡ D.is_honest device.old }
    ensures cause { HasReadCause (D.fault_count device.old) (D.fault_count device.new) result }
{
    let most = entries_at(depth);
    let mut entries = Vec::with_capacity(alloc, most)?;
    let mut run = SealedRun::new(alloc)?;
    for page in FIRST_DIRECTORY_PAGE..layout.root_page {
        take_entries(layout, device, &mut run, page, most, &mut entries)?;
    }
    Ok(entries)
}

/// Entries of a directory of a depth.
fn entries_at(depth: u8) -> usize
    requires { depth ≤ GREATEST_DEPTH }
    ensures { result ≡ 2 ^ depth }
{
    1 << depth
}

/// Keeps the entries of a directory page, up to so many.
fn take_entries<D: PageDevice>(
    layout: &Layout,
    device: &mut D,
    run: &mut SealedRun,
    page: u32,
    most: usize,
    entries: &mut Vec<u32>,
) -> Result<(), StructureFault>
    requires layout { IsLayout layout.now }
    requires held { HoldsRun (D.is_honest device.old) (D.content device.old) run.old }
    requires whole { layout.now.root_page ≤ length (D.content device.old) }
    requires below { page < layout.now.root_page }
    requires room { length entries.old.items ≤ most }
    ensures ok { OnOk result (TakesEntries layout.now (D.is_honest device.old)
        (D.content device.old) page most entries.old.items entries.new.items) }
    ensures err { IsTrue (D.is_honest device.old) → IfErr result (λ fault.
        IsOfMachine fault ⊎ IsFaultIn layout.now (D.content device.old) page fault) }
    ensures held { HoldsRun (D.is_honest device.new) (D.content device.new) run.new }
    ensures same { D.content device.new ≡ D.content device.old }
    ensures honest { D.is_honest device.new ≡ D.is_honest device.old }
    ensures cause { (since : ℕ) → IsToldSince since (D.fault_count device.old) run.old →
        HasRunCause since (D.fault_count device.new) run.new result }
{
    run.reach(device, page, layout.root_page)?;
    let directory = match read_page(run.payload(page)) {
        Ok(PageKind::Directory(directory)) => directory,
        Ok(PageKind::Bucket(_)) => return Err(misplaced(page)),
        Ok(PageKind::Tombstone { .. }) => return Err(misplaced(page)),
        Ok(PageKind::Free { .. }) => return Err(misplaced(page)),
        Err(reason) => return Err(StructureFault::Malformed { page, reason }),
    };
    keep_entries(&directory, most, entries)?;
    Ok(())
}

/// Keeps the entries of a directory page behind those that are kept, up to so many.
fn keep_entries(
    directory: &DirectoryView,
    most: usize,
    entries: &mut Vec<u32>,
) -> Result<(), AllocFailed<u32>>
    requires whole { length directory.now ≡ PAGE_ENTRIES }
    requires room { length entries.old.items ≤ most }
    ensures { OnOk result (entries.new.items ≡ take most (entries.old.items ++ directory.now)) }
{
    for slot in 0..PAGE_ENTRIES {
        if entries.len() == most {
            return Ok(());
        }
        entries.push(directory.entry(slot))?;
    }
    Ok(())
}

/// What is kept of all pages.
fn forms_of<D: PageDevice>(
    alloc: Global,
    layout: &Layout,
    device: &mut D,
    pages: u32,
) -> Result<Vec<Form>, StructureFault>
    requires layout { IsLayout layout.now }
    requires least { least_pages layout.now ≤ pages }
    requires whole { pages ≡ length (D.content device.old) }
    ensures ok { IfOk result (λ forms.
        AreFormsOf layout.now (D.is_honest device.old) (D.content device.old) forms.items) }
    ensures err { IsTrue (D.is_honest device.old) → IfErr result (λ fault. IsOfMachine fault
        ⊎ IsFirstWrongIn layout.now (D.content device.old) layout.now.root_page fault) }
    ensures same { D.content device.new ≡ D.content device.old }
    ensures honest { D.is_honest device.new ≡ D.is_honest device.old }
    ensures cause { HasReadCause (D.fault_count device.old) (D.fault_count device.new) result }
{
    let mut forms = vec![in alloc; Form::Other; layout.root_page as usize]?;
    forms.reserve((pages - layout.root_page) as usize)?;
    let mut run = SealedRun::new(alloc)?;
    for page in layout.root_page..pages {
        forms.push(form_of(layout, device, &mut run, page, pages)?)?;
    }
    Ok(forms)
}

/// What is kept of a page from the root on, of so many.
fn form_of<D: PageDevice>(
    layout: &Layout,
    device: &mut D,
    run: &mut SealedRun,
    page: u32,
    pages: u32,
) -> Result<Form, StructureFault>
    requires layout { IsLayout layout.now }
    requires held { HoldsRun (D.is_honest device.old) (D.content device.old) run.old }
    requires whole { pages ≡ length (D.content device.old) }
    requires behind { layout.now.root_page ≤ page }
    requires within { page < pages }
    ensures ok { IsTrue (D.is_honest device.old) →
        IfOk result (IsFormOf layout.now (D.content device.old) page) }
    ensures err { IsTrue (D.is_honest device.old) → IfErr result (λ fault.
        IsOfMachine fault ⊎ IsFaultIn layout.now (D.content device.old) page fault) }
    ensures held { HoldsRun (D.is_honest device.new) (D.content device.new) run.new }
    ensures same { D.content device.new ≡ D.content device.old }
    ensures honest { D.is_honest device.new ≡ D.is_honest device.old }
    ensures cause { (since : ℕ) → IsToldSince since (D.fault_count device.old) run.old →
        HasRunCause since (D.fault_count device.new) run.new result }
{
    run.reach(device, page, pages)?;
    match read_page(run.payload(page)) {
        Ok(PageKind::Bucket(bucket)) => {
            if bucket.depth() > layout.greatest_depth {
                return Err(StructureFault::Malformed {
                    page,
                    reason: Malformed::Depth,
                });
            }
            Ok(Form::Bucket(shape_of(&bucket)))
        }
        Ok(PageKind::Tombstone { link }) => Ok(Form::Tombstone { left: link }),
        Ok(PageKind::Free { next }) => Ok(Form::Free { next }),
        Ok(PageKind::Directory(_)) => Err(misplaced(page)),
        Err(reason) => Err(StructureFault::Malformed { page, reason }),
    }
}

/// The page is of a kind that does not stand there.
fn misplaced(page: u32) -> StructureFault
    ensures { result ≡ StructureFault.Malformed page Malformed.Kind }
{
    StructureFault::Malformed {
        page,
        reason: Malformed::Kind,
    }
}

/// A bucket without its records.
fn shape_of(bucket: &BucketView) -> Shape
    ensures { result ≡ shape_of_bucket bucket.now }
{
    let range = Range {
        depth: bucket.depth(),
        pattern: bucket.pattern(),
    };
    Shape {
        range,
        next: bucket.next(),
    }
}
