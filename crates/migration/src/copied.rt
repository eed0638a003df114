//! A file is read, and a new one made of its system.

ghost use Rattle.std.specs.Prelude.{◌≡◌, ◌+◌, ◌≤◌, [], max, min, IsTrue, IfOk, IfErr};
ghost use Rattle.directory.specs.declared.layout.TheConstants.{LEAST_PAGES};
ghost use Rattle.page_device.specs.declared.page.TheConstants.{MAX_PAGES};
ghost use Rattle.file_check.specs.Words.{IsLayout};
ghost use Rattle.migration.specs.Causes.{HasCopyCause};
ghost use Rattle.migration.specs.Copying.{IsCopied, IsToldOfCopy};

use crate::fault::CopyFault;
use crate::made::{Made, Target, make};
use bucket_page::PseudoKey;
use directory::{LAYOUT, LEAST_PAGES, Layout, OLDER_LAYOUT};
use file_check::{Checked, check_in};
use page_device::{MAX_PAGES, PageDevice};
use queue_model::System;
use std::alloc::Global;

/// What became of a file that was copied, and both devices.
#[derive(Drop)]
pub struct Copied<O, N> {
    pub old: O,
    pub new: N,
    pub found: Result<System, CopyFault>,
}

/// Makes a new file of today's layout, of so many pages as the target says, of the system that the
/// file of a layout holds. The old file is only read, and refused as `check_in` refuses it. Of one
/// of version 1 the owner and the creator of each queue are user 0 of group 0, and its mode is 0666.
/// Where it answers, the new file was checked to be that of the system, and is synced. Both devices
/// are as honest as they were.
pub fn copy<O: PageDevice, N: PageDevice, K: PseudoKey + Drop>(
    alloc: Global,
    layout: &Layout,
    old: O,
    target: Target<N>,
    keys: K,
) -> Copied<O, N>
    requires layout { IsLayout layout.now }
    requires empty { N.content target.device ≡ [] }
    requires least { LEAST_PAGES ≤ target.pages }
    requires most { target.pages ≤ MAX_PAGES }
    ensures ok { IsTrue (O.is_honest old) → IsTrue (N.is_honest target.device) →
        IfOk result.found (IsCopied layout.now
        (K.of_key keys) target.pages (O.content old) (N.content result.new)) }
    // The old file is refused for the first thing that is wrong with it, and the new one for want
    // of room only where a record has none.
    ensures err { IfErr result.found (IsToldOfCopy layout.now (K.of_key keys) target.pages
        (O.content old) (IsTrue (O.is_honest old)) (IsTrue (N.is_honest target.device))) }
    ensures same { O.content result.old ≡ O.content old }
    ensures honest { (O.is_honest result.old ≡ O.is_honest old)
        × (N.is_honest result.new ≡ N.is_honest target.device) }
    ensures synced { IsTrue (N.is_honest target.device) →
        IfOk result.found (λ _. IsTrue (N.is_synced result.new)) }
    ensures cause { HasCopyCause (O.fault_count old) (O.fault_count result.old)
        (N.fault_count target.device) (N.fault_count result.new) result.found }
{
    let Checked { device: old, found } = check_in(alloc, layout, old, &keys);
    let system = match found {
        Ok(system) => system,
        Err(fault) => {
            return Copied {
                old,
                new: target.device,
                found: Err(CopyFault::Old(fault)),
            };
        }
    };
    let Made { device: new, made } = make(alloc, target, &keys, &system);
    match made {
        Ok(()) => Copied {
            old,
            new,
            found: Ok(system),
        },
        Err(fault) => Copied {
            old,
            new,
            found: Err(CopyFault::New(fault)),
        },
    }
}

/// Pages of the file that one of version 1 of so many pages becomes: 224 more, as today's directory
/// has, within the limits.
pub fn migrated_pages(older: u32) -> u32
    ensures value { result ≡ max LEAST_PAGES (min (older + 224) MAX_PAGES) }
    ensures least { LEAST_PAGES ≤ result }
    ensures most { result ≤ MAX_PAGES }
{
    older
        .saturating_add(LAYOUT.root_page - OLDER_LAYOUT.root_page)
        .clamp(LEAST_PAGES, MAX_PAGES)
}
