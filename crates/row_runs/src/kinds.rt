//! Kinds of step by the names of docs/STEPS.md, and how many of each a seat has made.

use page_locks::MAX_SEATS;
use step_rules::Kind;

/// How many kinds there are.
const KINDS: usize = 21;

/// All kinds, in the order of docs/STEPS.md.
const ALL: [Kind; KINDS] = [
    Kind::Grant,
    Kind::Release,
    Kind::ReadDepth,
    Kind::ReadEntry,
    Kind::Look,
    Kind::Hop,
    Kind::WriteRecord,
    Kind::Decide,
    Kind::TakePage,
    Kind::CopyDirectory,
    Kind::RaiseDepth,
    Kind::WriteNew,
    Kind::WriteOld,
    Kind::Retarget,
    Kind::SetCounts,
    Kind::WriteLeft,
    Kind::Tombstone,
    Kind::Convert,
    Kind::WriteFree,
    Kind::LinkFree,
    Kind::LowerDepth,
];

/// The kind of this name.
pub fn kind_named(name: &[u8]) -> Option<Kind> {
    for kind in &ALL {
        if kind.name().as_bytes() == name {
            return Some(*kind);
        }
    }
    None
}

/// How many steps of each kind each seat has made since its work began.
#[derive(Clone, Copy)]
pub struct Made {
    steps: [[u32; KINDS]; MAX_SEATS as usize],
}

impl Made {
    /// None.
    pub const NONE: Made = Made {
        steps: [[0; KINDS]; MAX_SEATS as usize],
    };

    /// The work of a seat begins.
    pub fn begin(&mut self, seat: u8) {
        if let Some(steps) = self.steps.get_mut(usize::from(seat).saturating_sub(1)) {
            *steps = [0; KINDS];
        }
    }

    /// A seat has made one step more.
    pub fn note(&mut self, seat: u8, kind: Kind) {
        let Some(steps) = self.steps.get_mut(usize::from(seat).saturating_sub(1)) else {
            return;
        };
        for (made, its) in steps.iter_mut().zip(&ALL) {
            if *its == kind {
                *made = made.saturating_add(1);
            }
        }
    }

    /// How many of a kind a seat has made.
    pub fn of(&self, seat: u8, kind: Kind) -> u32 {
        let Some(steps) = self.steps.get(usize::from(seat).saturating_sub(1)) else {
            return 0;
        };
        for (made, its) in steps.iter().zip(&ALL) {
            if *its == kind {
                return *made;
            }
        }
        0
    }
}
