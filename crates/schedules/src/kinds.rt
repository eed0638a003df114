//! The kinds of step by their names.

ghost use Rattle.std.specs.Prelude.{◌≡◌};
ghost use Rattle.std.specs.List.{find};
ghost use Rattle.std.specs.Option.{option_copied};
ghost use Rattle.schedules.specs.Events.{is_named, kind_named};

use crate::split::is_word;
use step_rules::Kind;

/// All kinds, in the order of docs/STEPS.md.
pub(crate) const KINDS: [Kind; 21] = [
    Kind::Grant,
    Kind::Release,
    Kind::ReadDepth,
    Kind::ReadEntry,
    Kind::Look,
    Kind::Hop,
    Kind::WriteRecord,
    Kind::Decide,
    Kind::TakePage,
    Kind::CopyDirectory,
    Kind::RaiseDepth,
    Kind::WriteNew,
    Kind::WriteOld,
    Kind::Retarget,
    Kind::SetCounts,
    Kind::WriteLeft,
    Kind::Tombstone,
    Kind::Convert,
    Kind::WriteFree,
    Kind::LinkFree,
    Kind::LowerDepth,
];

/// The kind that has this name.
pub(crate) fn kind_named(name: &[u8]) -> Option<Kind>
    ensures { result ≡ kind_named name.now }
{
    find_named(name, &KINDS).copied()
}

/// The first of these kinds that has this name.
fn find_named<'a>(name: &[u8], kinds: &'a [Kind]) -> Option<&'a Kind>
    ensures { option_copied result ≡ find (is_named name.now) kinds.now }
{
    kinds
        .iter()
        .find(|kind| is_word(name, kind.name().as_bytes()))
}
