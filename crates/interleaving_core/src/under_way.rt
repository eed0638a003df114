//! The structure change that is under way.

ghost use Rattle.std.specs.Prelude.{◌≡◌};
ghost use Rattle.interleaving_core.specs.Counting.{change_after, is_nothing};

use step_rules::Kind;

/// The structure change that is under way, as the kinds of steps tell it.
#[derive(Clone, Copy)]
pub enum UnderWay {
    /// None.
    Nothing,
    /// A page was taken, and the buckets are not counted yet.
    Split,
    /// The left bucket took in the right one, whose page is not free yet.
    Merge,
}

impl UnderWay {
    /// What is under way after a step of this kind.
    pub(crate) fn after(self, kind: Kind) -> UnderWay
        ensures { result ≡ change_after kind self }
    {
        match kind {
            Kind::TakePage => UnderWay::Split,
            Kind::WriteLeft => UnderWay::Merge,
            Kind::SetCounts => match self {
                UnderWay::Merge => UnderWay::Merge,
                _ => UnderWay::Nothing,
            },
            Kind::LinkFree => UnderWay::Nothing,
            _ => self,
        }
    }

    /// Whether it is none.
    pub(crate) fn is_nothing(self) -> bool
        ensures { result ≡ is_nothing self }
    {
        matches!(self, UnderWay::Nothing)
    }
}
