//! What is counted of one seat.

ghost use Rattle.std.specs.Prelude.{◌≡◌};
ghost use Rattle.interleaving_core.specs.Counting.{answered_count, begun_count, count_behind, own_count, unbegun_count};

use crate::under_way::UnderWay;
use step_rules::Kind;

/// What is counted of a seat's last search, from the step by which it was granted the directory on
/// up to the Look by which a page answered it. It stays until the seat's next search. From
/// `u64::MAX` on a number counts no more.
#[derive(Clone, Copy)]
pub struct SearchCount {
    /// The hops from one page to another.
    pub hops: u64,
    /// The steps that may make a search longer by a hop: the WriteOlds and Tombstones of all seats.
    pub changes: u64,
    /// Whether no structure change was under way in all that time.
    pub calm: bool,
    /// Whether a page has answered it, or none has begun.
    pub over: bool,
}

impl SearchCount {
    /// Before the first search.
    pub(crate) fn unbegun() -> SearchCount
        ensures { result ≡ unbegun_count }
    {
        SearchCount {
            hops: 0,
            changes: 0,
            calm: true,
            over: true,
        }
    }

    /// Of a search that begins while this is under way.
    pub(crate) fn begun(under_way: UnderWay) -> SearchCount
        ensures { result ≡ begun_count under_way }
    {
        SearchCount {
            hops: 0,
            changes: 0,
            calm: under_way.is_nothing(),
            over: false,
        }
    }

    /// Of a search that a page has answered, with no hop and no step of another seat, while this is
    /// under way.
    pub(crate) fn answered(under_way: UnderWay) -> SearchCount
        ensures { result ≡ answered_count under_way }
    {
        SearchCount {
            hops: 0,
            changes: 0,
            calm: under_way.is_nothing(),
            over: true,
        }
    }

    /// After a step of the seat itself, by which a search begins, or the one under way goes on to
    /// another page, or is answered by one, or none of these, and behind which this is under way.
    pub(crate) fn own(
        self,
        begins: bool,
        goes_on: bool,
        ends: bool,
        under_way: UnderWay,
    ) -> SearchCount
        ensures { result ≡ own_count begins goes_on ends under_way self }
    {
        if begins {
            return SearchCount::begun(under_way);
        }
        if self.over {
            return self;
        }
        let hops = if goes_on {
            self.hops.saturating_add(1)
        } else {
            self.hops
        };
        SearchCount {
            hops,
            changes: self.changes,
            calm: self.calm,
            over: ends,
        }
    }

    /// After a step of this kind of any seat, behind which this is under way.
    pub(crate) fn behind(self, kind: Kind, under_way: UnderWay) -> SearchCount
        ensures { result ≡ count_behind kind under_way self }
    {
        if self.over {
            return self;
        }
        SearchCount {
            hops: self.hops,
            changes: self.changes.saturating_add(u64::from(kind.may_lengthen())),
            calm: self.calm && under_way.is_nothing(),
            over: self.over,
        }
    }
}
