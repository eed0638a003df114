//! The plan of a call, lent.

ghost use Rattle.std.specs.Prelude.{◌≡◌, MatchOption, None, true};
ghost use Rattle.call_decisions.specs.Anything.{plan_of};
ghost use Rattle.call_writes.specs.Dues.{IsBehind, IsNext, next_deed};

use crate::deed::Deed;
use crate::due::Due;
use call_decisions::AnyInquiry;
use queue_model::Call;
use std::marker::Model;
use xsi_inquiry::{Inquiry, MAX_TRIALS, MAX_WRITES, Write};

/// The plan of a call, lent.
#[derive(Drop)]
pub struct PlanOf<'a> {
    pub(crate) call: &'a Call,
    pub(crate) inquiry: &'a AnyInquiry,
}

impl<'a> Model for PlanOf<'a> {
    ghost use Rattle.call_decisions.specs.Anything.{plan_of};
    ghost use Rattle.xsi_inquiry.specs.Writing.{Plan};

    ghost Value = { Plan };

    ghost view = { λ p. plan_of p.call.now p.inquiry.now };
}

impl<'a> PlanOf<'a> {
    /// That of the inquiry of a call.
    pub fn new(call: &'a Call, inquiry: &'a AnyInquiry) -> PlanOf<'a>
        ensures { result ≡ plan_of call.now inquiry.now }
    {
        PlanOf { call, inquiry }
    }

    /// The deed that comes next, and what is due once it has written; none where no deed is left.
    pub(crate) fn next(&self, due: Due) -> Option<(Deed<'a>, Due)>
        ensures { MatchOption result (next_deed self.now due ≡ None)
            (λ next. IsNext self.now due next.0 next.1) }
    {
        match due {
            Due::Trying(place) => self.trial(place),
            Due::Full(_) => None,
            Due::Undoing(standing) => self.undo(standing),
            Due::Writing(from) => self.write(from),
        }
    }

    fn trial(&self, place: usize) -> Option<(Deed<'a>, Due)>
        ensures { MatchOption result (next_deed self.now (Due.Trying place) ≡ None)
            (λ next. IsNext self.now (Due.Trying place) next.0 next.1) }
    {
        match self.inquiry.trial(self.call, place) {
            None => None,
            Some(entry) => Some((Deed::Trial(entry), self.behind(Due::Trying(place)))),
        }
    }

    fn undo(&self, standing: usize) -> Option<(Deed<'a>, Due)>
        ensures { MatchOption result (next_deed self.now (Due.Undoing standing) ≡ None)
            (λ next. IsNext self.now (Due.Undoing standing) next.0 next.1) }
    {
        if standing == 0 {
            return None;
        }
        match self.inquiry.trial(self.call, standing - 1) {
            None => None,
            Some(entry) => {
                let deed = Deed::Write(Write::Delete(entry.key()));
                Some((deed, self.behind(Due::Undoing(standing))))
            }
        }
    }

    fn write(&self, from: usize) -> Option<(Deed<'a>, Due)>
        ensures { MatchOption result (next_deed self.now (Due.Writing from) ≡ None)
            (λ next. IsNext self.now (Due.Writing from) next.0 next.1) }
    {
        match self.inquiry.next_write(self.call, from) {
            None => None,
            Some((slot, write)) => Some((Deed::Write(write), Due::Writing(slot + 1))),
        }
    }

    /// Whether it is seen of what is due that no deed is left, without a look at the plan: behind the
    /// last write that is so, and behind as many trials as there may be.
    #[inline(always)]
    pub(crate) fn is_done(&self, due: Due) -> bool
        ensures { result ≡ true → next_deed self.now due ≡ None }
    {
        // The plan is that of an inquiry, so it is small.
        let _ = &self.inquiry;
        match due {
            Due::Trying(place) => place >= MAX_TRIALS,
            Due::Full(_) => true,
            Due::Undoing(standing) => standing == 0,
            Due::Writing(from) => from >= MAX_WRITES,
        }
    }

    /// What is due once that deed has written: of writes, from behind its slot on. It stands in the
    /// step that has written, since the plan is two references.
    #[inline(always)]
    pub(crate) fn behind(&self, due: Due) -> Due
        ensures { IsBehind self.now due result }
    {
        match due {
            Due::Trying(place) if place < MAX_TRIALS => Due::Trying(place + 1),
            Due::Trying(place) => Due::Trying(place),
            Due::Full(standing) => Due::Full(standing),
            Due::Undoing(standing) => Due::Undoing(standing.saturating_sub(1)),
            Due::Writing(from) => match self.inquiry.next_write(self.call, from) {
                None => Due::Writing(from),
                Some((slot, _)) => Due::Writing(slot + 1),
            },
        }
    }
}
