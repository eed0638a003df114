//! What is counted of all seats.

ghost use Rattle.std.specs.Prelude.{◌≡◌, false, map, IfOk};
ghost use Rattle.interleaving_core.specs.Counting.{changes_counts, count_at, count_behind, counts_for_all, opened_counts, touches_all};
ghost use Rattle.interleaving_core.specs.Counting.{AreSoundCounts, IsCountedSeat, Notes, NotesSearch};
ghost use Rattle.step_rules.specs.declared.kind.Kind.{Kind};

use crate::count::SearchCount;
use crate::under_way::UnderWay;
use numbers::faults::NoMemory;
use std::alloc::Global;
use std::marker::Model;
use step_rules::Kind;

/// The counts of all seats, and the structure change that is under way. Seats count from 1.
#[derive(Drop)]
pub struct SearchCounts {
    counts: Vec<SearchCount>,
    under_way: UnderWay,
}

impl Model for SearchCounts {
    ghost use Rattle.interleaving_core.specs.Counting.{CountsState, AreSoundCounts};

    ghost Value = { CountsState };

    ghost view = { λ s. record { counts = s.counts.items; under_way = s.under_way } };

    ghost invariant = { λ s. AreSoundCounts (record {
      counts = s.counts.items;
      under_way = s.under_way;
    }) };
}

impl SearchCounts {
    /// For this many seats, none of which has searched. Nothing is under way. `NoMemory` where there
    /// is none for a count a seat.
    pub fn new(alloc: Global, seats: usize) -> Result<SearchCounts, NoMemory>
        ensures { IfOk result (λ counts. counts ≡ opened_counts seats) }
    {
        let mut counts = Vec::with_capacity(alloc, seats)?;
        for _ in 0..seats {
            counts.push(SearchCount::unbegun())?;
        }
        Ok(SearchCounts {
            counts,
            under_way: UnderWay::Nothing,
        })
    }

    /// What is counted of a seat.
    pub fn of(&self, seat: u8) -> SearchCount
        requires { IsCountedSeat self.now.counts seat }
        ensures { result ≡ count_at self.now.counts seat }
    {
        self.counts[seat as usize - 1]
    }

    /// No number of changes is past the greatest, and while a structure change is under way no search
    /// under way is calm.
    pub fn are_sound(&self)
        ensures { AreSoundCounts self.now }
    {
        let _ = &self.under_way;
    }

    /// A seat has made a step of this kind, by which a search of its own begins, or goes on to
    /// another page, or is answered by one, or none of these. Most steps do none, and leave all counts
    /// as they are; so it stands in whoever makes the step.
    #[inline(always)]
    pub fn note(&mut self, seat: u8, kind: Kind, begins: bool, goes_on: bool, ends: bool)
        requires { IsCountedSeat self.old.counts seat }
        ensures { Notes seat kind begins goes_on ends self.old self.new }
    {
        if !self.is_counted(seat, kind, begins, goes_on, ends) {
            return;
        }
        if counts_for_all(kind) {
            self.count(seat, kind, begins, goes_on, ends);
        } else {
            self.count_own(seat, begins, goes_on, ends);
        }
    }

    /// A search of a seat has begun by a Grant, and a page has answered it by a Look, with no step of
    /// another seat between.
    pub fn note_search(&mut self, seat: u8)
        requires { IsCountedSeat self.old.counts seat }
        ensures { NotesSearch seat self.old self.new }
    {
        let place = seat as usize - 1;
        self.counts[place] = SearchCount::answered(self.under_way);
    }

    /// Whether a step may change a count.
    fn is_counted(&self, seat: u8, kind: Kind, begins: bool, goes_on: bool, ends: bool) -> bool
        requires { IsCountedSeat self.now.counts seat }
        ensures { result ≡ false → Notes seat kind begins goes_on ends self.now self.now }
    {
        // What is always true of the counts is known of one that is read.
        let _ = &self.under_way;
        changes_counts(kind, begins, goes_on, ends)
    }

    /// A step is counted by which a search of the seat's own begins, or goes on to another page, or is
    /// answered by one, and no more.
    fn count_own(&mut self, seat: u8, begins: bool, goes_on: bool, ends: bool)
        requires { IsCountedSeat self.old.counts seat }
        ensures { (kind : Kind) → counts_for_all kind ≡ false →
            Notes seat kind begins goes_on ends self.old self.new }
    {
        let place = seat as usize - 1;
        let own = self.counts[place].own(begins, goes_on, ends, self.under_way);
        self.counts[place] = own;
    }

    /// A step is counted. The counts of all seats are looked at for four kinds alone.
    fn count(&mut self, seat: u8, kind: Kind, begins: bool, goes_on: bool, ends: bool)
        requires { IsCountedSeat self.old.counts seat }
        ensures { Notes seat kind begins goes_on ends self.old self.new }
    {
        let place = seat as usize - 1;
        let under_way = self.under_way.after(kind);
        let own = self.counts[place]
            .behind(kind, under_way)
            .own(begins, goes_on, ends, under_way);
        count_all(self.counts.as_mut_slice(), kind, under_way);
        self.counts[place] = own;
        self.under_way = under_way;
    }
}

/// A step of this kind, behind which this is under way, is counted for all seats.
fn count_all(counts: &mut [SearchCount], kind: Kind, under_way: UnderWay)
    requires { touches_all kind ≡ false →
        map (count_behind kind under_way) counts.old ≡ counts.old }
    ensures { counts.new ≡ map (count_behind kind under_way) counts.old }
{
    if !touches_all(kind) {
        return;
    }
    for count in counts.iter_mut() {
        *count = count.behind(kind, under_way);
    }
}

/// Whether what is counted may change by a step of this kind, by which a search begins, or goes on
/// to another page, or is answered by one, or none of these.
fn changes_counts(kind: Kind, begins: bool, goes_on: bool, ends: bool) -> bool
    ensures { result ≡ changes_counts kind begins goes_on ends }
{
    begins || goes_on || ends || counts_for_all(kind)
}

/// Whether a step of this kind is counted for more than the searches of its own seat.
fn counts_for_all(kind: Kind) -> bool
    ensures { result ≡ counts_for_all kind }
{
    touches_all(kind) || matches!(kind, Kind::SetCounts | Kind::LinkFree)
}

/// Whether a step of this kind may change what is counted of all seats.
fn touches_all(kind: Kind) -> bool
    ensures { result ≡ touches_all kind }
{
    kind.may_lengthen() || matches!(kind, Kind::TakePage | Kind::WriteLeft)
}
