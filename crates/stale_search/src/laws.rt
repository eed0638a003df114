//! The laws of searches, and of machines beside which their callers know records.

ghost use Rattle.stale_search.specs.Callers.{AddersKeep};
ghost use Rattle.stale_search.specs.Walks.{SearchCountsFew, SearchWalksOn};

/// What the caller of a machine that takes locks of the file alone knows under its own names
/// stays, for the keys at which the file holds what it held.
pub fn machines_keep_what_their_callers_know()
    ensures { AddersKeep }
{}

/// Each own step of a search takes its walk on, so it counts at most one hop more than steps of
/// other seats may have added since it was granted the directory, and none where no change was
/// under way in all that time.
pub fn a_search_counts_few_hops()
    ensures walks { SearchWalksOn }
    ensures few { SearchCountsFew }
{}
