//! Laws of calls. The functions do nothing; their contracts are the laws.

ghost use Rattle.std.specs.Prelude.{◌+◌, ◌<◌};
ghost use Rattle.xsi_calls.specs.FileLocks.{HoldTheirFileLocks};
ghost use Rattle.xsi_calls.specs.Laws.{BeginFewSearches, BeginRight, HaveFewSteps, HaveFewStepsLeft, HoldTheirNames, MOST_CALL_STEPS, MOST_STEPS_LEFT, NameWhatIsThere, ReceiveByThree};

use crate::undecided_laws::calls_decide_in_few_steps;

/// A call that has just begun has few steps left until it is over, if no other seat steps.
pub fn calls_have_few_steps()
    ensures few { HaveFewSteps }
    ensures most { MOST_CALL_STEPS < 4000000 }
{
    calls_decide_in_few_steps();
}

/// At each of its places, whatever the steps of others, a call has few steps left until it is over,
/// if no other seat steps: with those of a call that has just begun fewer than a drive makes.
pub fn calls_have_few_steps_left()
    ensures few { HaveFewStepsLeft }
    ensures most { MOST_STEPS_LEFT + MOST_CALL_STEPS < 4000000 }
{}

/// At each of its places the names that a call holds, besides the directory and pages, are its own,
/// in their kinds.
pub fn calls_hold_their_names()
    ensures { HoldTheirNames }
{}

/// Until its Decide the queue that a Get names is the next id of the system, so its own, and the key
/// that a Remove names, unless it is refused, is that of its queue.
pub fn calls_name_what_is_there()
    ensures { NameWhatIsThere }
{}

/// Of the file a call holds at each of its places exactly the locks that it asks for there: the
/// directory to read in a search alone, Selective in the second try of an insert or in a merge,
/// Exclusive from a merge's Convert on, and pages in an access alone, as it locks them.
pub fn calls_hold_their_file_locks()
    ensures { HoldTheirFileLocks }
{}

/// A call has begun no more searches than it may ask questions, until it inserts on trial; and a
/// Receive, which inserts nothing, at most three until it has decided.
pub fn a_call_begins_few_searches()
    ensures asks { BeginFewSearches }
    ensures receive { ReceiveByThree }
{}

/// A call that has just begun goes on right, over each system with which the file agrees, whatever
/// records stand.
pub fn calls_begin_right()
    ensures { BeginRight }
{}
