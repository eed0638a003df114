//! Laws of decisions. The functions do nothing; their contracts are the laws.

ghost use Rattle.call_decisions.specs.Laws.{TriesRightly};
ghost use Rattle.call_decisions.specs.Others.{LeavesOthers};

/// What a call inserts on trial keeps the limits of records, stands under the names that it holds
/// Exclusive, and finds nothing at its keys in any file that has the records of the system under
/// these names.
pub fn a_plan_is_tried_where_nothing_stands()
    ensures { TriesRightly }
{}

/// A call that is answered leaves what each call can tell that holds the name of its queue or key,
/// and no name under which the first one writes. So what others decide between the readings of a
/// call changes nothing of what it knows.
pub fn others_leave_what_a_call_can_tell()
    ensures { LeavesOthers }
{}
