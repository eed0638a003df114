//! Laws of what calls owe. The functions do nothing; their contracts are the laws.

ghost use Rattle.call_decisions.specs.OwedLaws.{AnswersOwe, EndsSweep, IsLocal, LeavesTheOthers, LeavesTheRest, OwesAlone, OwesTrialsBack, PaysBySweeping, PaysByWriting, SweepsOwe};

/// Each write that a call makes, and each insertion on trial, leaves what will stand
/// once nothing is owed.
pub fn what_is_owed_is_paid_by_writes()
    ensures trials { OwesTrialsBack }
    ensures writes { PaysByWriting }
    ensures sweeps { PaysBySweeping }
    ensures ends { EndsSweep }
{}

/// A call that is answered owes, under its own names alone, what leads to the system after it.
pub fn a_decision_owes_the_system_after()
    ensures answers { AnswersOwe }
    ensures sweeps { SweepsOwe }
{}

/// Seats that owe records at different keys don't meet: at each key one of them decides what will
/// stand, whatever the others write elsewhere.
pub fn a_seat_owes_its_own()
    ensures local { IsLocal }
    ensures rest { LeavesTheRest }
    ensures alone { OwesAlone }
    ensures others { LeavesTheOthers }
{}
