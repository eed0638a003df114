//! The laws of plans that are carried out. The functions do nothing; their contracts are the laws.

ghost use Rattle.call_writes.specs.WriteLaws.{AllStand, CanBegin, CanGoOnDecided, GoesBack, OneMoreStands, OwesItsWrites, OwesNothingAtEnd};

/// A call that has inserted nothing owes nothing; after its decision it owes its writes, and once
/// nothing is left to do it owes nothing.
pub fn what_is_due_is_owed()
    ensures writes { OwesItsWrites }
    ensures end { OwesNothingAtEnd }
{}

/// What a plan leads to can be carried out from its first trial on. After the decision, over the
/// records with all trials inserted, its writes can be made and lead to those records; where a
/// trial has no room, those that stand are owed back, and can go again.
pub fn what_is_decided_is_owed()
    ensures begins { CanBegin }
    ensures decided { CanGoOnDecided }
    ensures full { GoesBack }
{}

/// The trials come to stand one after the other, and where none is left all of them stand.
pub fn trials_stand_in_order()
    ensures next { OneMoreStands }
    ensures last { AllStand }
{}
