//! Laws of payments. The functions do nothing; their contracts are the laws.

ghost use Rattle.call_writes.specs.PaymentLaws.{OwesNothingAtEnd, OwesWhatItHolds, PaysWhatIsDecided, UndoesItsTrials};

/// A call whose trials all stand, and that has come to what its inquiry decided, pays what leads to
/// the records of the system after, and owes nothing under other names. One of which a trial had no
/// room owes the deletion of those that stand.
pub fn what_is_decided_is_paid()
    ensures decided { PaysWhatIsDecided }
    ensures full { UndoesItsTrials }
{}

/// While it lasts it owes records alone of which the names are held Exclusive.
pub fn a_payment_owes_what_is_held()
    ensures { OwesWhatItHolds }
{}

/// Where nothing is left to do nothing is owed.
pub fn a_payment_that_is_over_owes_nothing()
    ensures { OwesNothingAtEnd }
{}
