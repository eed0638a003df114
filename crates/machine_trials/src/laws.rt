//! What was worked by hand. Each stands on the contract of a function that does nothing.

ghost use Rattle.machine_trials.specs.Schedule.{AllKindsCome};
ghost use Rattle.machine_trials.specs.WrongTurns.{WrongTurns};

/// Two seats beside one another: a bucket is split while a search stands on it, a record is put,
/// another removed, and the halves are merged again. Each turn is allowed where it is made, and
/// every kind of step is among them.
pub fn each_kind_of_step_comes_in_a_worked_schedule()
    ensures { AllKindsCome }
{}

/// Turns that break a rule, each refused where it is made: a seat blocked by nobody, a hop past its
/// bucket, a page granted without the directory, a directory given back too deep, an answer taken
/// unseen, a write that changes nothing or finds no room, a merge of large buckets, a split with
/// room, a directory that doubles at each split.
pub fn wrong_turns_are_not_allowed()
    ensures { WrongTurns }
{}
