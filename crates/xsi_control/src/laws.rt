//! Laws of a Remove and its sweep. Each stands on the contract of a function that does nothing.

ghost use Rattle.xsi_control.specs.Laws.{BeginsWhole, EndsBehindTheLast, HasFewTurns, KeepsKeyed};

/// Before the first turn each record stands as the system has it.
pub fn a_sweep_begins_with_all()
    ensures { BeginsWhole }
{}

/// No message is left exactly where as many were swept as stood on the queue.
pub fn a_sweep_ends_behind_the_last()
    ensures { EndsBehindTheLast }
{}

/// As many turns follow one another at most as messages stand on a queue at most.
pub fn a_sweep_has_few_turns()
    ensures { HasFewTurns }
{}

/// What a Remove knows between its two phases each answered call keeps: an id is given out once,
/// and no call changes a key.
pub fn others_keep_a_key()
    ensures { KeepsKeyed }
{}
