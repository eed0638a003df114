//! Laws of the turns of a call with names. The functions do nothing; their contracts are the laws.

ghost use Rattle.xsi_calls.specs.HeldLaws.{AreFewTurns, TurnsAreRight, TurnsComeNearer};

/// A call is ready exactly where it holds exactly the names that it needs; it takes the next one
/// where those that it holds begin them, and gives one back where they do not.
pub fn a_turn_is_made_for_the_names()
    ensures { TurnsAreRight }
{}

/// A name that is taken, or given back, leaves one turn less; there are none left where it is
/// ready, and at most six.
pub fn turns_come_to_an_end()
    ensures nearer { TurnsComeNearer }
    ensures few { AreFewTurns }
{}
