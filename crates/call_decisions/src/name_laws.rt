//! Laws of the names of calls. The functions do nothing; their contracts are the laws.

ghost use Rattle.call_decisions.specs.NameLaws.{AskUnderNames, NamesGrow, TakeInOrder, WriteUnderNames};

/// A call takes its names in the order of names, each once and at most three, none of them the
/// directory or a page.
pub fn a_call_takes_names_in_order()
    ensures { TakeInOrder }
{}

/// It asks for a record under the name of that record.
pub fn a_call_asks_under_its_names()
    ensures { AskUnderNames }
{}

/// The names under which it inserts and writes are among them, held Exclusive.
pub fn a_call_writes_under_its_names()
    ensures { WriteUnderNames }
{}

/// While it goes on its names grow: none is given back, but by a Remove between its two phases.
pub fn a_calls_names_grow()
    ensures { NamesGrow }
{}
