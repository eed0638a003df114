//! Laws of the rules and of journals. Each stands on the contract of a function that does nothing.

ghost use Rattle.queue_model.specs.Laws.{RefusalsLeave, KeepsLawful, Grows, IsDetermined, SelectsLowest, KeepsOrder};

/// A refusal leaves the system.
pub fn refusals_leave_the_system()
    ensures { RefusalsLeave }
{}

/// From a lawful system a legal journal leads to a lawful one.
pub fn journals_keep_systems_lawful()
    ensures { KeepsLawful }
{}

/// A legal journal and an entry that leads on from where it ended are a legal journal.
pub fn a_journal_grows_by_an_entry()
    ensures { Grows }
{}

/// A legal journal leads to one system, the one after it.
pub fn a_journal_determines_its_system()
    ensures { IsDetermined }
{}

/// A receive of a type below 0 takes the first message of the lowest type in range that stands on
/// the queue, and finds none only where no type in range stands there.
pub fn a_lowest_type_is_selected()
    ensures { SelectsLowest }
{}

/// From a lawful system each legal journal is first in, first out: of each queue a message is
/// received only when no message of its type with a smaller serial is left, no serial is received
/// twice, and after a Remove that was answered Done nothing is sent to that id or received from it.
pub fn journals_are_first_in_first_out()
    ensures { KeepsOrder }
{}
