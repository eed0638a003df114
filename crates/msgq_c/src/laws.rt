//! A law of the definitions, on the contract of a function that does nothing.

ghost use Rattle.msgq_c.specs.Noting.{NotesLeadOn};

use session::queue_model::refusals_leave_the_system;

/// The calls that are to be noted lead on, each answered as its entry says, from the system that the
/// pages and the journal have to the one that the session holds: from an opening on, over all calls
/// and stops, and behind each note and save.
pub fn what_is_noted_leads_on()
    ensures { NotesLeadOn }
{
    refusals_leave_the_system();
}
