//! Laws of the definitions, on the contracts of functions that do nothing.

ghost use Rattle.call_entries.specs.Laws.{AreOfOneCall, LeadToOneSystem};

/// Bytes begin with the entry of at most one call.
pub fn an_entry_is_of_one_call()
    ensures { AreOfOneCall }
{}

/// From a system entries lead to one system alone.
pub fn entries_lead_to_one_system()
    ensures { LeadToOneSystem }
{}
