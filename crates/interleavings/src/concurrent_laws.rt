//! Laws of calls of several seats. The functions do nothing; their contracts are the laws.

ghost use Rattle.interleavings.specs.ConcurrentLaws.{BeginTogether, EndTogether, LeaveAtRest, OweApart, RestTogether, StepTogether, StopTogether};

use crate::xsi_calls::calls_begin_right;

/// Over a file at rest with a system, seats without a call are together over that system.
pub fn calls_rest_together()
    ensures { RestTogether }
{}

/// A call begins beside the others, whatever these are at.
pub fn calls_begin_together()
    ensures { BeginTogether }
{
    calls_begin_right();
}

/// A step of one of them leaves them together: over the system after the answer that its call has
/// come to by it, as the rules say, or over the same. What is so at the place of each other call
/// stays so; records under its names stay.
pub fn calls_step_together()
    ensures { StepTogether }
{}

/// A call that is over leaves its seat.
pub fn calls_end_together()
    ensures { EndTogether }
{}

/// The system is stopped beside calls, whatever they are at.
pub fn calls_stop_together()
    ensures { StopTogether }
{}

/// No two seats owe one record.
pub fn calls_owe_apart()
    ensures { OweApart }
{}

/// Once no seat has a call the file is at rest with the system that they have come to: it holds
/// exactly its records.
pub fn calls_leave_the_file_at_rest()
    ensures { LeaveAtRest }
{}
