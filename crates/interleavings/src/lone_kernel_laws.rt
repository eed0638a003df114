//! Laws of calls that are made one at a time, on a kernel. The functions do nothing; their
//! contracts are the laws.

ghost use Rattle.interleavings.specs.LoneCalls.{GoesOnAlone};
ghost use Rattle.interleavings.specs.LoneKernelLaws.{AnswersByTheRules, AnswersLoneCalls, BeginsOnAKernel, ClosesAKernel, DrivesByTheRules, OpensAKernel, RefusesAtRest, StopsAKernel, StopsAWaitingCall};

use crate::concurrent_laws::calls_begin_together;
use interleaving_core::xsi_calls::calls_have_few_steps;

/// A call that is made alone goes on: each step of it leaves fewer steps, unless it has ended or a
/// transfer of the device failed; nobody blocks it; and it is served still, unless the step failed.
pub fn a_lone_call_goes_on()
    ensures { GoesOnAlone }
{}

/// A kernel that is opened over the file of a system rests over that system.
pub fn a_kernel_opens_at_rest<K>()
    ensures { OpensAKernel K }
{}

/// A call that begins on a kernel at rest is served over the system over which it rested.
pub fn a_call_begins_on_a_kernel_at_rest<K>()
    ensures { BeginsOnAKernel K }
{
    calls_begin_together();
    calls_have_few_steps();
}

/// Each step of it leaves it served, or tells its seat what the rules say and leaves the kernel at
/// rest over the system after it; unless the file fails, or has no room.
pub fn a_lone_step_answers_by_the_rules<K>()
    ensures { AnswersByTheRules K }
{
    calls_begin_together();
    calls_have_few_steps();
}

/// A drive of it is never given up: its last step does not move, and leaves what each step of it
/// leaves.
pub fn a_lone_drive_answers_by_the_rules<K>()
    ensures { DrivesByTheRules K }
{
    calls_begin_together();
    calls_have_few_steps();
}

/// A call that is begun on a kernel at rest, and driven, is answered as plain lists answer, and the
/// kernel rests over the system that they give; unless it waits, the file fails, or has no room.
pub fn a_lone_call_is_answered_by_the_rules<K>()
    ensures { AnswersLoneCalls K }
{
    calls_begin_together();
    calls_have_few_steps();
}

/// A call that is refused leaves a kernel at rest.
pub fn a_refusal_leaves_a_kernel_at_rest<K>()
    ensures { RefusesAtRest K }
{}

/// A kernel at rest that is stopped rests over the stopped system.
pub fn a_kernel_at_rest_is_stopped<K>()
    ensures { StopsAKernel K }
{}

/// A call that waits on a kernel that is stopped is served over the stopped system.
pub fn a_call_that_waits_is_stopped<K>()
    ensures { StopsAWaitingCall K }
{
    calls_begin_together();
}

/// A kernel at rest that is closed leaves the file of its system on the device.
pub fn a_kernel_at_rest_closes_on_its_file<K>()
    ensures { ClosesAKernel K }
{}
