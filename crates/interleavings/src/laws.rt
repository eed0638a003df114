//! Laws of kernels that refine a system. The functions do nothing; their contracts are the
//! laws.

ghost use Rattle.interleavings.specs.Laws.{AnswersAsPlainLists, BeginsRefine, ClosedOpens, ClosesRefine, DrivesEnd, DrivesRefine, EventsRefine, JournalsAreFifo, OpensRefine, OwedIsTheRest, RefusalsRefine, SearchesHopFew, SeatsHoldTheirNames, StepsRefineAndDo, StepsRefine, StopsRefine};

use crate::concurrent_laws::{
    calls_begin_together, calls_end_together, calls_leave_the_file_at_rest, calls_owe_apart,
    calls_rest_together, calls_step_together, calls_stop_together,
};
use files_at_rest::file_check::the_file_of_a_system_has_no_fault;
use interleaving_core::xsi_calls::{
    calls_have_few_steps, calls_have_few_steps_left, calls_hold_their_names,
    calls_name_what_is_there,
};
use queue_model::journals_are_first_in_first_out;

/// A kernel that is opened refines the system whose file its device has.
pub fn an_opened_kernel_refines<K>()
    ensures { OpensRefine K }
{
    calls_rest_together();
}

/// It stays so where a call begins.
pub fn begins_refine<K>()
    ensures { BeginsRefine K }
{
    calls_begin_together();
}

/// And where one is refused.
pub fn refusals_refine<K>()
    ensures { RefusalsRefine K }
{}

/// And after each step of a seat: where its call comes to its answer, that is the one which the
/// rules give in the system after the journal.
pub fn steps_refine<K>()
    ensures { StepsRefine K }
{
    calls_step_together();
    calls_end_together();
    calls_begin_together();
}

/// Such a step does to the file and the locks what its seat is told, from the phase of a change of
/// the structure before the step to the phase after it: it moves by one of the rules, of the kind
/// that is told; or another seat holds against what it asks, and nothing changes; or it waits, is
/// answered, or has no room, and nothing changes; or a transfer of the device failed. It comes to
/// waiting only where the rules have no answer, and to having no room only where there is none.
/// Where its call was woken before its seat could be told that it waits, it is the first step of
/// that call begun anew.
pub fn a_step_does_what_its_seat_is_told<K>()
    ensures { StepsRefineAndDo K }
{
    calls_step_together();
    calls_end_together();
    calls_begin_together();
}

/// And after each drive, which is so many steps.
pub fn drives_refine<K>()
    ensures { DrivesRefine K }
{
    calls_step_together();
    calls_end_together();
    calls_begin_together();
}

/// Until a step has failed each drive comes to its end, whatever the other seats are at: it never
/// makes so many steps that it is given up, and the file fails its call only where a transfer of
/// the device has failed.
pub fn drives_end<K>()
    ensures { DrivesEnd K }
{
    calls_step_together();
    calls_end_together();
    calls_begin_together();
    calls_have_few_steps();
    calls_have_few_steps_left();
}

/// And where the system is stopped.
pub fn stops_refine<K>()
    ensures { StopsRefine K }
{
    calls_stop_together();
}

/// So it stays after events of many seats, in whichever order they come.
pub fn events_refine<K>()
    ensures { EventsRefine K }
{
    begins_refine::<K>();
    refusals_refine::<K>();
    steps_refine::<K>();
    drives_refine::<K>();
    stops_refine::<K>();
}

/// Its answers are those of plain lists asked one call at a time, first in, first out; and once no
/// seat has a call, its file holds exactly what the lists do.
pub fn a_refining_kernel_answers_as_plain_lists<K>()
    ensures { AnswersAsPlainLists K }
{
    calls_leave_the_file_at_rest();
    journals_are_first_in_first_out();
}

/// From the system of a file a legal journal is first in, first out; so is that of each run.
pub fn journals_of_files_are_first_in_first_out()
    ensures { JournalsAreFifo }
{
    journals_are_first_in_first_out();
}

/// Where it is closed once no seat has a call, and no step has failed, its device has the file of
/// the system that the lists come to. The stop mark stands in no record.
pub fn a_refining_kernel_closes_on_its_file<K>()
    ensures { ClosesRefine K }
{
    calls_leave_the_file_at_rest();
}

/// The pages that are then left open again on that system and no other, over an honest device;
/// and are refused for want of frames or memory alone, or where a transfer fails.
pub fn a_closed_file_opens_on_its_system<K>()
    ensures { ClosedOpens K }
{
    an_opened_kernel_refines::<K>();
    a_refining_kernel_closes_on_its_file::<K>();
    the_file_of_a_system_has_no_fault();
}

/// At any other moment, until a step has failed, key by key: what stands in the file is what the
/// system after the journal has there, or will be once one seat, which owes that record and no
/// other seat does, has written it.
pub fn what_is_owed_is_the_rest<K>()
    ensures { OwedIsTheRest K }
{
    calls_owe_apart();
}

/// The names that a seat holds, besides the directory and pages, are those of its call in their
/// kinds, at each place of the call, until a step has failed. Up to its Decide they are of the system
/// after the journal: the queue of a Get is its next id, the key of a Remove that of its queue.
pub fn seats_hold_their_names<K>()
    ensures { SeatsHoldTheirNames K }
{
    calls_hold_their_names();
    calls_name_what_is_there();
}

/// From the Grant of the directory to a seat's last search up to the Look that answers it, there was
/// one hop at most more than there were WriteOlds and Tombstones, and no hop where no split and no
/// merge was under way. So it is counted until a step has failed (Ellis 1983).
pub fn a_search_hops_few_times<K>()
    ensures { SearchesHopFew K }
{}
