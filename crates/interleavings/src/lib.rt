//! Schedules of many seats on one kernel: whichever seat makes the next step, the answers are those
//! of plain lists; at rest the file holds just the records of the system. Before it stand what one
//! seat's steps leave to another, and calls that are made one at a time.

#![tactic(auto)]

mod concurrent_laws;
mod event;
mod key_laws;
mod laws;
mod lone_kernel_laws;
mod playing;
mod renewing;
mod running;
mod seat_laws;

pub use concurrent_laws::{
    calls_begin_together, calls_end_together, calls_leave_the_file_at_rest, calls_owe_apart,
    calls_rest_together, calls_step_together, calls_stop_together,
};
pub use event::{Event, Outcome, are_of_seats};
pub use files_at_rest;
pub use files_at_rest::{
    a_checked_file_opens_at_rest, a_file_at_rest_closes_as_one, a_new_file_has_no_queues,
    each_seat_sees_a_file_at_rest, pages_spell_one_system, the_file_of_a_system_spells_it,
};
pub use interleaving_core;
pub use key_laws::a_remove_takes_the_key_of_its_queue;
pub use laws::{
    a_closed_file_opens_on_its_system, a_refining_kernel_answers_as_plain_lists,
    a_refining_kernel_closes_on_its_file, a_search_hops_few_times,
    a_step_does_what_its_seat_is_told, an_opened_kernel_refines, begins_refine, drives_end,
    drives_refine, events_refine, journals_of_files_are_first_in_first_out, refusals_refine,
    seats_hold_their_names, steps_refine, stops_refine, what_is_owed_is_the_rest,
};
pub use lone_kernel_laws::{
    a_call_begins_on_a_kernel_at_rest, a_call_that_waits_is_stopped,
    a_kernel_at_rest_closes_on_its_file, a_kernel_at_rest_is_stopped, a_kernel_opens_at_rest,
    a_lone_call_goes_on, a_lone_call_is_answered_by_the_rules, a_lone_drive_answers_by_the_rules,
    a_lone_step_answers_by_the_rules, a_refusal_leaves_a_kernel_at_rest,
};
pub use playing::{EndFault, Played, play_on};
pub use renewing::{
    failures_refine, flushes_refine, pages_refine, reads_fail_with_the_device, renewals_refine,
    withdrawals_refine,
};
pub use running::run;
pub use seat_laws::{
    a_call_goes_over_to_what_others_decide, a_call_goes_over_to_what_others_settle,
    a_call_goes_over_where_its_records_stay, a_call_stays_apart_by_its_own_steps,
    a_call_stays_undecided, a_payment_goes_on, a_queue_is_counted_while_it_is_alive,
    a_seat_sees_what_it_saw, an_id_is_given_out_under_its_name,
    no_other_writes_under_a_calls_names, others_leave_what_a_call_knows,
};
pub use xsi_calls;
