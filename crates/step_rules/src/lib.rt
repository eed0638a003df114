//! The rules of steps: which step of a seat changes what, and what the other seats may rely on.

#![tactic(auto)]

mod kind;
mod laws;
mod learns;
mod progress;

pub use kind::{Kind, MERGED_BYTES};
pub use laws::{
    a_merge_that_is_turned_away_from_can_not_be_made, a_search_hops_once_more_at_most,
    a_search_is_told_by_what_its_seat_knows, a_step_changes_one_page_and_one_lock_at_most,
    a_world_at_rest_is_a_quiet_file, each_kind_leaves_what_others_know,
    every_schedule_keeps_what_is_known, no_room_is_neither_put_nor_split,
    only_a_written_record_changes_what_the_file_holds, others_keep_what_they_know,
    own_steps_bring_the_end_nearer, two_kinds_lengthen_a_way_by_a_hop,
};
pub use learns::{
    a_buddy_is_the_other_half, a_directory_is_halved_before_it_is_given_back,
    a_freed_page_is_nobodys, a_look_tells_what_the_file_holds, an_owned_page_that_answers_is_live,
    own_locks_keep_what_is_known,
};
pub use progress::Progress;
pub use queue_records;
