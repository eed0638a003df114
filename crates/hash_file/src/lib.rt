//! An extendible hash file as a value: what makes it sound in each phase of a structure
//! change, and its laws.

#![tactic(auto)]

mod laws;
mod page;

pub use laws::{
    a_chain_is_well_formed, a_freed_page_is_taken_again, a_hop_leads_on_and_comes_nearer,
    a_look_answers_what_the_file_holds, a_merge_comes_out_as_worked_by_hand, a_new_file_is_sound,
    a_quiet_directory_is_exact, a_sound_file_is_well_formed, a_stale_depth_still_leads,
    an_entry_leads_to_its_bucket, an_owned_page_leads_nowhere,
    burying_the_right_page_keeps_the_file, copying_the_directory_keeps_the_file,
    each_page_has_one_role, files_made_by_hand_are_sound, freeing_the_right_page_keeps_the_file,
    leading_is_standing_at_or_before, linking_the_freed_page_ends_a_merge,
    lowering_the_depth_keeps_the_file, no_other_change_lengthens_a_way,
    no_way_is_longer_than_the_chain, nothing_leads_to_a_drained_page,
    raising_the_depth_keeps_the_file, retargeting_keeps_a_merge, retargeting_keeps_a_split,
    setting_the_counts_drains_a_merge, setting_the_counts_ends_a_split,
    taking_a_page_keeps_the_file, the_chain_is_what_is_met, the_right_page_leads_on,
    two_changes_lengthen_a_way_by_a_hop, two_splits_come_out_as_worked_by_hand,
    what_a_file_holds_is_its_pairs, writing_a_record_changes_one_record,
    writing_the_left_bucket_keeps_the_file, writing_the_new_bucket_keeps_the_file,
    writing_the_old_bucket_keeps_the_file, wrong_changes_are_refuted,
};
pub use page::Shape;
