//! A file is checked before it is used: its structure, and then each record by itself.

#![tactic(auto)]

mod bucket;
mod checked;
mod compared;
mod fault;
mod gathered;
mod ids;
mod laws;
mod needs;
mod records;
mod strays;

pub use checked::{Checked, check, check_in, check_older, is_file_of};
pub use fault::CheckFault;
pub use ids::queue_ids;
pub use laws::{
    a_right_file_has_no_fault, a_right_file_is_sound, the_file_of_a_system_has_no_fault,
};
pub use records::test_records;
pub use strays::test_strays;
