//! Files that no seat holds anything of: how they are opened and flushed, what their pages mean, and a
//! new file.

#![tactic(auto)]

mod new_file_laws;
mod opened_laws;
mod spelled_laws;

pub use file_check;
pub use new_file_laws::a_new_file_has_no_queues;
pub use opened_laws::{
    a_checked_file_opens_at_rest, a_file_at_rest_closes_as_one, each_seat_sees_a_file_at_rest,
};
pub use record_file;
pub use spelled_laws::{pages_spell_one_system, the_file_of_a_system_spells_it};
