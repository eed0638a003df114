//! The records of a system of queues, with the links of its chains.

#![tactic(auto)]

mod fits;
mod laws;
mod reading;

pub use fits::{a_callers_numbers_fit, a_calls_numbers_fit};
pub use laws::{
    a_call_changes_one_queue, a_key_tells_its_queue, a_queue_is_read_off_its_record,
    a_record_stands_at_its_key, a_send_is_made_of_the_queues_record, calls_keep_numbers_that_fit,
    other_queues_keep_their_records, records_are_spelled, records_keep_their_limits,
    records_of_the_image_have_distinct_keys, the_image_is_the_records_at_their_keys,
    the_types_are_those_of_the_messages,
};
pub use queue_records;
pub use queue_records::bucket_page;
pub use reading::{info_in, lacks_room_in, permissions_in};
