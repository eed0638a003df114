//! Records of message queues as keys and bytes, each read exactly where they spell a record.

#![tactic(auto)]

mod bad_record;
mod body;
mod counter;
mod field;
mod key_entry;
mod keys;
mod laws;
mod layout;
mod links;
mod message_entry;
mod older;
mod queue_entry;
mod record;
mod relinking;
mod type_entry;
mod value;

pub use bad_record::BadRecord;
pub use body::Body;
pub use bucket_page;
pub use counter::Counter;
pub use field::{eight_fits, four_fits, type_fits};
pub use key_entry::KeyEntry;
pub use keys::{counter_key, key_key, message_key, queue_key, type_key};
pub use laws::a_spelling_is_of_one_record;
pub use layout::{
    COUNTER, KEY, MAX_VALUE_BYTES, MESSAGE, MESSAGE_BYTES, OLDER_MODE, OLDER_QUEUE_BYTES, QUEUE,
    TYPE, TYPE_BYTES,
};
pub use links::{Link, Links, MessageLinks, TypeLinks};
pub use message_entry::MessageEntry;
pub use numbers::limits::{END_OF_IDS, MAX_BODY, MAX_MESSAGES, MAX_QBYTES, MAX_QUEUES, MODES};
pub use queue_entry::QueueEntry;
pub use record::Record;
pub use relinking::relink;
pub use type_entry::TypeEntry;
pub use value::Value;
