//! Files of records that many seats use: a new file; one record found, replaced or deleted in its
//! bucket, or inserted, with the splits that make room for it; and one access to one record of queues.

#![tactic(auto)]

mod access;
mod access_laws;
mod bucket_access;
mod delete;
mod fitting;
mod insert;
mod laws;
mod new_file;
mod operation;
mod page_ahead;
mod place;
mod reading;
mod second_place;
mod second_try;
mod tried;

pub use access::Access;
pub use access_laws::an_access_begins_right;
pub use bucket_access::{BucketAccess, BucketStage, Deed, has_room};
pub use delete::Delete;
pub use file_pages;
pub use insert::{Insert, InsertStage};
pub use laws::an_operation_keeps_what_its_caller_knows;
pub use new_file::format;
pub use operation::RecordOperation;
pub use place::AccessPlace;
pub use reading::record_ahead;
pub use second_place::SecondPlace;
pub use second_try::SecondTry;
pub use split_merge::buffer_pool;
pub use step_rules;
pub use tried::Tried;

// Machines promise the same of a step, each in the words of its own places: docs/DECISIONS.md,
// "The repository", says why.
