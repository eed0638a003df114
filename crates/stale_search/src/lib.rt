//! A search for the bucket of a key, and the approach of a seat that is to change the
//! structure, step by step.

#![tactic(auto)]

// Machines promise the same of a step, each in the words of its own places: docs/DECISIONS.md,
// "The repository", says why.

mod approach;
mod laws;
mod place;
mod search;

pub use approach::Approach;
pub use file_pages;
pub use file_pages::buffer_pool;
pub use laws::{a_search_counts_few_hops, machines_keep_what_their_callers_know};
pub use place::{ApproachPlace, SearchPlace};
pub use search::Search;
