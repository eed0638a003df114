//! The bytes of a journal: its head, and entries behind it, each with a digest of all that stands before.

#![tactic(auto)]

mod entry;
mod head;
mod image;
mod page_zero;

pub use entry::{
    Entry, Image, LEAST_ENTRY, MOST_CALLS, WORD_BYTES, read_image, read_sum, read_word,
    spell_calls, spell_put_back,
};
pub use head::{
    FoundHead, HEAD_BYTES, Head, NEW_VERSION, VERSION_OF_CALLS, read_head, spell_end, spell_head,
    spell_head_of_calls,
};
pub use image::{IMAGE_BYTES, Sum, put_image, sum_of_image};
pub use page_zero::{PageZero, SEAL_BYTES, Seal, seal_of};
