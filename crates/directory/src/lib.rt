//! The header and the directory of an extendible hash file, as bytes of pages; and the ranges of
//! pseudokeys that its entries stand for, as intervals of bit-reversed positions.

#![tactic(auto)]

mod directory;
mod entries;
mod header;
mod laws;
mod layout;
mod page;
mod pseudokey;
mod range;
mod read;
mod write;

pub use directory::{page_of, slot_of};
pub use entries::{copy_upper, lower_page, retarget, set_entry};
pub use header::Header;
pub use laws::{
    a_pseudokey_lies_in_exactly_one_range_of_a_tiling,
    a_range_and_its_buddy_are_the_halves_of_their_parent, a_range_is_an_interval_of_positions,
    a_truncated_pseudokey_lies_no_further_right, ascending_and_covering_once_is_tiling,
    buddies_of_a_tiling_are_neighbours, joining_two_buddies_keeps_the_tiling,
    positions_are_one_to_one, splitting_one_tile_keeps_the_tiling,
    the_halves_of_a_range_make_it_up, the_whole_range_is_a_tiling, walking_finds_the_tile,
    walking_meets_all_tiles,
};
pub use layout::{
    DIRECTORY, DIRECTORY_PAGES, FIRST_DIRECTORY_PAGE, GREATEST_DEPTH, HEAD_BYTES, HEADER, LAYOUT,
    LEAST_PAGES, LOCAL_DEPTHS, Layout, OLDER_LAYOUT, PAGE_ENTRIES, ROOT_PAGE, layouts_are_right,
};
pub use numbers::fields;
pub use page::{DirectoryView, directory_of, read_entries, write_directory};
pub use page_device;
pub use page_device::faults;
pub use pseudokey::{POSITIONS, PSEUDOKEY_BITS, index, position};
pub use range::Range;
pub use read::{HeaderFault, depth_of, header_of, read_header, read_header_in};
pub use write::write_header;
