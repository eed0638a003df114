//! Laws of positions, ranges and tilings. Each stands on the contract of a function that does
//! nothing. Items of a tiling are of any type `T`: ranges themselves, or the numbers of pages.

ghost use Rattle.directory.specs.Laws.{PositionsAreOneToOne, RangeIsInterval, TruncatedIsNoFurtherRight, HalvesMeet, HalvesMakeUpRange, LowerBuddyIsLowerHalf, UpperBuddyIsUpperHalf, WholeIsTiling, LiesInOneTile, SplitKeepsTiling, JoinKeepsTiling, BuddiesAreNeighbours, WalkFindsTile, WalkMeetsAll, PartitionIsTiling};

/// Reversing the bits of a pseudokey twice gives it back, so no two pseudokeys have one position.
pub fn positions_are_one_to_one()
    ensures { PositionsAreOneToOne }
{}

/// A range covers exactly the pseudokeys whose positions lie between its start and its stop.
pub fn a_range_is_an_interval_of_positions()
    ensures { RangeIsInterval }
{}

/// The low bits of a pseudokey alone stand at its position or to the left of it. So a search that
/// truncated it by a depth that has grown since is led too far to the left, and never too
/// far to the right.
pub fn a_truncated_pseudokey_lies_no_further_right()
    ensures { TruncatedIsNoFurtherRight }
{}

/// The halves of a range lie side by side, fill its interval, and cover together what it covers.
pub fn the_halves_of_a_range_make_it_up()
    ensures meet { HalvesMeet }
    ensures covers { HalvesMakeUpRange }
{}

/// A range and the one that differs in its last bit are the halves of the range without that bit.
pub fn a_range_and_its_buddy_are_the_halves_of_their_parent()
    ensures lower { LowerBuddyIsLowerHalf }
    ensures upper { UpperBuddyIsUpperHalf }
{}

/// An item with the range of all pseudokeys is a tiling by itself.
pub fn the_whole_range_is_a_tiling<T>()
    ensures { WholeIsTiling T }
{}

/// Each pseudokey lies in the range of exactly one item of a tiling.
pub fn a_pseudokey_lies_in_exactly_one_range_of_a_tiling<T>()
    ensures { LiesInOneTile T }
{}

/// Where the halves of a tile take its place, what tiled an interval still does.
pub fn splitting_one_tile_keeps_the_tiling<T>()
    ensures { SplitKeepsTiling T }
{}

/// Where the parent of two buddies takes their place, what tiled an interval still does.
pub fn joining_two_buddies_keeps_the_tiling<T>()
    ensures { JoinKeepsTiling T }
{}

/// The halves of one range, where both are tiles, stand side by side on the list.
pub fn buddies_of_a_tiling_are_neighbours<T>()
    ensures { BuddiesAreNeighbours T }
{}

/// From a tile at or before a position, next links lead to its tile in as many hops as tiles
/// begin on the way.
pub fn walking_finds_the_tile<T>()
    ensures { WalkFindsTile T }
{}

/// Following next links from the first item of a tiling lists its items, within a fuel
/// that the depths bound.
pub fn walking_meets_all_tiles<T>()
    ensures { WalkMeetsAll T }
{}

/// Ranges tile all positions exactly where they ascend in bit-reversed order and each
/// pseudokey lies in one.
pub fn ascending_and_covering_once_is_tiling<T>()
    ensures { PartitionIsTiling T }
{}
