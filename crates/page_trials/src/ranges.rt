//! Numbers worked by hand: positions, a chain of three ranges, and what splits and
//! merges make of ranges.

use directory::{Range, index, position};
use std::process::Abort;

/// A quarter of all positions.
const QUARTER: u64 = 1_073_741_824;

#[test]
fn the_lowest_bit_counts_most(rt: HostRuntime) {
    let worked = [
        (0, 0),
        (1, 2_147_483_648),
        (2, 1_073_741_824),
        (3, 3_221_225_472),
        (4, 536_870_912),
        (0x8000_0000, 1),
        (0x1234_5678, 0x1e6a_2c48),
        (0xffff_ffff, 0xffff_ffff),
    ];
    for (pseudokey, want) in worked {
        assert_eq!(rt; position(pseudokey), want, "pseudokey {pseudokey}");
    }
}

#[test]
fn a_directory_reads_low_bits(rt: HostRuntime) {
    for (depth, want) in [
        (0, 0),
        (1, 1),
        (3, 5),
        (4, 13),
        (31, 0x6bcd_ef0d),
        (32, 0xebcd_ef0d),
    ] {
        assert_eq!(rt; index(0xebcd_ef0d, depth), want, "depth {depth}");
    }
}

/// Where a range begins and stops, and the patterns of its buddy and its parent; none of what is no
/// range, and of the whole.
fn told(range: Range) -> Option<(u64, u64, u32, u32)> {
    if !range.is_valid() || range.depth == 0 {
        return None;
    }
    let (start, stop) = (u64::from(range.start()), range.stop());
    Some((start, stop, range.buddy().pattern, range.parent().pattern))
}

/// Patterns 0, 2, 1 at depths 2, 2, 1 stand side by side: their bits, from the lowest on, are 00, 01 and
/// 1. Those of 1 and 5 at depth 3, 100 and 101, are the halves of the last one's first half.
#[test]
fn ranges_are_those_of_their_bits(rt: HostRuntime) {
    for (depth, pattern, wanted) in [
        (2, 0, Some((0, QUARTER, 2, 0))),
        (2, 2, Some((QUARTER, 2 * QUARTER, 0, 0))),
        (1, 1, Some((2 * QUARTER, 4 * QUARTER, 0, 0))),
        (3, 1, Some((2 * QUARTER, 5 * QUARTER / 2, 5, 1))),
        (3, 5, Some((5 * QUARTER / 2, 3 * QUARTER, 1, 1))),
        (3, 8, None),
        (33, 0, None),
    ] {
        assert!(rt;
            told(Range { depth, pattern }) == wanted,
            "{pattern} at depth {depth}"
        );
    }
}

/// The halves of a range; none of what is no range, and of one that is as deep as any.
fn halves(range: Range) -> Option<(Range, Range)> {
    if !range.is_valid() || range.depth >= 32 {
        return None;
    }
    Some((range.lower_half(), range.upper_half()))
}

#[test]
fn halves_have_a_bit_more(rt: HostRuntime) {
    let (depth, pattern) = (2, 1);
    let low = Range {
        depth: 3,
        pattern: 1,
    };
    let high = Range {
        depth: 3,
        pattern: 5,
    };
    assert!(rt; halves(Range { depth, pattern }) == Some((low, high)));
}
