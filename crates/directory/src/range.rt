//! Ranges of pseudokeys: their intervals of positions, their halves and their buddies.

ghost use Rattle.std.specs.Prelude.{◌≡◌, ◌≤◌, ◌<◌, ◌↔◌, ◌^◌, ◌-◌, IsTrue};
ghost use Rattle.directory.specs.Ranges.{IsRange, Covers, whole_range, start_of, stop_of, lower_half_of, upper_half_of, is_lower, parent_of, buddy_of};
ghost use Rattle.directory.specs.Tiles.{IsTileAt};

use crate::pseudokey::{PSEUDOKEY_BITS, index, position};

/// The pseudokeys whose low `depth` bits are `pattern`: what a bucket of that local depth may hold.
#[derive(Clone, Copy, PartialEq, Eq)]
pub struct Range {
    /// How many low bits count, at most `PSEUDOKEY_BITS`.
    pub depth: u8,
    /// Those bits, as a number below 2 to the power of the depth.
    pub pattern: u32,
}

impl Range {
    /// The range of all pseudokeys, which is that of the one bucket of an empty file.
    pub fn whole() -> Range
        ensures { result ≡ whole_range }
    {
        Range {
            depth: 0,
            pattern: 0,
        }
    }

    /// Whether the depth is one of pseudokeys and the pattern has no bit beyond it.
    pub fn is_valid(self) -> bool
        ensures { IsTrue result ↔ IsRange self }
    {
        self.depth <= PSEUDOKEY_BITS && u64::from(self.pattern) < 1 << self.depth
    }

    /// Whether a pseudokey lies in the range.
    pub fn covers(self, pseudokey: u32) -> bool
        requires { self.depth ≤ PSEUDOKEY_BITS }
        ensures { IsTrue result ↔ Covers self pseudokey }
    {
        index(pseudokey, self.depth) == self.pattern
    }

    /// The first position of the range.
    pub fn start(self) -> u32
        ensures { result ≡ start_of self }
    {
        position(self.pattern)
    }

    /// The first position behind the range.
    pub fn stop(self) -> u64
        requires { self.depth ≤ PSEUDOKEY_BITS }
        ensures { result ≡ stop_of self }
    {
        u64::from(self.start()) + (1 << (PSEUDOKEY_BITS - self.depth))
    }

    /// Whether this is a valid range that begins at the position.
    pub fn is_tile_at(self, position: u64) -> bool
        ensures { IsTrue result ↔ IsTileAt self position }
    {
        self.is_valid() && u64::from(self.start()) == position
    }

    /// The half that a split leaves in the old bucket: the next bit is 0.
    pub fn lower_half(self) -> Range
        requires { self.depth < PSEUDOKEY_BITS }
        ensures { result ≡ lower_half_of self }
    {
        let depth = self.depth + 1;
        Range { depth, ..self }
    }

    /// The half that a split gives to the new bucket: the next bit is 1.
    pub fn upper_half(self) -> Range
        requires valid { IsRange self }
        requires shallow { self.depth < PSEUDOKEY_BITS }
        ensures { result ≡ upper_half_of self }
    {
        Range {
            depth: self.depth + 1,
            pattern: self.pattern + (1 << self.depth),
        }
    }

    /// Whether this is the lower half of its parent: the last bit that counts is 0.
    pub fn is_lower_half(self) -> bool
        requires valid { IsRange self }
        requires deep { 1 ≤ self.depth }
        ensures { result ≡ is_lower self }
    {
        self.pattern < 1 << (self.depth - 1)
    }

    /// The range that differs in the last bit that counts.
    pub fn buddy(self) -> Range
        requires valid { IsRange self }
        requires deep { 1 ≤ self.depth }
        ensures { result ≡ buddy_of self }
    {
        let bit = 1 << (self.depth - 1);
        let pattern = if self.is_lower_half() {
            self.pattern + bit
        } else {
            self.pattern - bit
        };
        Range { pattern, ..self }
    }

    /// The range of which this one and its buddy are the halves: what a merge of the two leaves.
    pub fn parent(self) -> Range
        requires valid { IsRange self }
        requires deep { 1 ≤ self.depth }
        ensures { result ≡ parent_of self }
    {
        let depth = self.depth - 1;
        Range {
            depth,
            pattern: index(self.pattern, depth),
        }
    }
}
