//! Pseudokeys: hashes of keys, of which a directory reads the low bits (Fagin et al.
//! 1979; Ellis 1983).

ghost use Rattle.std.specs.Prelude.{◌≡◌, ◌≤◌, ◌%◌, ◌^◌};
ghost use Rattle.directory.specs.Positions.{position_of};

/// Bits of a pseudokey.
pub const PSEUDOKEY_BITS: u8 = 32;

/// Positions, as many as there are pseudokeys: 2 to the power of `PSEUDOKEY_BITS`.
pub const POSITIONS: u64 = 4_294_967_296;

/// Where a pseudokey stands in bit-reversed order: its lowest bit counts most.
pub fn position(pseudokey: u32) -> u32
    ensures { result ≡ position_of pseudokey }
{
    pseudokey.reverse_bits()
}

/// The low `depth` bits of a pseudokey: its index in a directory of that depth.
pub fn index(pseudokey: u32, depth: u8) -> u32
    requires { depth ≤ PSEUDOKEY_BITS }
    ensures { result ≡ pseudokey % 2 ^ depth }
{
    (u64::from(pseudokey) % (1 << depth)) as u32
}
