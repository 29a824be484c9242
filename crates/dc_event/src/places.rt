//! The places where names of a kind are looked for.
ghost use Rattle.std.specs.Prelude.{◌<◌};

/// How many places there are for the names of a kind: this project's own number.
pub const PLACES: usize = 256;

/// Where a key is looked for first.
#[inline(always)]
pub fn first_place(key: u64) -> usize
    ensures { result < PLACES }
{
    (key.wrapping_mul(0x9E37_79B9_7F4A_7C15) / 0x0100_0000_0000_0000) as usize
}

/// Where a key is looked for that does not stand at its first place.
#[inline(always)]
pub fn next_place(first: usize) -> usize
    ensures { result < PLACES }
{
    first.wrapping_add(1) % PLACES
}
