//! Lengths in drawings.

ghost use Rattle.std.specs.Prelude.{◌≤◌};

/// The length of a part, where the whole has this length; the length itself where the part is the whole or more.
pub fn share(part: u64, whole: u64, length: u64) -> u64
    ensures { result ≤ length }
{
    if whole <= part {
        return length;
    }
    (part.saturating_mul(length) / whole).min(length)
}

/// A round number of 1, 2 or 5 with noughts, of which at most `most` steps, at least 1, go into the whole.
pub fn round_step(whole: u64, most: u64) -> u64
    ensures { 1 ≤ result }
{
    let mut step: u64 = 1;
    for _ in 0..18 {
        for factor in [1, 2, 5] {
            let wide = step.saturating_mul(factor);
            if whole <= wide.saturating_mul(most) {
                return wide.max(1);
            }
        }
        step = step.saturating_mul(10);
    }
    step.max(1)
}
