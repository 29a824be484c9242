//! The lesser of a bound and a wire's, stretch by stretch.

ghost use Rattle.std.specs.Prelude.{◌≡◌, ℕ, ◌+◌, ◌<◌, ◌≤◌, MatchBool};
ghost use Rattle.dc_bound.specs.Window.{Shown, wire_cap};
ghost use Rattle.dc_bound.specs.Under.{under};
ghost use Rattle.dc_bound.specs.declared.limits.TheConstants.{LONGEST_WALK};

use crate::arrival::{ArrivalBound, Wire};

/// What comes at most in `ticks` under a wire where there is one, and before which number of ticks that stays so:
/// `most` up to `until` where the wire carries as many, else what the wire carries, up to where it carries more.
pub(crate) fn lesser(
    wire: &Option<Wire>,
    ticks: u32,
    until: u32,
    last: u32,
    most: u64,
) -> (u64, u32)
    requires first { 1 ≤ ticks }
    requires some { ticks ≤ last }
    requires far { last ≤ LONGEST_WALK }
    requires later { ticks < until }
    requires inside { until ≤ last + 1 }
    ensures shown { (cap : ℕ → ℕ) → ((d e : ℕ) → d ≤ e → cap d ≤ cap e) → Shown cap ticks until most
        → Shown (λ d. under (λ (w : Wire) e. wire_cap w.tick w.spacing e) wire.now d (cap d)) ticks result.1 result.0 }
    ensures later { ticks < result.1 }
    ensures inside { result.1 ≤ last + 1 }
{
    let Some(wire) = wire else {
        return (most, until);
    };
    if carries(wire, ticks, most) {
        return (most, until);
    }
    let (carried, jump) = wire.at_most_and_jump(ticks);
    (carried, jump.unwrap_or(last + 1).min(last + 1))
}

/// Whether a wire carries as many in so many ticks, at least 1: told without a division.
fn carries(wire: &Wire, ticks: u32, most: u64) -> bool
    requires { 1 ≤ ticks }
    ensures { MatchBool result (most ≤ wire_cap wire.now.tick wire.now.spacing ticks) (wire_cap wire.now.tick wire.now.spacing ticks < most) }
{
    let words = most.saturating_sub(1);
    words.saturating_mul(wire.spacing as u64) <= ticks as u64 * wire.tick as u64
}
