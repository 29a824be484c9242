//! Ticks of clocks that drift, in millionths of a microsecond, and what they are in whole microseconds.

ghost use Rattle.std.specs.Prelude.{◌≡◌, ◌*◌, ◌≤◌, ◌<◌, ◌^◌};
ghost use Rattle.dc_bound.specs.declared.limits.TheConstants.{LONGEST_TICK};
ghost use Rattle.dc_drift.specs.Drift.{longest_of, shortest_of, rounded_up, rounded_down};

/// How many millionths are one.
pub(crate) const MILLION: u64 = 1_000_000;

/// The longest tick, in millionths of a microsecond.
pub(crate) fn longest(tick_us: u32, drift: u16) -> u64
    requires { tick_us ≤ LONGEST_TICK }
    ensures value { result ≡ longest_of tick_us drift }
    ensures small { result < 2 ^ 34 }
{
    u64::from(tick_us) * (MILLION + u64::from(drift))
}

/// The shortest tick, in millionths of a microsecond.
pub(crate) fn shortest(tick_us: u32, drift: u16) -> u64
    requires { tick_us ≤ LONGEST_TICK }
    ensures value { result ≡ shortest_of tick_us drift }
    ensures small { result < 2 ^ 34 }
{
    u64::from(tick_us) * (MILLION - u64::from(drift))
}

/// So many times so many millionths, in whole ones, rounded up.
pub(crate) fn rounded_up(times: u64, millionths: u64) -> u64
    requires few { times ≤ 2 ^ 32 }
    requires small { millionths < 2 ^ 34 }
    ensures { result ≡ rounded_up (times * millionths) }
{
    (u128::from(times) * u128::from(millionths)).div_ceil(1_000_000) as u64
}

/// So many times so many millionths, in whole ones, rounded down.
pub(crate) fn rounded_down(times: u64, millionths: u64) -> u64
    requires few { times ≤ 2 ^ 32 }
    requires small { millionths < 2 ^ 34 }
    ensures { result ≡ rounded_down (times * millionths) }
{
    (u128::from(times) * u128::from(millionths) / 1_000_000) as u64
}
