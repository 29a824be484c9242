//! How much of a recorded trace is read.
ghost use Rattle.std.specs.Prelude.{◌≡◌, ◌^◌, ◌≤◌};
ghost use Rattle.dc_run.specs.Limits.{trace_limit};

use dc_event::TRACE_LIMIT;

/// How many bytes a trace may have where a long run is asked for: this project's own number.
pub const LONG_TRACE_LIMIT: u64 = 1_099_511_627_776;

/// How many bytes a trace may have.
pub fn limit_of(long: bool) -> u64
    ensures limit { result ≡ trace_limit long }
    ensures bounded { result ≤ 2 ^ 40 }
{
    if long { LONG_TRACE_LIMIT } else { TRACE_LIMIT }
}
