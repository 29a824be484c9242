//! Where a trace stands.
ghost use Rattle.std.specs.Prelude.{◌≡◌, ◌≤◌};
ghost use Rattle.dc_run_trace.specs.Answer.{least_time};
ghost use Rattle.dc_run_trace.specs.Steps.{clock_or};
ghost use Rattle.dc_trace.specs.Traces.{tick_at};

/// Where a trace stands: when its tick 0 began, in microseconds, and the tick of its last word.
#[derive(Clone, Copy, Debug, PartialEq, Eq)]
pub struct Clock {
    /// When tick 0 began.
    pub from: u64,
    /// The tick of the last word.
    pub tick: u64,
}

/// The least time that a capture may have, where tick 0 is to begin then.
pub fn least_time(from: Option<u64>) -> u64
    ensures { result ≡ least_time from }
{
    match from {
        None => 0,
        Some(from) => from,
    }
}

/// Where a trace stands before a word of this time: in tick 0, where none came before it, which begins then, if nothing
/// else is said.
#[inline(always)]
pub fn clock_or(clock: Option<Clock>, from: Option<u64>, time: u64) -> Clock
    ensures { result ≡ clock_or clock from time }
{
    match clock {
        Some(clock) => clock,
        None => match from {
            Some(from) => Clock { from, tick: 0 },
            None => Clock {
                from: time,
                tick: 0,
            },
        },
    }
}

/// The tick in which a time lies.
#[inline(always)]
pub fn tick_at(from: u64, tick_us: u32, time: u64) -> u64
    requires { 1 ≤ tick_us }
    ensures { result ≡ tick_at from tick_us time }
{
    time.saturating_sub(from) / u64::from(tick_us)
}
