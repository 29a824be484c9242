//! Intervals in ticks, made from microseconds.

ghost use Rattle.std.specs.Prelude.{◌≡◌, ◌+◌, ◌*◌, ◌<◌, ◌≤◌, IfOk};
ghost use Rattle.dc_dict.specs.Ticks.{in_minimum, in_maximum, jitter_ticks, out_minimum, out_maximum, in_interval, out_interval};

use crate::fault::DictFault;
use crate::parameter::Parameter;

/// The least and greatest interval between two words, in ticks. How microseconds are rounded is this project's own
/// choice.
#[derive(Clone, Copy, Debug, PartialEq, Eq)]
pub struct Interval {
    /// The least interval, in ticks: 1 or more from [`in_ticks`] and [`out_ticks`].
    pub min: u32,
    /// The greatest interval, in ticks: `min` or more from [`out_ticks`].
    pub max: u32,
}

/// The least interval on an input, in ticks: the whole ticks, of `tick_us` microseconds each, 1 or more, in `min_us`
/// microseconds.
pub fn in_minimum(min_us: u32, tick_us: u32) -> u32
    requires { 0 < tick_us }
    ensures { result ≡ in_minimum min_us tick_us }
{
    min_us / tick_us
}

/// The greatest interval on an input, in ticks: those of `tick_us` microseconds, 1 or more, that `max_us` microseconds
/// begin.
pub fn in_maximum(max_us: u32, tick_us: u32) -> u32
    requires { 0 < tick_us }
    ensures { result ≡ in_maximum max_us tick_us }
{
    max_us.div_ceil(tick_us)
}

/// How late of their rhythm the words of an input may come, in ticks: those of `tick_us` microseconds, 1 or more, that
/// the jitter, in microseconds, begins.
pub fn jitter_ticks(jitter_us: u32, tick_us: u32) -> u32
    requires { 0 < tick_us }
    ensures ticks { result ≡ jitter_ticks jitter_us tick_us }
    ensures covers { jitter_us ≤ result * tick_us }
{
    jitter_us.div_ceil(tick_us)
}

/// The least interval on an output, in ticks: one more than those of `tick_us` microseconds, 1 or more, that `min_us`
/// microseconds begin.
pub fn out_minimum(min_us: u32, tick_us: u32) -> u64
    requires { 0 < tick_us }
    ensures { result ≡ out_minimum min_us tick_us }
{
    u64::from(min_us.div_ceil(tick_us)) + 1
}

/// The greatest interval on an output, in ticks: one less than the whole ones of `tick_us` microseconds, 1 or more, in
/// `max_us` microseconds; 0 where there is none.
pub fn out_maximum(max_us: u32, tick_us: u32) -> u32
    requires { 0 < tick_us }
    ensures { result ≡ out_maximum max_us tick_us }
{
    (max_us / tick_us).saturating_sub(1)
}

/// The interval of a parameter's words on an input, for a tick of `tick_us` microseconds, 1 or more. It leans to the
/// safe side: its least is at most the parameter's, and its greatest at least.
///
/// # Errors
/// `NoTicks` exactly where the least interval is below a tick.
#[tactic(auto, unfolding(crate::specs::Ticks::in_interval))]
pub fn in_ticks(row: &Parameter, tick_us: u32) -> Result<Interval, DictFault>
    requires { 0 < tick_us }
    ensures value { result ≡ in_interval row.now.min_us row.now.max_us tick_us }
    ensures covers { IfOk result (λ i. (i.min * tick_us ≤ row.now.min_us) × (row.now.max_us ≤ i.max * tick_us)) }
{
    let min = in_minimum(row.min_us, tick_us);
    if min < 1 {
        return Err(DictFault::NoTicks);
    }
    Ok(Interval {
        min,
        max: in_maximum(row.max_us, tick_us),
    })
}

/// The interval that a parameter's words on an output keep, for a tick of `tick_us` microseconds, 1 or more. It leans
/// to the safe side: its least is at least the parameter's and a tick, and with a tick more its greatest is at most the
/// parameter's.
///
/// # Errors
/// `NoTicks` exactly where no interval is left: the greatest, in ticks, is below the least.
#[tactic(auto, unfolding(crate::specs::Ticks::out_interval))]
pub fn out_ticks(row: &Parameter, tick_us: u32) -> Result<Interval, DictFault>
    requires { 0 < tick_us }
    ensures value { result ≡ out_interval row.now.min_us row.now.max_us tick_us }
    ensures inside { IfOk result (λ i. (row.now.min_us + tick_us ≤ i.min * tick_us) × (i.max * tick_us + tick_us ≤ row.now.max_us)) }
{
    let min = out_minimum(row.min_us, tick_us);
    let max = out_maximum(row.max_us, tick_us);
    if u64::from(max) < min {
        return Err(DictFault::NoTicks);
    }
    Ok(Interval {
        min: min as u32,
        max,
    })
}
