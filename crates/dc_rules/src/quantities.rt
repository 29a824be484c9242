//! The rules on parameters: their limits, and the intervals that they leave.
ghost use Rattle.std.specs.Prelude.{◌≡◌, ◌≤◌};
ghost use Rattle.dc_rules.specs.Rules.{first_inverted, too_quick, no_interval, first_quick, first_narrow};
ghost use Rattle.dc_rules.specs.Rules.{first_unknown_stream, first_unknown_label};

use crate::index::Parameters;
use dc_dict::{Parameter, in_ticks, out_ticks};
use dc_document::{LabelPart, ParameterKey, StreamPart};

/// The first parameter whose least interval is over its greatest.
pub(crate) fn first_inverted(parameters: &[Parameter]) -> Option<usize>
    ensures { result ≡ first_inverted parameters.now }
{
    parameters.iter().position(|p| p.max_us < p.min_us)
}

/// Whether the parameter is there and has an input minimum below one tick.
fn is_too_quick(tick_us: u32, parameter: Option<Parameter>) -> bool
    requires { 1 ≤ tick_us }
    ensures { result ≡ too_quick tick_us parameter }
{
    match parameter {
        None => false,
        Some(p) => in_ticks(&p, tick_us).is_err(),
    }
}

/// Whether the parameter is there and leaves no output interval.
fn leaves_no_interval(tick_us: u32, parameter: Option<Parameter>) -> bool
    requires { 1 ≤ tick_us }
    ensures { result ≡ no_interval tick_us parameter }
{
    match parameter {
        None => false,
        Some(p) => out_ticks(&p, tick_us).is_err(),
    }
}

/// The first stream with an input minimum below one tick.
pub(crate) fn first_quick(
    tick_us: u32,
    parameters: &Parameters,
    streams: &[StreamPart],
) -> Option<usize>
    requires { 1 ≤ tick_us }
    ensures { result ≡ first_quick tick_us parameters.now streams.now }
{
    streams
        .iter()
        .position(|s| is_too_quick(tick_us, parameters.find(s.key())))
}

/// The first label that its parameter leaves no interval.
pub(crate) fn first_narrow(
    tick_us: u32,
    parameters: &Parameters,
    labels: &[LabelPart],
) -> Option<usize>
    requires { 1 ≤ tick_us }
    ensures { result ≡ first_narrow tick_us parameters.now labels.now }
{
    labels
        .iter()
        .position(|x| leaves_no_interval(tick_us, parameters.find(x.key())))
}

/// The first stream with no parameter.
pub(crate) fn first_unknown_stream(parameters: &Parameters, streams: &[StreamPart]) -> Option<usize>
    ensures { result ≡ first_unknown_stream parameters.now streams.now }
{
    streams
        .iter()
        .position(|s| parameters.find(s.key()).is_none())
}

/// The first label with no parameter.
pub(crate) fn first_unknown_label(parameters: &Parameters, labels: &[LabelPart]) -> Option<usize>
    ensures { result ≡ first_unknown_label parameters.now labels.now }
{
    labels
        .iter()
        .position(|x| parameters.find(x.key()).is_none())
}
