//! The margins of an input and of an output, by the bounds of their queues.

ghost use Rattle.std.specs.Prelude.{◌≡◌, ℕ, ◌^◌, ◌<◌, ◌≤◌, ◌&&◌, Some, None, nat_le, if◌then◌else◌, length};
ghost use Rattle.dc_bound.specs.declared.limits.TheConstants.{GREATEST_CAP};
ghost use Rattle.dc_busy.specs.declared.limits.TheConstants.{LONGEST_WINDOW};
ghost use Rattle.dc_cert.specs.Bounds.{certificate_rows, input_bound, output_bound};
ghost use Rattle.dc_check.specs.Verdict.{is_window, is_delay};
ghost use Rattle.dc_margin.specs.Margins.{room, told, margin_by, by_window, window_margin_of, closing_margin_of, backlog_margin_of, queue_margin_of};
ghost use Rattle.dc_margin.specs.Margins.{delay_margin_of, delay_limit_margin_of, input_margins_of, output_margins_of};
ghost use Rattle.dc_margin.specs.Margins.{input_margins_given, output_margins_given};
ghost use Rattle.dc_margin.specs.declared.margin.Decider.TheVariants.{Numbers, Window};

use crate::margin::{Decider, InputMargins, Margin, OutputMargins};
use crate::peaks::{Peak, peaks_of};
use dc_bound::{ArrivalBound, ServiceBound};
use dc_busy::LONGEST_WINDOW;
use dc_check::Fitted;

/// How much more than `y` `x` is, both at most 2^62.
pub(crate) fn difference(x: u64, y: u64) -> i64
    requires x { x ≤ 2 ^ 62 }
    requires y { y ≤ 2 ^ 62 }
    ensures { result ≡ room x y }
{
    x as i64 - y as i64
}

/// A margin of numbers alone.
pub(crate) fn of_numbers(slack: i64) -> Margin
    ensures { result ≡ record { slack = Some slack; decider = Numbers } }
{
    Margin {
        slack: Some(slack),
        decider: Decider::Numbers,
    }
}

/// The margin of C02: how far the window is from leaving its range, in ticks.
fn window_margin(window: u32) -> Margin
    ensures { result ≡ window_margin_of window }
{
    let above = i64::from(window) - 1;
    let below = i64::from(LONGEST_WINDOW) - i64::from(window);
    of_numbers(if below < above { below } else { above })
}

/// The margin of C07: how far the delay is below the longest window, in ticks.
fn delay_limit_margin(delay: u32) -> Margin
    ensures { result ≡ delay_limit_margin_of delay }
{
    of_numbers(i64::from(LONGEST_WINDOW) - i64::from(delay))
}

/// The margin of C05: the room of the queue less the backlog, in words.
fn queue_margin(queue: u32, backlog: u32) -> Margin
    ensures { result ≡ queue_margin_of queue backlog }
{
    of_numbers(i64::from(queue) - i64::from(backlog))
}

/// Whether a window is in range.
fn in_range(window: u32) -> bool
    ensures { result ≡ is_window window }
{
    1 <= window && window <= LONGEST_WINDOW
}

/// Whether a delay is in range.
pub(crate) fn is_short(delay: u32) -> bool
    ensures { result ≡ is_delay delay }
{
    delay <= LONGEST_WINDOW
}

/// The margin of C03: what is taken in the ticks but the first less what comes in all, in words or entries.
fn closing_margin<A: ArrivalBound, S: ServiceBound>(
    arrivals: &A,
    service: &S,
    window: u32,
) -> Option<Margin>
    requires few { (d : ℕ) → d ≤ LONGEST_WINDOW → S.floor service.now d ≤ GREATEST_CAP }
    ensures { result ≡ told (is_window window) (closing_margin_of (A.cap arrivals.now) (S.floor service.now) window) }
{
    if !in_range(window) {
        return None;
    }
    let taken = service.at_least(window - 1);
    let come = arrivals.at_most(window);
    Some(of_numbers(difference(taken, come)))
}

/// The margin of C04: the backlog less the highest peak, in words.
fn backlog_margin(backlog: u32, peak: Peak) -> Margin
    requires { peak.height ≤ 2 ^ 62 }
    ensures { result ≡ margin_by (room backlog peak.height) (Window peak.ticks) }
{
    Margin {
        slack: Some(difference(u64::from(backlog), peak.height)),
        decider: Decider::Window(peak.ticks),
    }
}

/// The margin of C06: the delay less the longest that is needed, in ticks.
fn delay_margin(delay: u32, peak: Peak) -> Option<Margin>
    ensures { result ≡ told (is_delay delay) (by_window (if nat_le peak.height LONGEST_WINDOW then Some (room delay peak.height) else None) peak.ticks) }
{
    if !is_short(delay) {
        return None;
    }
    Some(Margin {
        slack: delay_slack(delay, peak.height),
        decider: Decider::Window(peak.ticks),
    })
}

/// The margins of C04 and of C06, by one walk through the window.
fn peak_margins<A: ArrivalBound, S: ServiceBound>(
    arrivals: &A,
    service: &S,
    window: u32,
    backlog: u32,
    delay: u32,
) -> (Option<Margin>, Option<Margin>)
    ensures backlog { result.0 ≡ told (is_window window) (backlog_margin_of (A.cap arrivals.now) (S.floor service.now) window backlog) }
    ensures delay { result.1 ≡ told (is_window window && is_delay delay) (delay_margin_of (A.cap arrivals.now) (S.floor service.now) window delay) }
{
    if !in_range(window) {
        return (None, None);
    }
    let peaks = peaks_of(arrivals, service, window);
    let backlog = backlog_margin(backlog, peaks.backlog);
    (Some(backlog), delay_margin(delay, peaks.delay))
}

/// The delay less the one that is needed; none where that is over [`LONGEST_WINDOW`].
fn delay_slack(delay: u32, needed: u64) -> Option<i64>
    ensures { result ≡ (if nat_le needed LONGEST_WINDOW then Some (room delay needed) else None) }
{
    if needed > u64::from(LONGEST_WINDOW) {
        return None;
    }
    Some(difference(u64::from(delay), needed))
}

/// The margins of an input, given the bounds of its bus.
fn input_margins_by<A: ArrivalBound, S: ServiceBound>(
    arrivals: &A,
    service: &S,
    queue: u32,
    window: u32,
    backlog: u32,
    delay: u32,
) -> InputMargins
    requires few { (d : ℕ) → d ≤ LONGEST_WINDOW → S.floor service.now d ≤ GREATEST_CAP }
    ensures { result ≡ input_margins_given (A.cap arrivals.now) (S.floor service.now) queue (record { window = window; backlog = backlog; delay = delay }) }
{
    let (waiting, late) = peak_margins(arrivals, service, window, backlog, delay);
    InputMargins {
        window: Some(window_margin(window)),
        delay_limit: Some(delay_limit_margin(delay)),
        closes: closing_margin(arrivals, service, window),
        backlog: waiting,
        queue: Some(queue_margin(queue, backlog)),
        delay: late,
    }
}

/// The margins of an output, given its bounds.
fn output_margins_by<A: ArrivalBound, S: ServiceBound>(
    arrivals: &A,
    service: &S,
    window: u32,
    delay: u32,
) -> OutputMargins
    requires few { (d : ℕ) → d ≤ LONGEST_WINDOW → S.floor service.now d ≤ GREATEST_CAP }
    ensures { result ≡ output_margins_given (A.cap arrivals.now) (S.floor service.now) (record { window = window; delay = delay }) }
{
    let (_, late) = peak_margins(arrivals, service, window, 0, delay);
    OutputMargins {
        window: Some(window_margin(window)),
        delay_limit: Some(delay_limit_margin(delay)),
        closes: closing_margin(arrivals, service, window),
        delay: late,
    }
}

/// The margins of the input of this number.
pub fn input_margins(fitted: &Fitted<'_>, bus: usize) -> InputMargins
    requires there { bus < length fitted.now.tables.now.buses }
    ensures { result ≡ input_margins_of fitted.now.tables.now bus (input_bound (certificate_rows fitted.now.certificate.now) bus) }
{
    fitted.tables.valid();
    let row = &fitted.certificate.inputs[bus];
    input_margins_by(
        &fitted.tables.bus_bound(bus),
        &fitted.tables.bus_service(bus),
        fitted.tables.queue(bus),
        row.window,
        row.backlog,
        row.delay,
    )
}

/// The margins of the output of this number.
pub fn output_margins(fitted: &Fitted<'_>, output: usize) -> OutputMargins
    requires there { output < length fitted.now.tables.now.outputs }
    ensures { result ≡ output_margins_of fitted.now.tables.now output (output_bound (certificate_rows fitted.now.certificate.now) output) }
{
    fitted.tables.valid();
    let row = &fitted.certificate.outputs[output];
    output_margins_by(
        &fitted.tables.output_bound(output),
        &fitted.tables.output_service(output),
        row.window,
        row.delay,
    )
}
