//! The margins of a label.

ghost use Rattle.std.specs.Prelude.{◌≡◌, ◌^◌, ◌≤◌, ◌<◌, length};
ghost use Rattle.dc_cert.specs.Bounds.{certificate_rows};
ghost use Rattle.dc_check.specs.Accepts.{source_delay};
ghost use Rattle.dc_margin.specs.Margins.{margin_by, greater_of, slowest_source, rarest_source, silence, label_margins_of};
ghost use Rattle.dc_margin.specs.Margins.{are_in_range, soon_margin, late_margin, age_margin, age_limit_margin_of, fresh_margin};
ghost use Rattle.dc_margin.specs.declared.margin.Decider.TheVariants.{Gap, Source};

use crate::margin::{Decider, LabelMargins, Margin};
use crate::queues::{difference, is_short, of_numbers};
use dc_check::Fitted;
use dc_tables::Tables;
use dc_transmit::Schedule;

/// The margins of the label of this number.
pub fn label_margins(fitted: &Fitted<'_>, label: usize) -> LabelMargins
    requires there { label < length fitted.now.tables.now.labels }
    ensures { result ≡ label_margins_of fitted.now.tables.now label (certificate_rows fitted.now.certificate.now) }
{
    fitted.tables.valid();
    let delay = fitted.certificate.outputs[fitted.tables.label(label).output].delay;
    let age = fitted.certificate.labels[label].age;
    LabelMargins {
        soon: soon_margin(fitted.tables, label, delay),
        late: late_margin(fitted.tables, label, delay),
        age: age_margin(fitted, label, age),
        age_limit: Some(age_limit_margin(fitted.tables.label(label).age_limit, age)),
        fresh: fresh_margin(fitted, label),
    }
}

/// The margin of C11: the label's age limit less the age, in ticks.
fn age_limit_margin(limit: u32, age: u32) -> Margin
    ensures { result ≡ age_limit_margin_of limit age }
{
    of_numbers(i64::from(limit) - i64::from(age))
}

/// A margin that a gap of the frame decides.
fn gap_margin(slack: i64, gap: u64) -> Margin
    ensures { result ≡ margin_by slack (Gap gap) }
{
    Margin {
        slack: Some(slack),
        decider: Decider::Gap(gap),
    }
}

/// A margin that a source decides.
fn source_margin(slack: i64, source: usize) -> Margin
    ensures { result ≡ margin_by slack (Source source) }
{
    Margin {
        slack: Some(slack),
        decider: Decider::Source(source),
    }
}

/// The margin of C08: the least gap less the least interval and the delay, in ticks.
fn soon_margin(tables: &Tables, label: usize, delay: u32) -> Option<Margin>
    requires { label < length tables.now.labels }
    ensures { result ≡ soon_margin tables.now label delay }
{
    if !is_short(delay) {
        return None;
    }
    tables.valid();
    let row = tables.label(label);
    let schedule = Schedule::of(tables, row.output);
    let gap = schedule.min_gap(label);
    let wanted = u64::from(row.minimum) + u64::from(delay);
    Some(gap_margin(difference(gap, wanted), gap))
}

/// The margin of C09: the greatest interval less the greatest gap and the delay, in ticks.
fn late_margin(tables: &Tables, label: usize, delay: u32) -> Option<Margin>
    requires { label < length tables.now.labels }
    ensures { result ≡ late_margin tables.now label delay }
{
    if !is_short(delay) {
        return None;
    }
    tables.valid();
    let row = tables.label(label);
    let schedule = Schedule::of(tables, row.output);
    let gap = schedule.max_gap(label);
    let latest = gap + u64::from(delay);
    Some(gap_margin(difference(u64::from(row.maximum), latest), gap))
}

/// The margin of C10: the age less that of the oldest word from the slowest source, in ticks.
fn age_margin(fitted: &Fitted<'_>, label: usize, age: u32) -> Option<Margin>
    requires there { label < length fitted.now.tables.now.labels }
    ensures { result ≡ age_margin fitted.now.tables.now (certificate_rows fitted.now.certificate.now) label age }
{
    let source = slowest(fitted, label);
    let delay = delay_of(fitted, source);
    if !is_short(delay) {
        return None;
    }
    let oldest = u64::from(fitted.tables.label(label).stale) + u64::from(delay);
    Some(source_margin(difference(u64::from(age), oldest), source))
}

/// The margin of C12: the stale limit less the longest time between two words of a source, in ticks.
fn fresh_margin(fitted: &Fitted<'_>, label: usize) -> Option<Margin>
    requires there { label < length fitted.now.tables.now.labels }
    ensures { result ≡ fresh_margin fitted.now.tables.now (certificate_rows fitted.now.certificate.now) label }
{
    if !are_in_range(fitted, label) {
        return None;
    }
    let source = rarest(fitted, label);
    let silent = silence_of(fitted, source);
    let stale = u64::from(fitted.tables.label(label).stale);
    Some(source_margin(difference(stale, silent), source))
}

/// Whether the delay of each of the label's sources is in range.
pub(crate) fn are_in_range(fitted: &Fitted<'_>, label: usize) -> bool
    requires there { label < length fitted.now.tables.now.labels }
    ensures { result ≡ are_in_range fitted.now.tables.now (certificate_rows fitted.now.certificate.now) label }
{
    is_short(delay_of(fitted, slowest(fitted, label)))
}

/// The first source of the label whose bus delays it longest.
fn slowest(fitted: &Fitted<'_>, label: usize) -> usize
    requires there { label < length fitted.now.tables.now.labels }
    ensures source { result ≡ slowest_source fitted.now.tables.now (certificate_rows fitted.now.certificate.now) label }
    ensures there { result < length fitted.now.tables.now.streams }
{
    fitted.tables.valid();
    let row = fitted.tables.label(label);
    let sources = row.sources.as_slice();
    let mut best = sources[0];
    for stream in sources {
        best = slower(fitted, best, *stream);
    }
    best
}

/// The first source of the label whose words may lie apart longest when they are routed.
fn rarest(fitted: &Fitted<'_>, label: usize) -> usize
    requires there { label < length fitted.now.tables.now.labels }
    ensures source { result ≡ rarest_source fitted.now.tables.now (certificate_rows fitted.now.certificate.now) label }
    ensures there { result < length fitted.now.tables.now.streams }
{
    fitted.tables.valid();
    let row = fitted.tables.label(label);
    let sources = row.sources.as_slice();
    let mut best = sources[0];
    for stream in sources {
        best = rarer(fitted, best, *stream);
    }
    best
}

/// The second of two streams where its bus delays it longer, else the first.
fn slower(fitted: &Fitted<'_>, best: usize, stream: usize) -> usize
    requires best { best < length fitted.now.tables.now.streams }
    requires stream { stream < length fitted.now.tables.now.streams }
    ensures { result ≡ greater_of (source_delay fitted.now.tables.now (certificate_rows fitted.now.certificate.now)) best stream }
{
    let delay = delay_of(fitted, stream);
    if delay_of(fitted, best) < delay {
        stream
    } else {
        best
    }
}

/// The second of two streams where its words may lie further apart, else the first.
fn rarer(fitted: &Fitted<'_>, best: usize, stream: usize) -> usize
    requires best { best < length fitted.now.tables.now.streams }
    requires stream { stream < length fitted.now.tables.now.streams }
    ensures { result ≡ greater_of (silence fitted.now.tables.now (certificate_rows fitted.now.certificate.now)) best stream }
{
    let silent = silence_of(fitted, stream);
    if silence_of(fitted, best) < silent {
        stream
    } else {
        best
    }
}

/// How long the words of a stream may lie apart when they are routed.
fn silence_of(fitted: &Fitted<'_>, stream: usize) -> u64
    requires there { stream < length fitted.now.tables.now.streams }
    ensures value { result ≡ silence fitted.now.tables.now (certificate_rows fitted.now.certificate.now) stream }
    ensures short { result ≤ 2 ^ 33 }
{
    u64::from(delay_of(fitted, stream)) + u64::from(fitted.tables.stream(stream).maximum)
}

/// The delay that the certificate claims of a stream's bus.
fn delay_of(fitted: &Fitted<'_>, stream: usize) -> u32
    requires there { stream < length fitted.now.tables.now.streams }
    ensures { result ≡ source_delay fitted.now.tables.now (certificate_rows fitted.now.certificate.now) stream }
{
    fitted.certificate.inputs[fitted.tables.bus_of(stream)].delay
}
