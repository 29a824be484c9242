//! What the page shows of each input, output and label: the tables' words on it, the certificate's numbers and the
//! margins.

ghost use Rattle.std.specs.Prelude.{◌≡◌, ◌<◌, length, slice_index};
ghost use Rattle.dc_cert.specs.Bounds.{certificate_rows, input_bound, output_bound};
ghost use Rattle.dc_tables.specs.TableRows.{label_row};

use crate::known::label_known;
use crate::standing::Standing;
use crate::time::TickLength;
use dc_check::Fitted;
use dc_document::Name;
use dc_margin::{InputMargins, LabelMargins, OutputMargins};
use dc_tables::Tables;
use dc_transmit::Schedule;
use dc_word::Label;

/// Of an input.
#[derive(Clone, Copy)]
pub struct InputFacts {
    pub name: Name,
    pub standing: Standing,
    pub tick: TickLength,
    pub router: Name,
    pub queue: u32,
    pub police: bool,
    pub window: u32,
    pub backlog: u32,
    pub delay: u32,
    pub margins: InputMargins,
}

impl InputFacts {
    /// Whether no window of it closes.
    pub fn is_open(&self) -> bool {
        self.standing.is_none(self.delay)
    }
}

/// Of an output.
#[derive(Clone, Copy)]
pub struct OutputFacts {
    pub name: Name,
    pub standing: Standing,
    pub tick: TickLength,
    pub frame: u32,
    pub window: u32,
    pub delay: u32,
    pub margins: OutputMargins,
}

impl OutputFacts {
    /// Whether no window of it closes.
    pub fn is_open(&self) -> bool {
        self.standing.is_none(self.delay)
    }
}

/// Of a label: beside its own numbers its gaps, the delay of its output and the longest one of its sources' buses.
#[derive(Clone, Copy)]
pub struct LabelFacts {
    pub name: Name,
    pub standing: Standing,
    pub tick: TickLength,
    pub least_gap: u64,
    pub greatest_gap: u64,
    pub output_delay: u32,
    pub minimum: u32,
    pub maximum: u32,
    pub stale: u32,
    pub slowest: u32,
    pub age: u32,
    pub age_limit: u32,
    pub margins: LabelMargins,
}

impl LabelFacts {
    /// Whether there is no delay of its output.
    pub fn has_no_delay(&self) -> bool {
        self.standing.is_none(self.output_delay)
    }

    /// Whether there is no age of it, since there is no delay of one of its sources' buses.
    pub fn has_no_age(&self) -> bool {
        self.standing.is_none(self.slowest)
    }
}

/// Of a source of a label.
#[derive(Clone, Copy)]
pub struct SourceFacts {
    pub name: Name,
    pub tick: TickLength,
    pub bus: Name,
    pub label: Label,
    pub delay: u32,
    pub maximum: u32,
}

/// The facts of the input of this number, with its margins.
pub fn input_facts(
    fitted: &Fitted<'_>,
    bus: usize,
    margins: &InputMargins,
    standing: Standing,
) -> InputFacts
    requires there { bus < length fitted.now.tables.now.buses }
    ensures claimed { record { window = result.window; backlog = result.backlog; delay = result.delay }
        ≡ input_bound (certificate_rows fitted.now.certificate.now) bus }
{
    fitted.tables.valid();
    let row = &fitted.certificate.inputs[bus];
    let own = fitted.tables.bus(bus);
    InputFacts {
        name: *fitted.tables.bus_name(bus),
        standing,
        tick: TickLength::of(fitted.tables),
        router: *fitted.tables.router_name(own.router),
        queue: own.queue,
        police: own.police,
        window: row.window,
        backlog: row.backlog,
        delay: row.delay,
        margins: *margins,
    }
}

/// The facts of the output of this number, with its margins.
pub fn output_facts(
    fitted: &Fitted<'_>,
    output: usize,
    margins: &OutputMargins,
    standing: Standing,
) -> OutputFacts
    requires there { output < length fitted.now.tables.now.outputs }
    ensures claimed { record { window = result.window; delay = result.delay } ≡ output_bound (certificate_rows fitted.now.certificate.now) output }
{
    let row = &fitted.certificate.outputs[output];
    OutputFacts {
        name: *fitted.tables.output_name(output),
        standing,
        tick: TickLength::of(fitted.tables),
        frame: fitted.tables.output(output).frame,
        window: row.window,
        delay: row.delay,
        margins: *margins,
    }
}

/// The facts of the label of this number.
pub fn label_facts(fitted: &Fitted<'_>, label: usize, standing: Standing) -> LabelFacts
    requires there { label < length fitted.now.tables.now.labels }
    ensures claimed { result.age ≡ slice_index (certificate_rows fitted.now.certificate.now).ages label }
{
    fitted.tables.valid();
    let row = fitted.tables.label(label);
    let schedule = Schedule::of(fitted.tables, row.output);
    LabelFacts {
        name: *fitted.tables.label_name(label),
        standing,
        tick: TickLength::of(fitted.tables),
        least_gap: schedule.min_gap(label),
        greatest_gap: schedule.max_gap(label),
        output_delay: fitted.certificate.outputs[row.output].delay,
        minimum: row.minimum,
        maximum: row.maximum,
        stale: row.stale,
        slowest: slowest_delay(fitted, label),
        age: fitted.certificate.labels[label].age,
        age_limit: row.age_limit,
        margins: label_known(fitted, label, standing),
    }
}

/// The longest delay of the buses of a label's sources.
fn slowest_delay(fitted: &Fitted<'_>, label: usize) -> u32
    requires there { label < length fitted.now.tables.now.labels }
{
    let mut longest = 0;
    for place in 0..fitted.tables.label(label).sources.len() {
        let stream = source_at(fitted.tables, label, place);
        longest = delay_of(fitted, stream).max(longest);
    }
    longest
}

/// The stream at this place among a label's sources.
pub fn source_at(tables: &Tables, label: usize, place: usize) -> usize
    requires there { label < length tables.now.labels }
    requires place { place < length (label_row tables.now label).sources }
    ensures { result < length tables.now.streams }
{
    tables.valid();
    let row = tables.label(label);
    row.sources.as_slice()[place]
}

/// The delay that the certificate claims of a stream's bus.
fn delay_of(fitted: &Fitted<'_>, stream: usize) -> u32
    requires there { stream < length fitted.now.tables.now.streams }
{
    fitted.certificate.inputs[fitted.tables.bus_of(stream)].delay
}

/// The facts of the source that is the stream of this number.
pub fn source_facts(fitted: &Fitted<'_>, stream: usize) -> SourceFacts
    requires there { stream < length fitted.now.tables.now.streams }
{
    let bus = fitted.tables.bus_of(stream);
    let row = fitted.tables.stream(stream);
    SourceFacts {
        name: *fitted.tables.stream_name(stream),
        tick: TickLength::of(fitted.tables),
        bus: *fitted.tables.bus_name(bus),
        label: row.label,
        delay: delay_of(fitted, stream),
        maximum: row.maximum,
    }
}
