//! The document, and why rows are none.
use crate::inputs::add_input;
use crate::letters::Letters;
use crate::lines::{Fact, Lines};
use crate::names::{name_labels, name_streams};
use crate::outputs::add_output;
use crate::parameters::{check_outputs, gather};
use crate::tasks::share_tasks;
use crate::units::Units;
use dc_cell::{InputRow, OutputRow};
use dc_document::{MOST_BUSES, MOST_LABELS, MOST_MEMBERS, MOST_OUTPUTS, MOST_STREAMS, Speed};
use dc_word::Format;
use std::alloc::{AllocError, Global};

/// Places of a list, from the first up to the end.
#[derive(Clone, Copy)]
pub struct Span {
    /// The first place.
    pub first: usize,
    /// The place behind the last one.
    pub end: usize,
}

/// What a task surely does.
#[derive(Clone, Copy)]
pub struct Task {
    /// So many steps or sends ..
    pub steps: u64,
    /// .. in any so many microseconds.
    pub within: u64,
    /// The number of the row that says so.
    pub row: u64,
}

/// A bus, as its rows say it together: for each thing the first row that says it counts.
#[derive(Clone, Copy)]
pub struct Bus {
    /// Its name.
    pub name: Letters,
    /// Its speed, and the row that says so.
    pub speed: Speed,
    /// The number of that row.
    pub speed_row: u64,
    /// How many words its queue takes, where a row says so, and the number of that row.
    pub queue: Option<u64>,
    /// The number of that row.
    pub queue_row: u64,
    /// Its router, where a row names one.
    pub router: Option<Letters>,
    /// The number of that row.
    pub router_row: u64,
    /// What the task of its router surely does, where a row says so.
    pub task: Option<Task>,
    /// Whether it is policed.
    pub police: bool,
    /// Its streams, in [`Document::on_bus`].
    pub streams: Span,
}

/// A row of the inputs.
#[derive(Clone, Copy)]
pub struct Stream {
    /// Its number.
    pub row: u64,
    /// The number of its bus, from 0.
    pub bus: usize,
    /// What it is called, or nothing where that is not settled yet.
    pub name: Letters,
    /// Its label.
    pub label: u64,
    /// Its equipment code.
    pub equipment: u64,
    /// The SDI of its words; `None` for any.
    pub sdi: Option<u64>,
    /// The format of its data.
    pub format: Format,
    /// The least interval of the row, in microseconds.
    pub min: u64,
    /// The greatest interval of the row, in microseconds.
    pub max: u64,
    /// How late of their rhythm its words may come, in microseconds.
    pub jitter: u64,
    /// The number of its parameter, from 0.
    pub parameter: usize,
}

/// An output, as its rows say it together.
#[derive(Clone, Copy)]
pub struct Output {
    /// Its name.
    pub name: Letters,
    /// Its speed.
    pub speed: Speed,
    /// The number of the row that says so.
    pub speed_row: u64,
    /// What its task surely does, where a row says so.
    pub task: Option<Task>,
    /// Its labels, in [`Document::on_output`].
    pub labels: Span,
}

/// A row of the outputs.
#[derive(Clone, Copy)]
pub struct Label {
    /// Its number.
    pub row: u64,
    /// The number of its output, from 0.
    pub output: usize,
    /// What it is called, or nothing where that is not settled yet.
    pub name: Letters,
    /// Its label.
    pub label: u64,
    /// Its equipment code.
    pub equipment: u64,
    /// The SDI of its words.
    pub sdi: u64,
    /// The format of its data, once its sources are known.
    pub format: Option<Format>,
    /// The least interval of the row, in microseconds.
    pub min: u64,
    /// The greatest interval of the row, in microseconds.
    pub max: u64,
    /// How old its data may be, in microseconds.
    pub max_age: Option<u64>,
    /// How long a silent source counts as live, in microseconds.
    pub timeout: Option<u64>,
    /// Its sources, in [`Document::sources`].
    pub sources: Span,
    /// The number of its parameter, from 0.
    pub parameter: usize,
}

/// A label with an equipment code: an interval that is true of every input, as wide as all, and good for every output,
/// as narrow as all.
#[derive(Clone, Copy)]
pub struct Parameter {
    /// The label.
    pub label: u64,
    /// The equipment code.
    pub equipment: u64,
    /// The format of its data.
    pub format: Option<Format>,
    /// The least interval, in microseconds.
    pub min: u64,
    /// The greatest interval, in microseconds.
    pub max: u64,
    /// Whether inputs have it.
    pub has_inputs: bool,
    /// Whether some row has another interval.
    pub is_merged: bool,
    /// The first row that has it.
    pub row: u64,
}

/// What the rows say together. Streams, labels and parameters stand in the order of the rows, buses and outputs in the
/// order in which they first come.
pub struct Document {
    /// The buses.
    pub buses: Vec<Bus>,
    /// The streams.
    pub streams: Vec<Stream>,
    /// The numbers of the streams, bus by bus.
    pub on_bus: Vec<usize>,
    /// The outputs.
    pub outputs: Vec<Output>,
    /// The labels.
    pub labels: Vec<Label>,
    /// The numbers of the labels, output by output.
    pub on_output: Vec<usize>,
    /// The numbers of the streams that are the sources of each label, label by label.
    pub sources: Vec<usize>,
    /// The parameters.
    pub parameters: Vec<Parameter>,
    /// In which units its times are told.
    pub units: Units,
    /// Whether it is of tables, which say ticks and have names for all labels; else of sheets.
    pub is_of_tables: bool,
}

// Dropped by one call, which is proved here and not in each crate that owns one.
impl Drop for Document {
    fn drop(self) {
        let Document {
            buses: _,
            streams: _,
            on_bus: _,
            outputs: _,
            labels: _,
            on_output: _,
            sources: _,
            parameters: _,
            units: _,
            is_of_tables: _,
        } = self;
    }
}

/// Why rows are no document.
#[derive(Drop)]
pub enum Undocumented {
    /// They contradict one another: a line for each fault, the first fifty, and how many more there are.
    Faults(String),
    /// Memory was refused.
    NoMemory,
}

impl Document {
    /// A document of nothing.
    pub(crate) fn empty(alloc: Global) -> Document {
        Document {
            buses: Vec::new(alloc),
            streams: Vec::new(alloc),
            on_bus: Vec::new(alloc),
            outputs: Vec::new(alloc),
            labels: Vec::new(alloc),
            on_output: Vec::new(alloc),
            sources: Vec::new(alloc),
            parameters: Vec::new(alloc),
            units: Units::microseconds(),
            is_of_tables: false,
        }
    }

    /// The document of these rows, or what contradicts what. With `police_all` every bus is policed. Its times are told in
    /// microseconds.
    pub fn of(
        alloc: Global,
        inputs: &[InputRow],
        outputs: &[OutputRow],
        police_all: bool,
    ) -> Result<Document, Undocumented> {
        let mut faults = Lines::new(alloc);
        let mut document = Document::empty(alloc);
        count_rows(inputs.len(), outputs.len(), &mut faults);
        if faults.count() == 0
            && fill(&mut document, inputs, outputs, police_all, &mut faults).is_err()
        {
            return Err(Undocumented::NoMemory);
        }
        if faults.count() == 0 {
            return Ok(document);
        }
        match faults.finish() {
            Some(text) => Err(Undocumented::Faults(text)),
            None => Err(Undocumented::NoMemory),
        }
    }

    /// The same document, whose times are told in these units.
    pub fn told_in(mut self, units: Units) -> Document {
        self.units = units;
        self
    }

    /// Begins a line on a label: by its row and this column, or in tables by its name.
    pub fn begin_label(&self, label: &Label, column: &'static str, lines: &mut Lines) {
        lines.begin("");
        if self.is_of_tables {
            lines.say("label {}: ", &[Fact::Name(label.name)]);
        } else {
            lines.say(
                "outputs row {} column {}: ",
                &[Fact::Number(label.row), Fact::Word(column)],
            );
        }
    }

    /// The parameter of this number.
    pub fn parameter(&self, number: usize) -> Option<Parameter> {
        self.parameters.get(number).copied()
    }
}

/// Tells that there are more of a thing than tables may have.
fn count_most(count: usize, what: &'static str, most: usize, faults: &mut Lines) {
    if count > most {
        faults.begin("unreadable ");
        faults.line(
            "{} {}, at most {} (T08); part the document between two concentrators",
            &[
                Fact::Number(count as u64),
                Fact::Word(what),
                Fact::Number(most as u64),
            ],
        );
    }
}

/// Tells that there are too many rows. Then nothing else is looked for.
fn count_rows(inputs: usize, outputs: usize, faults: &mut Lines) {
    count_most(inputs, "streams", MOST_STREAMS, faults);
    count_most(outputs, "labels", MOST_LABELS, faults);
}

/// Tells that a bus or an output has too many rows, at the first one that is too much.
fn count_members(
    file: &'static str,
    what: &'static str,
    row: u64,
    name: Letters,
    faults: &mut Lines,
) {
    faults.begin("unreadable ");
    faults.line(
        "{} row {}: over {} {} {} (T08)",
        &[
            Fact::Word(file),
            Fact::Number(row),
            Fact::Number(MOST_MEMBERS as u64),
            Fact::Word(what),
            Fact::Name(name),
        ],
    );
}

/// Tells which buses and outputs have too many rows.
fn count_all_members(document: &Document, faults: &mut Lines) {
    for bus in &document.buses {
        let place = bus.streams.first.saturating_add(MOST_MEMBERS);
        if place < bus.streams.end {
            let number = document.on_bus.get(place).copied().unwrap_or(0);
            if let Some(stream) = document.streams.get(number) {
                count_members("inputs", "streams on bus", stream.row, bus.name, faults);
            }
        }
    }
    for output in &document.outputs {
        let place = output.labels.first.saturating_add(MOST_MEMBERS);
        if place < output.labels.end {
            let number = document.on_output.get(place).copied().unwrap_or(0);
            if let Some(label) = document.labels.get(number) {
                count_members(
                    "outputs",
                    "labels on output",
                    label.row,
                    output.name,
                    faults,
                );
            }
        }
    }
}

/// Lists the numbers of the streams of a bus.
fn list_streams(streams: &[Stream], bus: usize, list: &mut Vec<usize>) -> Result<(), AllocError> {
    for (place, stream) in streams.iter().enumerate() {
        if stream.bus == bus {
            list.push(place)?;
        }
    }
    Ok(())
}

/// Lists the numbers of the labels of an output.
fn list_labels(labels: &[Label], output: usize, list: &mut Vec<usize>) -> Result<(), AllocError> {
    for (place, label) in labels.iter().enumerate() {
        if label.output == output {
            list.push(place)?;
        }
    }
    Ok(())
}

/// Lists the streams bus by bus.
pub(crate) fn order_streams(document: &mut Document) -> Result<(), AllocError> {
    for number in 0..document.buses.len() {
        let first = document.on_bus.len();
        list_streams(&document.streams, number, &mut document.on_bus)?;
        let end = document.on_bus.len();
        if let Some(bus) = document.buses.get_mut(number) {
            bus.streams = Span { first, end };
        }
    }
    Ok(())
}

/// Lists the labels output by output.
pub(crate) fn order_labels(document: &mut Document) -> Result<(), AllocError> {
    for number in 0..document.outputs.len() {
        let first = document.on_output.len();
        list_labels(&document.labels, number, &mut document.on_output)?;
        let end = document.on_output.len();
        if let Some(output) = document.outputs.get_mut(number) {
            output.labels = Span { first, end };
        }
    }
    Ok(())
}

/// Fills a document with rows, and tells what contradicts what.
fn fill(
    document: &mut Document,
    inputs: &[InputRow],
    outputs: &[OutputRow],
    police_all: bool,
    faults: &mut Lines,
) -> Result<(), AllocError> {
    for row in inputs {
        add_input(document, row, police_all, faults)?;
    }
    share_tasks(&mut document.buses, faults);
    order_streams(document)?;
    name_streams(document, faults);
    for row in outputs {
        add_output(document, row, faults)?;
    }
    order_labels(document)?;
    name_labels(document, faults);
    count_most(document.buses.len(), "buses", MOST_BUSES, faults);
    count_most(document.outputs.len(), "outputs", MOST_OUTPUTS, faults);
    count_all_members(document, faults);
    gather(document, faults)?;
    check_outputs(document, faults);
    Ok(())
}
