//! The document of tables, as their parts say it.
use crate::document::{
    Bus, Document, Label, Output, Parameter, Span, Stream, Task, order_labels, order_streams,
};
use crate::letters::Letters;
use dc_dict::{Equipment, Parameter as Row};
use dc_document::{BusPart, LabelPart, Name, OutputPart, Parts, StreamPart};
use dc_word::{Format, Label as WordLabel, Sdi};
use std::alloc::{AllocError, Global};

/// What a task surely does that makes so many steps in so many ticks of this length.
fn task_of(steps: u32, within: u32, tick_us: u32) -> Task {
    Task {
        steps: u64::from(steps),
        within: u64::from(within).saturating_mul(u64::from(tick_us)),
        row: 0,
    }
}

/// A bus, whose visits are those of the tables.
fn bus_of(bus: &BusPart) -> Bus {
    Bus {
        name: Letters::named(&bus.name),
        speed: bus.speed,
        speed_row: 0,
        queue: Some(u64::from(bus.queue)),
        queue_row: 0,
        router: None,
        router_row: 0,
        task: None,
        police: bus.police,
        streams: Span { first: 0, end: 0 },
    }
}

/// The number of the parameter of a label and an equipment code, where there is one.
fn number_of(rows: &[Row], label: WordLabel, equipment: Equipment) -> Option<usize> {
    for (number, row) in rows.iter().enumerate() {
        if row.label == label && row.equipment == equipment {
            return Some(number);
        }
    }
    None
}

/// The intervals of a label and an equipment code: their number, the least and the greatest in microseconds, and the format.
fn interval_of(parts: &Parts, label: WordLabel, equipment: Equipment) -> (usize, u64, u64, Format) {
    let number = number_of(parts.parameters(), label, equipment).unwrap_or(0);
    match parts.parameters().get(number) {
        Some(row) => (
            number,
            u64::from(row.min_us),
            u64::from(row.max_us),
            row.format,
        ),
        None => (number, 0, 0, Format::Bnr),
    }
}

/// The number of an SDI; `None` for any.
fn sdi_of(sdi: &Option<Sdi>) -> Option<u64> {
    match sdi {
        Some(sdi) => Some(u64::from(sdi.number())),
        None => None,
    }
}

/// A stream.
fn stream_of(parts: &Parts, stream: &StreamPart) -> Stream {
    let (parameter, min, max, format) = interval_of(parts, stream.label, stream.equipment);
    Stream {
        row: 0,
        bus: stream.bus,
        name: Letters::named(&stream.name),
        label: u64::from(stream.label.number()),
        equipment: u64::from(stream.equipment.code()),
        sdi: sdi_of(&stream.sdi),
        format,
        min,
        max,
        jitter: u64::from(stream.jitter_us),
        parameter,
    }
}

/// An output.
fn output_of(output: &OutputPart, tick_us: u32) -> Output {
    Output {
        name: Letters::named(&output.name),
        speed: output.speed,
        speed_row: 0,
        task: Some(task_of(output.steps, output.within, tick_us)),
        labels: Span { first: 0, end: 0 },
    }
}

/// A label whose sources stand there, with the age of its tables and no timeout.
fn label_of(parts: &Parts, label: &LabelPart, sources: Span) -> Label {
    let (parameter, min, max, format) = interval_of(parts, label.label, label.equipment);
    let ticks = u64::from(label.age).saturating_add(1);
    Label {
        row: 0,
        output: label.output,
        name: Letters::named(&label.name),
        label: u64::from(label.label.number()),
        equipment: u64::from(label.equipment.code()),
        sdi: u64::from(label.sdi.number()),
        format: Some(format),
        min,
        max,
        max_age: Some(ticks.saturating_mul(u64::from(parts.tick_us()))),
        timeout: None,
        sources,
        parameter,
    }
}

/// A parameter.
fn parameter_of(row: &Row) -> Parameter {
    Parameter {
        label: u64::from(row.label.number()),
        equipment: u64::from(row.equipment.code()),
        format: Some(row.format),
        min: u64::from(row.min_us),
        max: u64::from(row.max_us),
        has_inputs: false,
        is_merged: false,
        row: 0,
    }
}

/// Adds the numbers of the streams of these names.
fn add_sources(
    streams: &[StreamPart],
    names: &[Name],
    list: &mut Vec<usize>,
) -> Result<(), AllocError> {
    for name in names {
        for (number, stream) in streams.iter().enumerate() {
            if stream.name == *name {
                list.push(number)?;
            }
        }
    }
    Ok(())
}

/// Adds the labels with their sources.
fn add_labels(document: &mut Document, parts: &Parts) -> Result<(), AllocError> {
    for label in parts.labels() {
        let first = document.sources.len();
        add_sources(parts.streams(), &label.sources, &mut document.sources)?;
        let end = document.sources.len();
        document
            .labels
            .push(label_of(parts, label, Span { first, end }))?;
    }
    order_labels(document)
}

/// Adds the buses with their streams.
fn add_buses(document: &mut Document, parts: &Parts) -> Result<(), AllocError> {
    for bus in parts.buses() {
        document.buses.push(bus_of(bus))?;
    }
    for stream in parts.streams() {
        document.streams.push(stream_of(parts, stream))?;
    }
    order_streams(document)
}

impl Document {
    /// The document of tables that break no rule but those of layouts: each bus has the queue, each output the task and each label the age
    /// that the tables say. How buses are visited it does not say.
    ///
    /// # Errors
    ///
    /// Memory was refused.
    pub fn of_tables(alloc: Global, parts: &Parts) -> Result<Document, AllocError> {
        let mut document = Document::empty(alloc);
        document.is_of_tables = true;
        for row in parts.parameters() {
            document.parameters.push(parameter_of(row))?;
        }
        add_buses(&mut document, parts)?;
        for output in parts.outputs() {
            document.outputs.push(output_of(output, parts.tick_us()))?;
        }
        add_labels(&mut document, parts)?;
        Ok(document)
    }
}
