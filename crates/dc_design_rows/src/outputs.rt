//! The rows of the outputs, output by output.
use crate::document::{Document, Label, Output, Span};
use crate::inputs::{tell_contradiction, tell_twice};
use crate::letters::Letters;
use crate::lines::{Fact, Lines};
use crate::sources::add_sources;
use crate::tasks::{settle_output_task, task_of};
use crate::words::speed_word;
use dc_cell::OutputRow;
use std::alloc::AllocError;

/// The number of the output of this name, where there is one.
fn output_named(outputs: &[Output], name: &Letters) -> Option<usize> {
    for (number, output) in outputs.iter().enumerate() {
        if output.name == *name {
            return Some(number);
        }
    }
    None
}

/// A number, where there is one.
fn perhaps(number: &Option<u32>) -> Option<u64> {
    match number {
        Some(number) => Some(u64::from(*number)),
        None => None,
    }
}

/// A label, as its row says it, with no sources yet.
fn label_of(row: &OutputRow, output: usize) -> Label {
    let name = Letters::perhaps(&row.name).unwrap_or(Letters::empty());
    Label {
        row: u64::from(row.row),
        output,
        name,
        label: u64::from(row.label.number()),
        equipment: u64::from(row.equipment.code()),
        sdi: u64::from(row.sdi.number()),
        format: row.format,
        min: u64::from(row.min_us),
        max: u64::from(row.max_us),
        max_age: perhaps(&row.max_age_us),
        timeout: perhaps(&row.timeout_us),
        sources: Span { first: 0, end: 0 },
        parameter: 0,
    }
}

/// The first row of an output with the label and the SDI of a new one.
fn row_alike(labels: &[Label], new: &Label) -> Option<u64> {
    for label in labels {
        if label.output == new.output && label.label == new.label && label.sdi == new.sdi {
            return Some(label.row);
        }
    }
    None
}

/// Settles what a row says of the speed of its output.
fn settle_speed(output: &Output, row: &OutputRow, faults: &mut Lines) {
    if output.speed != row.speed {
        let place = [
            Fact::Word("outputs"),
            Fact::Number(u64::from(row.row)),
            Fact::Word("speed"),
        ];
        let said = [speed_word(row.speed), speed_word(output.speed)];
        let group = [Fact::Word("output"), Fact::Name(output.name)];
        tell_contradiction(faults, &place, &said, &group, output.speed_row);
    }
}

/// The number of a row's output, which is added where it is new.
fn output_of(
    document: &mut Document,
    row: &OutputRow,
    faults: &mut Lines,
) -> Result<usize, AllocError> {
    let name = Letters::named(&row.output);
    if let Some(number) = output_named(&document.outputs, &name) {
        if let Some(output) = document.outputs.get_mut(number) {
            settle_speed(output, row, faults);
            settle_output_task(output, row, faults);
        }
        return Ok(number);
    }
    let number = document.outputs.len();
    document.outputs.push(Output {
        name,
        speed: row.speed,
        speed_row: u64::from(row.row),
        task: task_of(&row.task, row.row),
        labels: Span { first: 0, end: 0 },
    })?;
    Ok(number)
}

/// Adds a row of the outputs.
pub(crate) fn add_output(
    document: &mut Document,
    row: &OutputRow,
    faults: &mut Lines,
) -> Result<(), AllocError> {
    let number = output_of(document, row, faults)?;
    let mut label = label_of(row, number);
    if let Some(first) = row_alike(&document.labels, &label) {
        let place = [Fact::Word("outputs"), Fact::Number(label.row)];
        let what = [
            Fact::Octal(label.label),
            Fact::Number(label.sdi),
            Fact::Word("output"),
            Fact::Name(Letters::named(&row.output)),
        ];
        tell_twice(faults, &place, &what, first, "T22");
    }
    add_sources(document, &mut label, &row.sources, faults)?;
    document.labels.push(label)?;
    Ok(())
}
