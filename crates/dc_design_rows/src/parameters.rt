//! One interval for each label with equipment code.
use crate::document::{Document, Label, Parameter};
use crate::lines::{Fact, Lines};
use crate::words::format_word;
use dc_word::Format;
use std::alloc::AllocError;

/// What a row says of its parameter.
#[derive(Clone, Copy)]
struct Said {
    /// Whether the row is one of the inputs.
    is_input: bool,
    row: u64,
    label: u64,
    equipment: u64,
    format: Option<Format>,
    min: u64,
    max: u64,
}

/// The number of the parameter of this label with this equipment code, where there is one.
fn parameter_of(parameters: &[Parameter], label: u64, equipment: u64) -> Option<usize> {
    for (number, parameter) in parameters.iter().enumerate() {
        if parameter.label == label && parameter.equipment == equipment {
            return Some(number);
        }
    }
    None
}

/// What the rows of a file are called.
fn file_word(is_input: bool) -> Fact {
    Fact::Word(if is_input { "inputs" } else { "outputs" })
}

/// Tells that a row has another format than the rows of its parameter before it.
fn tell_format(
    parameter: &Parameter,
    said: &Said,
    here: Format,
    there: Format,
    faults: &mut Lines,
) {
    faults.begin("unreadable ");
    faults.say(
        "{} row {} column format: {}/{} is ",
        &[
            file_word(said.is_input),
            Fact::Number(said.row),
            Fact::Octal(said.label),
            Fact::Hexadecimal(said.equipment),
        ],
    );
    faults.line(
        "{} here and {} in {} row {} (T09)",
        &[
            format_word(here),
            format_word(there),
            file_word(parameter.has_inputs),
            Fact::Number(parameter.row),
        ],
    );
}

/// Takes what a row says into its parameter.
fn merge(parameter: &mut Parameter, said: &Said, faults: &mut Lines) {
    if let Some(here) = said.format {
        match parameter.format {
            None => {
                parameter.format = Some(here);
            }
            Some(there) => {
                if here != there {
                    tell_format(parameter, said, here, there, faults);
                }
            }
        }
    }
    if said.is_input {
        parameter.min = parameter.min.min(said.min);
        parameter.max = parameter.max.max(said.max);
    } else if !parameter.has_inputs {
        parameter.min = parameter.min.max(said.min);
        parameter.max = parameter.max.min(said.max);
    }
}

/// Adds what a row says to the parameters, and answers which one is its.
fn add(document: &mut Document, said: &Said, faults: &mut Lines) -> Result<usize, AllocError> {
    if let Some(number) = parameter_of(&document.parameters, said.label, said.equipment) {
        if let Some(parameter) = document.parameters.get_mut(number) {
            merge(parameter, said, faults);
        }
        return Ok(number);
    }
    let number = document.parameters.len();
    document.parameters.push(Parameter {
        label: said.label,
        equipment: said.equipment,
        format: said.format,
        min: said.min,
        max: said.max,
        has_inputs: said.is_input,
        is_merged: false,
        row: said.row,
    })?;
    Ok(number)
}

/// What the stream of this number says of its parameter.
fn said_of_stream(document: &Document, number: usize) -> Option<Said> {
    match document.streams.get(number) {
        None => None,
        Some(stream) => Some(Said {
            is_input: true,
            row: stream.row,
            label: stream.label,
            equipment: stream.equipment,
            format: Some(stream.format),
            min: stream.min,
            max: stream.max,
        }),
    }
}

/// What the label of this number says of its parameter.
fn said_of_label(document: &Document, number: usize) -> Option<Said> {
    match document.labels.get(number) {
        None => None,
        Some(label) => Some(Said {
            is_input: false,
            row: label.row,
            label: label.label,
            equipment: label.equipment,
            format: label.format,
            min: label.min,
            max: label.max,
        }),
    }
}

/// Gathers the parameters of all rows, and tells where formats differ.
pub(crate) fn gather(document: &mut Document, faults: &mut Lines) -> Result<(), AllocError> {
    for number in 0..document.streams.len() {
        if let Some(said) = said_of_stream(document, number) {
            let parameter = add(document, &said, faults)?;
            if let Some(stream) = document.streams.get_mut(number) {
                stream.parameter = parameter;
            }
        }
    }
    for number in 0..document.labels.len() {
        if let Some(said) = said_of_label(document, number) {
            let parameter = add(document, &said, faults)?;
            if let Some(label) = document.labels.get_mut(number) {
                label.parameter = parameter;
            }
        }
    }
    Ok(())
}

/// Whether some row of this parameter has another interval.
fn is_merged(document: &Document, number: usize, parameter: &Parameter) -> bool {
    for stream in &document.streams {
        if stream.parameter == number
            && (stream.min != parameter.min || stream.max != parameter.max)
        {
            return true;
        }
    }
    for label in &document.labels {
        if label.parameter == number && (label.min != parameter.min || label.max != parameter.max) {
            return true;
        }
    }
    false
}

/// Tells that an output wants another interval than its parameter has.
fn tell_interval(parameter: &Parameter, label: &Label, faults: &mut Lines) {
    faults.begin("unreadable ");
    faults.say(
        "outputs row {} column equipment: {}/{} is wanted every ",
        &[
            Fact::Number(label.row),
            Fact::Octal(parameter.label),
            Fact::Hexadecimal(parameter.equipment),
        ],
    );
    let had = if parameter.has_inputs {
        "inputs have"
    } else {
        "the outputs together leave"
    };
    faults.say(
        "{} to {} us here, but {} {} to {} us, ",
        &[
            Fact::Number(label.min),
            Fact::Number(label.max),
            Fact::Word(had),
            Fact::Number(parameter.min),
            Fact::Number(parameter.max),
        ],
    );
    faults.line(
        "and tables have one interval for a label with equipment code (T09); give this output an equipment code of its own",
        &[],
    );
}

/// Tells the first output that wants another interval than this parameter has.
fn check_output(document: &Document, number: usize, parameter: &Parameter, faults: &mut Lines) {
    let is_empty = parameter.min > parameter.max;
    for label in &document.labels {
        let is_outside = label.min > parameter.min || label.max < parameter.max;
        if label.parameter == number && (is_outside || is_empty) {
            return tell_interval(parameter, label, faults);
        }
    }
}

/// Settles which parameters are of several intervals, and tells the outputs that want another one.
pub(crate) fn check_outputs(document: &mut Document, faults: &mut Lines) {
    for number in 0..document.parameters.len() {
        let Some(parameter) = document.parameter(number) else {
            return;
        };
        let is_merged = is_merged(document, number, &parameter);
        check_output(document, number, &parameter, faults);
        if let Some(place) = document.parameters.get_mut(number) {
            place.is_merged = is_merged;
        }
    }
}
