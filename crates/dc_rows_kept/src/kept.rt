//! Whether tables keep the rows of the two sheets of an interface document.
ghost use Rattle.std.specs.Prelude.{MatchResult};
ghost use Rattle.dc_rows_kept.specs.KeepsRows.{IsFirstUnkept, KeepsRows};

use crate::inputs::first_unkept_input;
use crate::outputs::first_unkept_output;
use dc_cell::{Inputs, Outputs};
use dc_document::Parts;
use thiserror::Error;

/// Why tables do not keep the rows of the sheets: what is asked first of all that does not hold.
#[derive(Clone, Copy, Debug, PartialEq, Eq, Error)]
pub enum Unkept {
    /// There are not as many streams as rows of the inputs.
    #[error("not as many streams as rows of the inputs")]
    StreamCount,
    /// There are not as many labels as rows of the outputs.
    #[error("not as many labels as rows of the outputs")]
    LabelCount,
    /// No stream keeps the row of this place in the inputs, from 0.
    #[error("no stream keeps row {0} of the inputs")]
    Input(usize),
    /// No label keeps the row of this place in the outputs, from 0.
    #[error("no label keeps row {0} of the outputs")]
    Output(usize),
}

/// Whether the document of tables keeps the rows of both sheets.
///
/// # Errors
/// What is asked first of all that does not hold: that there are as many streams and labels as rows, and then each row from the
/// top, the inputs first.
pub fn keeps_rows(inputs: &Inputs, outputs: &Outputs, parts: &Parts) -> Result<(), Unkept>
    ensures { MatchResult result (λ _. KeepsRows inputs.now.rows.items outputs.now.rows.items parts.now)
        (λ why. IsFirstUnkept inputs.now.rows.items outputs.now.rows.items parts.now why) }
{
    if parts.stream_count() != inputs.rows.len() {
        return Err(Unkept::StreamCount);
    }
    if parts.label_count() != outputs.rows.len() {
        return Err(Unkept::LabelCount);
    }
    match first_unkept_input(parts, inputs) {
        Some(place) => Err(Unkept::Input(place)),
        None => match first_unkept_output(parts, outputs) {
            Some(place) => Err(Unkept::Output(place)),
            None => Ok(()),
        },
    }
}
