//! The texts of both sheets: their rows are designed for, or their faults are told.
ghost use Rattle.std.specs.Prelude.{◌≡◌, ◌+◌, ◌≢◌, ℕ, List, IfErr, IfOk, IfSome, IsSomeAnd};
ghost use Rattle.dc_answer.specs.Judging.{Keeps};
ghost use Rattle.dc_device.specs.States.{AsksUpTo, IsCountable};
ghost use Rattle.dc_document.specs.declared.limits.TheConstants.{TEXT_LIMIT};
ghost use Rattle.dc_sheet.specs.Sheets.{AreInputs, AreOutputs};
ghost use Rattle.dc_run_design.specs.Design.{AnswersDesign, IsSheet, ReadsSheet, failures_in};

use crate::judged::Wanted;
use crate::search::{Plan, design_rows, keep_lines};
use dc_answer::{Failure, Outcome, Page};
use dc_cell::{Inputs, Outputs};
use dc_device::{Source, Unread, read_at_most};
use dc_document::TEXT_LIMIT;
use dc_sheet::{SheetError, fault_lines, read_inputs, read_outputs};
use std::alloc::{AllocError, Global};

/// The text of a sheet, read whole; none where it is longer than a text may be.
///
/// # Errors
/// Where the source failed, or memory was refused.
pub(crate) fn read_sheet<S: Source>(
    alloc: Global,
    source: &mut S,
) -> Result<Option<Vec<u8>>, Failure>
    requires { IsCountable (S.state source.old) }
    ensures text { IfSome (S.state source.old).remaining (λ text. ReadsSheet text result) }
    ensures count { (S.state source.new).failed ≡ (S.state source.old).failed + failures_in result }
    ensures asks { AsksUpTo TEXT_LIMIT (S.state source.old) (S.state source.new) }
    ensures sink { IfErr result (λ e. e ≢ Failure.Sink) }
{
    match read_at_most(alloc, source, TEXT_LIMIT) {
        Ok(text) => Ok(Some(text)),
        Err(Unread::TooLong) => Ok(None),
        Err(Unread::Device) => Err(Failure::Source),
        Err(Unread::Memory) => Err(Failure::Memory),
    }
}

/// The inputs of a text.
fn inputs_of(alloc: Global, text: &Option<Vec<u8>>) -> Result<Inputs, SheetError>
    ensures { IfOk result (λ i. IsSomeAnd text.now (λ bytes. AreInputs bytes.items i.rows.items)) }
{
    match text {
        Some(bytes) => read_inputs(alloc, bytes),
        None => Err(SheetError::too_long_inputs()),
    }
}

/// The outputs of a text.
fn outputs_of(alloc: Global, text: &Option<Vec<u8>>) -> Result<Outputs, SheetError>
    ensures { IfOk result (λ o. IsSomeAnd text.now (λ bytes. AreOutputs bytes.items o.rows.items)) }
{
    match text {
        Some(bytes) => read_outputs(alloc, bytes),
        None => Err(SheetError::too_long_outputs()),
    }
}

/// Keeps the lines of the faults of both sheets.
fn tell_faults(
    alloc: Global,
    inputs: &Result<Inputs, SheetError>,
    outputs: &Result<Outputs, SheetError>,
    page: &mut Page,
) -> Result<Outcome, AllocError>
    ensures { IfOk result (λ o. o ≡ Outcome.Unreadable) }
{
    match fault_lines(alloc, inputs, outputs) {
        Some(lines) => match keep_lines(&lines, page) {
            Ok(()) => Ok(Outcome::Unreadable),
            Err(e) => Err(e),
        },
        None => Err(AllocError),
    }
}

/// Designs tables for the rows of both sheets, or keeps the faults of these.
pub(crate) fn design_texts(
    alloc: Global,
    plan: Plan,
    inputs: &Option<Vec<u8>>,
    outputs: &Option<Vec<u8>>,
    page: &mut Page,
    certificate: &mut Vec<u8>,
) -> Result<Outcome, AllocError>
    ensures { (ins outs : List ℕ) → IsSheet inputs.now ins → IsSheet outputs.now outs → Keeps (AnswersDesign ins outs certificate.new.items) page.new result }
{
    match inputs_of(alloc, inputs) {
        Ok(read) => match outputs_of(alloc, outputs) {
            Ok(also) => {
                let wanted = Wanted {
                    inputs: &read,
                    outputs: &also,
                };
                design_rows(alloc, plan, wanted, page, certificate)
            }
            Err(faults) => tell_faults(alloc, &Ok(read), &Err(faults), page),
        },
        Err(faults) => {
            let others = outputs_of(alloc, outputs);
            tell_faults(alloc, &Err(faults), &others, page)
        }
    }
}
