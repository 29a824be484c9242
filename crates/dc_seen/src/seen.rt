//! The numbers of a text.
ghost use Rattle.std.specs.Prelude.{◌≡◌, ◌+◌, ◌<◌, ◌≤◌, ◌^◌, [], Err, IfOk, Ok, length, MatchResult};
ghost use Rattle.dc_cert.specs.Bounds.{CertificateRows, certificate_rows};
ghost use Rattle.dc_seen.specs.Reading.{IsAnswer, TellsRow, TellsRows, said_from};
ghost use Rattle.dc_seen.specs.Said.{inputs_only, labels_only, lines_wanted, none_seen, one_input, one_label, one_output, outputs_only, row_count, seen_of};

use crate::bounds::{input_bounds, label_bounds, output_delay};
use crate::fault::{SeenFault, Unread};
use crate::kind::surplus;
use crate::lines::{Place, fault_at, no_more, wanted_line};
use crate::rows::{InputNumbers, OutputNumbers, read_input, read_label, read_output};
use dc_cert::Certificate;
use dc_observe::LabelNumbers;
use dc_tables::Tables;
use std::alloc::Global;

/// What was observed of a run: the numbers of each input, each output and each label, in the order of the tables.
#[derive(Debug, PartialEq, Eq, Drop)]
pub struct Seen {
    /// Those of the inputs.
    pub inputs: Vec<InputNumbers>,
    /// Those of the outputs.
    pub outputs: Vec<OutputNumbers>,
    /// Those of the labels of all outputs.
    pub labels: Vec<LabelNumbers>,
}

/// The numbers of the line at a place, which is that of this input, and the place behind it.
fn next_input(
    tables: &Tables,
    certificate: &Certificate,
    text: &[u8],
    place: Place,
    bus: usize,
) -> Result<(InputNumbers, Place), SeenFault>
    requires there { bus < length tables.now.buses }
    requires within { place.before ≤ length text.now }
    requires at { place.lines ≡ bus }
    ensures said { TellsRow tables.now (certificate_rows certificate.now) text.now place one_input result }
    ensures within { IfOk result (λ r. r.1.before ≤ length text.now) }
    ensures next { IfOk result (λ r. r.1.lines ≡ place.lines + 1) }
{
    tables.valid();
    let (line, behind) = match wanted_line(text, place) {
        Ok(found) => found,
        Err(fault) => return Err(fault),
    };
    let bounds = input_bounds(certificate, bus);
    match read_input(line, tables.bus_name(bus).text(), bounds) {
        Ok(numbers) => Ok((numbers, behind)),
        Err(rule) => Err(fault_at(place, rule)),
    }
}

/// The numbers of the line at a place, which is that of this output, and the place behind it.
fn next_output(
    tables: &Tables,
    certificate: &Certificate,
    text: &[u8],
    place: Place,
    output: usize,
) -> Result<(OutputNumbers, Place), SeenFault>
    requires there { output < length tables.now.outputs }
    requires within { place.before ≤ length text.now }
    requires at { place.lines ≡ length tables.now.buses + output }
    ensures said { TellsRow tables.now (certificate_rows certificate.now) text.now place one_output result }
    ensures within { IfOk result (λ r. r.1.before ≤ length text.now) }
    ensures next { IfOk result (λ r. r.1.lines ≡ place.lines + 1) }
{
    tables.valid();
    let (line, behind) = match wanted_line(text, place) {
        Ok(found) => found,
        Err(fault) => return Err(fault),
    };
    let delay = output_delay(certificate, output);
    match read_output(line, tables.output_name(output).text(), delay) {
        Ok(numbers) => Ok((numbers, behind)),
        Err(rule) => Err(fault_at(place, rule)),
    }
}

/// The numbers of the line at a place, which is that of this label, and the place behind it.
fn next_label(
    tables: &Tables,
    certificate: &Certificate,
    text: &[u8],
    place: Place,
    label: usize,
) -> Result<(LabelNumbers, Place), SeenFault>
    requires there { label < length tables.now.labels }
    requires within { place.before ≤ length text.now }
    requires at { place.lines ≡ length tables.now.buses + length tables.now.outputs + label }
    ensures said { TellsRow tables.now (certificate_rows certificate.now) text.now place one_label result }
    ensures within { IfOk result (λ r. r.1.before ≤ length text.now) }
    ensures next { IfOk result (λ r. r.1.lines ≡ place.lines + 1) }
{
    tables.valid();
    let (line, behind) = match wanted_line(text, place) {
        Ok(found) => found,
        Err(fault) => return Err(fault),
    };
    let bounds = label_bounds(tables, certificate, label);
    match read_label(line, tables.label_name(label).text(), bounds) {
        Ok(numbers) => Ok((numbers, behind)),
        Err(rule) => Err(fault_at(place, rule)),
    }
}

/// The numbers of all inputs, whose lines begin a text.
fn read_inputs(
    alloc: Global,
    tables: &Tables,
    certificate: &Certificate,
    text: &[u8],
    place: &mut Place,
) -> Result<Vec<InputNumbers>, Unread>
    requires within { place.old.before ≤ length text.now }
    requires at { place.old.lines ≡ 0 }
    ensures said { TellsRows tables.now (certificate_rows certificate.now) text.now place.old place.new (λ v. inputs_only v.items) result }
    ensures sized { IfOk result (λ v. length v.items ≡ length tables.now.buses) }
    ensures within { IfOk result (λ _. place.new.before ≤ length text.now) }
    ensures at { IfOk result (λ _. place.new.lines ≡ length tables.now.buses) }
{
    let mut rows = Vec::new(alloc);
    for bus in 0..tables.bus_count() {
        let (numbers, behind) = match next_input(tables, certificate, text, *place, bus) {
            Ok(told) => told,
            Err(fault) => return Err(Unread::Refused(fault)),
        };
        if rows.push(numbers).is_err() {
            return Err(Unread::Memory);
        }
        *place = behind;
    }
    Ok(rows)
}

/// The numbers of all outputs, whose lines stand behind those of the inputs.
fn read_outputs(
    alloc: Global,
    tables: &Tables,
    certificate: &Certificate,
    text: &[u8],
    place: &mut Place,
) -> Result<Vec<OutputNumbers>, Unread>
    requires within { place.old.before ≤ length text.now }
    requires at { place.old.lines ≡ length tables.now.buses }
    ensures said { TellsRows tables.now (certificate_rows certificate.now) text.now place.old place.new (λ v. outputs_only v.items) result }
    ensures sized { IfOk result (λ v. length v.items ≡ length tables.now.outputs) }
    ensures within { IfOk result (λ _. place.new.before ≤ length text.now) }
    ensures at { IfOk result (λ _. place.new.lines ≡ length tables.now.buses + length tables.now.outputs) }
{
    let mut rows = Vec::new(alloc);
    for output in 0..tables.output_count() {
        let (numbers, behind) = match next_output(tables, certificate, text, *place, output) {
            Ok(told) => told,
            Err(fault) => return Err(Unread::Refused(fault)),
        };
        if rows.push(numbers).is_err() {
            return Err(Unread::Memory);
        }
        *place = behind;
    }
    Ok(rows)
}

/// The numbers of all labels, whose lines stand behind those of the outputs.
fn read_labels(
    alloc: Global,
    tables: &Tables,
    certificate: &Certificate,
    text: &[u8],
    place: &mut Place,
) -> Result<Vec<LabelNumbers>, Unread>
    requires within { place.old.before ≤ length text.now }
    requires at { place.old.lines ≡ length tables.now.buses + length tables.now.outputs }
    ensures said { TellsRows tables.now (certificate_rows certificate.now) text.now place.old place.new (λ v. labels_only v.items) result }
    ensures sized { IfOk result (λ v. length v.items ≡ length tables.now.labels) }
    ensures within { IfOk result (λ _. place.new.before ≤ length text.now) }
    ensures at { IfOk result (λ _. place.new.lines ≡ row_count tables.now) }
{
    let mut rows = Vec::new(alloc);
    for label in 0..tables.label_count() {
        let (numbers, behind) = match next_label(tables, certificate, text, *place, label) {
            Ok(told) => told,
            Err(fault) => return Err(Unread::Refused(fault)),
        };
        if rows.push(numbers).is_err() {
            return Err(Unread::Memory);
        }
        *place = behind;
    }
    Ok(rows)
}

/// How many inputs, outputs and labels there are.
fn row_count(tables: &Tables) -> usize
    ensures { result ≡ row_count tables.now }
{
    tables.valid();
    tables.bus_count() + tables.output_count() + tables.label_count()
}

/// The place behind the blank line that answers tables without an input, an output and a label; for others the same.
///
/// # Errors
/// The fault of that line.
fn pass_blank(tables: &Tables, text: &[u8], place: Place) -> Result<Place, SeenFault>
    requires within { place.before ≤ length text.now }
    requires at { place.lines ≡ row_count tables.now }
    ensures said { (c : CertificateRows) → MatchResult result
        (λ to. said_from tables.now c text.now place ≡ said_from tables.now c text.now to) (λ fault. said_from tables.now c text.now place ≡ Err fault) }
    ensures within { IfOk result (λ to. to.before ≤ length text.now) }
    ensures at { IfOk result (λ to. to.lines ≡ lines_wanted tables.now) }
{
    if row_count(tables) > 0 {
        return Ok(place);
    }
    let (line, behind) = match wanted_line(text, place) {
        Ok(found) => found,
        Err(fault) => return Err(fault),
    };
    if line.is_empty() {
        return Ok(behind);
    }
    Err(fault_at(place, surplus(line)))
}

/// That nothing stands behind the lines of all rows.
///
/// # Errors
/// The fault of the line behind them.
fn end_text(tables: &Tables, text: &[u8], place: Place) -> Result<(), SeenFault>
    requires within { place.before ≤ length text.now }
    requires at { place.lines ≡ row_count tables.now }
    ensures { (c : CertificateRows) → MatchResult result
        (λ _. said_from tables.now c text.now place ≡ Ok none_seen) (λ fault. said_from tables.now c text.now place ≡ Err fault) }
{
    tables.valid();
    match pass_blank(tables, text, place) {
        Ok(place) => no_more(text, place),
        Err(fault) => Err(fault),
    }
}

/// What a text says that `observe` printed for these tables and this certificate.
///
/// # Errors
/// `Refused` with the first fault of the text; `Memory` where memory was refused.
#[tactic(auto, unfolding(crate::specs::Said::seen_of))]
pub fn read_seen(
    alloc: Global,
    tables: &Tables,
    certificate: &Certificate,
    text: &[u8],
) -> Result<Seen, Unread>
    ensures said { IsAnswer (seen_of tables.now (certificate_rows certificate.now) text.now) result }
    ensures inputs { IfOk result (λ s. length s.inputs.items ≡ length tables.now.buses) }
    ensures outputs { IfOk result (λ s. length s.outputs.items ≡ length tables.now.outputs) }
    ensures labels { IfOk result (λ s. length s.labels.items ≡ length tables.now.labels) }
{
    let mut place = Place {
        before: 0,
        lines: 0,
    };
    let inputs = read_inputs(alloc, tables, certificate, text, &mut place)?;
    let outputs = read_outputs(alloc, tables, certificate, text, &mut place)?;
    let labels = read_labels(alloc, tables, certificate, text, &mut place)?;
    match end_text(tables, text, place) {
        Ok(()) => Ok(Seen {
            inputs,
            outputs,
            labels,
        }),
        Err(fault) => Err(Unread::Refused(fault)),
    }
}
