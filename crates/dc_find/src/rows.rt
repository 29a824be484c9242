//! The rows of the least certificate, with their names.

ghost use Rattle.std.specs.Prelude.{◌≡◌, ◌≢◌, ℕ, ◌+◌, ◌<◌, [], length, map, slice_index_or, IfOk, IfErr};
ghost use Rattle.dc_busy.specs.Least.{IsLeast};
ghost use Rattle.dc_cert.specs.Bounds.{input_numbers, output_numbers};
ghost use Rattle.dc_cert.specs.NamedRows.{named_input, named_output, named_label};
ghost use Rattle.dc_find.specs.Rows.{IsInputRow, IsOutputRow, IsLabelRow, AreInputRows, AreOutputRows, AreLabelRows};
ghost use Rattle.dc_find.specs.Rows.{HaveShortDelays, IsOldEnough, inputs_alone};
ghost use Rattle.dc_find.specs.Ways.{IsFirstOfJob, IsFirstInTheWay, IsClearBelow};
ghost use Rattle.dc_find.specs.declared.fault.FindFault.TheVariants.{Memory};
ghost use Rattle.dc_document.specs.Names.{text_of};

use crate::fault::FindFault;
use crate::queues::{InputNumbers, Times, input_numbers, output_numbers};
use dc_cert::{InputRow, LabelRow, OutputRow};
use dc_tables::Tables;
use std::alloc::{AllocError, Global};

/// The row of an input with these numbers.
pub(crate) fn named_input_row(tables: &Tables, bus: usize, numbers: InputNumbers) -> InputRow
    requires { bus < length tables.now.buses }
    ensures named { (named_input result).bus ≡ text_of (slice_index_or tables.now.names.buses bus []) }
    ensures numbers { input_numbers (named_input result) ≡ record { window = numbers.times.window; backlog = numbers.backlog; delay = numbers.times.delay } }
{
    InputRow {
        bus: *tables.bus_name(bus),
        window: numbers.times.window,
        backlog: numbers.backlog,
        delay: numbers.times.delay,
    }
}

/// The row of an output with these numbers.
pub(crate) fn named_output_row(tables: &Tables, output: usize, times: Times) -> OutputRow
    requires { output < length tables.now.outputs }
    ensures named { (named_output result).output ≡ text_of (slice_index_or tables.now.names.outputs output []) }
    ensures numbers { output_numbers (named_output result) ≡ record { window = times.window; delay = times.delay } }
{
    OutputRow {
        output: *tables.output_name(output),
        window: times.window,
        delay: times.delay,
    }
}

/// The least row of a bus, or what stands first in its way.
fn input_row(tables: &Tables, bus: usize) -> Result<InputRow, FindFault>
    requires { bus < length tables.now.buses }
    ensures row { IfOk result (λ row. IsInputRow tables.now bus (named_input row)) }
    ensures fault { IfErr result (λ fault. IsFirstOfJob tables.now bus fault) }
{
    let numbers = input_numbers(
        tables,
        bus,
        &tables.bus_bound(bus),
        &tables.bus_service(bus),
    )?;
    Ok(named_input_row(tables, bus, numbers))
}

/// The least row of an output, or what stands first in its way.
fn output_row(tables: &Tables, output: usize) -> Result<OutputRow, FindFault>
    requires { output < length tables.now.outputs }
    ensures row { IfOk result (λ row. IsOutputRow tables.now output (named_output row)) }
    ensures fault { IfErr result (λ fault. IsFirstOfJob tables.now (length tables.now.buses + output) fault) }
{
    let times = output_numbers(
        tables,
        output,
        &tables.output_bound(output),
        &tables.output_service(output),
    )?;
    Ok(named_output_row(tables, output, times))
}

/// The age of the oldest word that a label still copies: its stale limit, and the greatest delay of its sources' buses.
fn least_age(tables: &Tables, inputs: &[InputRow], label: usize) -> u32
    requires there { label < length tables.now.labels }
    requires inputs { HaveShortDelays tables.now (map named_input inputs.now) }
    ensures { IsLeast (IsOldEnough tables.now label (inputs_alone (map named_input inputs.now))) result }
{
    tables.valid();
    let row = tables.label(label);
    let sources = row.sources.as_slice();
    let mut delay = 0;
    for stream in sources {
        let bus = tables.bus_of(*stream);
        delay = delay.max(inputs[bus].delay);
    }
    row.stale + delay
}

/// The least row of a label, for the delays of these inputs.
fn label_row(tables: &Tables, inputs: &[InputRow], label: usize) -> LabelRow
    requires there { label < length tables.now.labels }
    requires inputs { HaveShortDelays tables.now (map named_input inputs.now) }
    ensures { IsLabelRow tables.now (map named_input inputs.now) label (named_label result) }
{
    LabelRow {
        label: *tables.label_name(label),
        age: least_age(tables, inputs, label),
    }
}

/// The rows of the inputs, or the first thing that stands in their way.
pub(crate) fn input_rows(alloc: Global, tables: &Tables) -> Result<Vec<InputRow>, FindFault>
    ensures rows { IfOk result (λ v. AreInputRows tables.now (map named_input v.items)) }
    ensures fault { IfErr result (λ fault. fault ≢ Memory → IsFirstInTheWay tables.now fault) }
{
    let mut rows = Vec::new(alloc);
    for bus in 0..tables.bus_count() {
        let row = input_row(tables, bus)?;
        if rows.push(row).is_err() {
            return Err(FindFault::Memory);
        }
    }
    Ok(rows)
}

/// The rows of the outputs, where nothing stands in the way of the inputs, or the first thing that stands in theirs.
pub(crate) fn output_rows(alloc: Global, tables: &Tables) -> Result<Vec<OutputRow>, FindFault>
    requires { IsClearBelow tables.now (length tables.now.buses) }
    ensures rows { IfOk result (λ v. AreOutputRows tables.now (map named_output v.items)) }
    ensures fault { IfErr result (λ fault. fault ≢ Memory → IsFirstInTheWay tables.now fault) }
{
    let mut rows = Vec::new(alloc);
    for output in 0..tables.output_count() {
        let row = output_row(tables, output)?;
        if rows.push(row).is_err() {
            return Err(FindFault::Memory);
        }
    }
    Ok(rows)
}

/// The rows of the labels, given those of the inputs.
pub(crate) fn label_rows(
    alloc: Global,
    tables: &Tables,
    inputs: &[InputRow],
) -> Result<Vec<LabelRow>, AllocError>
    requires { HaveShortDelays tables.now (map named_input inputs.now) }
    ensures { IfOk result (λ v. AreLabelRows tables.now (map named_input inputs.now) (map named_label v.items)) }
{
    let mut rows = Vec::new(alloc);
    for label in 0..tables.label_count() {
        rows.push(label_row(tables, inputs, label))?;
    }
    Ok(rows)
}
