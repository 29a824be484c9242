//! The rows of the outputs that have their labels.
ghost use Rattle.std.specs.Prelude.{MatchOption, not, ◌≡◌, ◌+◌, ◌*◌, nat_le, ◌^◌, ◌≤◌, slice_get};
ghost use Rattle.dc_dict.specs.Rows.{row_of};
ghost use Rattle.std.specs.List.{All, list_any, position_from};
ghost use Rattle.dc_rows_kept.specs.KeepsRows.{HasLabel, IsFirstWithout};
ghost use Rattle.dc_rows_kept.specs.Tests.{asks_no_more, is_format, is_label_of, is_of_output, keeps_output, passes_if_some, same_names, sends_data, sends_within, some_passes};

use crate::same::{asks_no_more, is_called, parameter_of};
use dc_cell::{OutputRow, Outputs, Task};
use dc_dict::Parameter;
use dc_document::{LabelPart, Name, OutputPart, Parts};
use dc_word::Format;

/// Whether a label is that of a row, of its output.
fn is_label_of(row: &OutputRow, label: &LabelPart, output: &OutputPart) -> bool
    ensures { result ≡ is_label_of row.now label.now output.now }
{
    output.name == row.output
        && output.speed == row.speed
        && label.label == row.label
        && label.sdi == row.sdi
        && is_called(&label.name, &row.name)
}

/// Whether an output asks no more of its task than this, where that is said.
fn asks_of_output(tick_us: u32, output: &OutputPart, task: Option<Task>) -> bool
    ensures { result ≡ passes_if_some (asks_no_more tick_us output.now.steps output.now.within) task }
{
    match task {
        Some(task) => asks_no_more(tick_us, output.steps, output.within, task),
        None => true,
    }
}

/// Whether this is the format that is wanted, where one is.
fn is_format(format: Format, wanted: Option<Format>) -> bool
    ensures { result ≡ passes_if_some (is_format format) wanted }
{
    match wanted {
        Some(wanted) => format == wanted,
        None => true,
    }
}

/// Whether a label of this parameter sends no word that a row forbids.
fn sends_within(row: &OutputRow, label: &LabelPart, parameter: &Parameter) -> bool
    ensures { result ≡ sends_within row.now label.now parameter.now }
{
    label.equipment == row.equipment
        && is_format(parameter.format, row.format)
        && row.min_us <= parameter.min_us
        && parameter.max_us <= row.max_us
}

/// Whether these names are the same, in the same order.
fn same_names(names: &[Name], others: &[Name]) -> bool
    ensures { result ≡ same_names names.now others.now }
{
    names == others
}

/// Whether so many ticks take at most so many microseconds, where these are said.
fn take_at_most(ticks: u64, tick_us: u32, most: Option<u32>) -> bool
    requires { ticks ≤ 2 ^ 32 }
    ensures { result ≡ passes_if_some (nat_le (ticks * tick_us)) most }
{
    match most {
        Some(most) => ticks * u64::from(tick_us) <= u64::from(most),
        None => true,
    }
}

/// Whether a label sends the data that a row wants, none too old.
fn sends_data(tick_us: u32, row: &OutputRow, label: &LabelPart) -> bool
    ensures { result ≡ sends_data tick_us row.now label.now }
{
    same_names(&label.sources, &row.sources)
        && take_at_most(u64::from(label.age) + 1, tick_us, row.max_age_us)
        && take_at_most(u64::from(label.stale), tick_us, row.timeout_us)
}

/// Whether the output of a label is that of a row, with the label as the row's, and asks no more of its task than the row says.
fn is_of_output(parts: &Parts, row: &OutputRow, label: &LabelPart) -> bool
    ensures { result ≡ some_passes (is_of_output parts.now.tick_us row.now label.now) (slice_get parts.now.outputs label.now.output) }
{
    match parts.outputs().get(label.output) {
        Some(output) => {
            is_label_of(row, label, output) && asks_of_output(parts.tick_us(), output, row.task)
        }
        None => false,
    }
}

/// Whether the parameter of a label is there, and no word is sent that a row forbids.
fn is_sent_within(parts: &Parts, row: &OutputRow, label: &LabelPart) -> bool
    ensures { result ≡ some_passes (sends_within row.now label.now) (row_of parts.now.parameters label.now.label label.now.equipment) }
{
    match parameter_of(parts, label.label, label.equipment) {
        Some(parameter) => sends_within(row, label, parameter),
        None => false,
    }
}

/// Whether a label keeps a row.
fn keeps_output(parts: &Parts, row: &OutputRow, label: &LabelPart) -> bool
    ensures { result ≡ keeps_output parts.now row.now label.now }
{
    is_of_output(parts, row, label)
        && is_sent_within(parts, row, label)
        && sends_data(parts.tick_us(), row, label)
}

/// Whether a row has one of these as its label.
fn has_label(parts: &Parts, labels: &[LabelPart], row: &OutputRow) -> bool
    ensures { result ≡ list_any (keeps_output parts.now row.now) labels.now }
{
    for label in labels {
        if keeps_output(parts, row, label) {
            return true;
        }
    }
    false
}

/// The place of the first of these rows that has none of these as its label.
fn place_without(parts: &Parts, labels: &[LabelPart], rows: &[OutputRow]) -> Option<usize>
    ensures { result ≡ position_from (λ row. not (list_any (keeps_output parts.now row) labels.now)) 0 rows.now }
{
    for (place, row) in rows.iter().enumerate() {
        if !has_label(parts, labels, row) {
            return Some(place);
        }
    }
    None
}

/// The first row that has no label.
pub(crate) fn first_unkept_output(parts: &Parts, sheet: &Outputs) -> Option<usize>
    ensures { MatchOption result (All (HasLabel parts.now) sheet.now.rows.items) (λ k. IsFirstWithout (HasLabel parts.now) sheet.now.rows.items k) }
{
    place_without(parts, parts.labels(), &sheet.rows)
}
