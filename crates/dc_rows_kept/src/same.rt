//! What rows of sheets and parts of a document are compared by.
ghost use Rattle.std.specs.Prelude.{◌≡◌, ◌*◌, nat_le, option_copied};
ghost use Rattle.std.specs.Str.{bytes_eq};
ghost use Rattle.dc_dict.specs.Rows.{is_row_of, row_of};
ghost use Rattle.dc_rows_kept.specs.Tests.{asks_no_more, passes_if_some};

use dc_cell::Task;
use dc_dict::{Equipment, Parameter};
use dc_document::{Name, Parts};
use dc_word::Label;

/// Whether this is the name that is wanted, where one is.
pub(crate) fn is_called(name: &Name, wanted: &Option<Name>) -> bool
    ensures { result ≡ passes_if_some (bytes_eq name.now) wanted.now }
{
    match wanted {
        Some(wanted) => name == wanted,
        None => true,
    }
}

/// Whether a number is at most this, where this is said.
pub(crate) fn is_at_most(number: u32, most: Option<u32>) -> bool
    ensures { result ≡ passes_if_some (nat_le number) most }
{
    match most {
        Some(most) => number <= most,
        None => true,
    }
}

/// Whether who does so much as a task makes so many steps in so many ticks.
pub(crate) fn asks_no_more(tick_us: u32, steps: u32, within: u32, task: Task) -> bool
    ensures { result ≡ asks_no_more tick_us steps within task }
{
    steps <= task.steps && u64::from(task.within_us) <= u64::from(within) * u64::from(tick_us)
}

/// Whether a parameter is that of a label and an equipment code.
fn is_row_of(row: &Parameter, label: Label, equipment: Equipment) -> bool
    ensures { result ≡ is_row_of label equipment row.now }
{
    label == row.label && equipment == row.equipment
}

/// The first of some parameters that is that of a label and an equipment code.
fn row_in(rows: &[Parameter], label: Label, equipment: Equipment) -> Option<&Parameter>
    ensures { option_copied result ≡ row_of rows.now label equipment }
{
    for row in rows {
        if is_row_of(row, label, equipment) {
            return Some(row);
        }
    }
    None
}

/// The parameter of a label and an equipment code.
pub(crate) fn parameter_of(parts: &Parts, label: Label, equipment: Equipment) -> Option<&Parameter>
    ensures { option_copied result ≡ row_of parts.now.parameters label equipment }
{
    row_in(parts.parameters(), label, equipment)
}
