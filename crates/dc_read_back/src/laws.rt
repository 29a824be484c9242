//! Laws on the lines of `observe` and what they say. Each function does nothing: its contract is the law.

ghost use Rattle.dc_read_back.specs.Printed.{ReadsBack, SaysThePrinted};

use crate::spelled::{buses_are_spelled, labels_are_spelled, outputs_are_spelled};
use dc_tables::Tables;

/// The lines that `observe` prints of any numbers below 2^64 say these numbers.
pub fn printed_lines_read_back(tables: &Tables)
    ensures { ReadsBack tables.now }
{
    tables.valid();
    buses_are_spelled(tables);
    outputs_are_spelled(tables);
    labels_are_spelled(tables);
}

/// A text that says numbers is the one that `observe` prints of them, and no other.
pub fn only_printed_lines_are_read()
    ensures { SaysThePrinted }
{}
