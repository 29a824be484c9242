//! The sheets of an interface document: texts of comma-separated values, and the rows that they hold or the faults that
//! stand in them.
#![tactic(auto)]

mod cells;
mod collect;
mod fault;
mod inputs;
mod lines;
mod outputs;
mod places;
mod sheet;
mod text;

pub use fault::{Fault, FaultKind, Faults, MOST_FAULTS, Sheet, SheetError};
pub use inputs::read_inputs;
pub use lines::fault_lines;
pub use outputs::read_outputs;
