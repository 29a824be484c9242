//! Whether tables keep the rows of the two sheets of an interface document.
#![tactic(auto)]

mod inputs;
mod kept;
mod outputs;
mod same;

pub use kept::{Unkept, keeps_rows};
