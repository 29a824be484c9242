//! The words that wires bring while a hub is driven.
#![tactic(auto)]

mod bench;
mod limits;
mod script;

pub use limits::{DATA_VALUES, LONGEST_SCRIPT};
pub use script::{Script, Timed, WireWords};
