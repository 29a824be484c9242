//! Concentrators in a row.
#![tactic(auto)]

pub mod laws;
