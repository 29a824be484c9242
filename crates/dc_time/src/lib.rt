//! Runs of the concentrator in microseconds.
#![tactic(auto)]

pub mod laws;
