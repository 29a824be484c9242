//! Networks of concentrators.
#![tactic(auto)]

pub mod laws;
