//! The run that a capture makes: its words, in their ticks, among the steps of the steady run.
#![tactic(auto)]

pub mod laws;
