//! Clocks: ticks as spans of microseconds, and what holds of the one where it holds of the other.
#![tactic(auto)]

pub mod laws;
