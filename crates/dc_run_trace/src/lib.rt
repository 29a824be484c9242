//! The engine of `trace`: the run that a capture makes, as the text of a trace.
#![tactic(auto)]

mod clock;
mod engine;
pub mod laws;
mod texts;

pub use engine::run_trace;
