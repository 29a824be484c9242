//! The engine of `survey`: what a capture tells of the wires and the streams of tables.
#![tactic(auto)]

mod engine;
mod lines;
mod recorded;

pub use engine::{SurveyCapture, run_survey};
