//! Captures: what a bus analyser wrote, a line for each word with its time and its bus.
#![tactic(auto)]

mod ahead;
mod buses;
mod capture_lines;
mod fault;
mod fields;
mod line;
mod time;

pub use capture_lines::{CAPTURE_LIMIT, CaptureLines};
pub use fault::{CaptureFault, CaptureRule, CaptureStop};
pub use line::CapturedWord;
pub use time::LAST_TIME;
