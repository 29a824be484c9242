//! What a run of the concentrator means: its events and replies, and the definitions on which every theorem stands.
#![tactic(auto)]

mod ahead;
mod event;
mod fields;
pub mod laws;
mod line;
mod long_names;
mod names;
mod places;
mod trace;
mod trace_lines;
mod trace_reader;

pub use event::{Actor, Claim, Event, Reply};
pub use line::read_word;
pub use trace::{LineRule, TraceFault, TraceStop};
pub use trace_lines::TraceLines;
pub use trace_reader::{TRACE_LIMIT, TraceReader};
