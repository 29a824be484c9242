//! The document of an interface, as the rows of its two sheets say it together, or as tables say it: buses with their
//! streams, outputs with their labels, and one interval for each label with equipment code. Or what contradicts what.
#![tactic(auto)]

mod document;
mod inputs;
mod letters;
mod lines;
mod names;
mod outputs;
mod parameters;
mod sources;
mod tabled;
mod tasks;
mod units;
mod words;

pub use dc_cell::TimeUnit;
pub use document::{Bus, Document, Label, Output, Parameter, Span, Stream, Task, Undocumented};
pub use letters::Letters;
pub use lines::{Fact, Lines, MOST_LINES};
pub use units::Units;
