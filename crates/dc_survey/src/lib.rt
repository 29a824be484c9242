//! The survey of a capture: what each stream and each wire of the tables kept, in one pass.
#![tactic(auto)]

mod bus_gauge;
mod known_streams;
mod states;
mod survey;

pub use bus_gauge::BusGauge;
pub use states::{PaceState, WireState};
pub use survey::Survey;
