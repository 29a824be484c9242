//! The transmit schedule of an output: which entries are due, which one is next, and how far those of a label lie
//! apart.
#![tactic(auto)]

mod limits;
mod schedule;

pub use limits::{LAST_TICK, MOST_SENT};
pub use schedule::Schedule;
