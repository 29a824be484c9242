//! Orders of numbered concentrators along the links between them.
#![tactic(auto)]

mod hop;
pub mod laws;
mod limits;
mod order;

pub use hop::Hop;
pub use limits::{LONGEST_LATENCY, MOST_CONCENTRATORS, MOST_LINKS};
pub use order::{OrderError, places};
