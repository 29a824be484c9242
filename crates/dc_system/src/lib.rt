//! Judges a whole network of concentrators.
#![tactic(auto)]

mod judging;
pub mod laws;

pub use judging::{NetworkFault, judge};
