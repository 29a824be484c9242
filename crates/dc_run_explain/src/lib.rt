//! The engine of `explain`: what codes mean, with an example and what to do.
#![tactic(auto)]

mod explain;
mod telling;

pub use explain::{Explain, run_explain};
