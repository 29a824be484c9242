//! The engine of `audit`: a recorded run, judged while it is read.
#![tactic(auto)]

mod audit;
mod findings;
mod follow;

pub use audit::{Audit, run_audit};
pub use findings::Findings;
