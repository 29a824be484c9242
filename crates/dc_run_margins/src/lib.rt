//! The engine of `margins`: how near each condition of a certificate is to failing.
#![tactic(auto)]

mod drift;
mod least;
mod lines;
mod margins;
mod objects;
mod telling;
mod told;

pub use drift::DriftPart;
pub use least::{MarginsLeast, run_margins_least, run_margins_least_told};
pub use margins::{Margins, run_margins, run_margins_told};
pub use telling::{InTime, LineKey, Telling};
