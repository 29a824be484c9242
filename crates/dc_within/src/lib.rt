//! What an accepted certificate says of the numbers that are observed of a run.
#![tactic(auto)]

mod certified;
pub mod laws;

pub use certified::observed_stay_within;
