//! The engine of `observe`: how near a recorded run came to the bounds of a certificate.
#![tactic(auto)]

mod bounds;
mod engine;
mod followed;
mod lines;

pub use engine::{Observe, run_observe};
