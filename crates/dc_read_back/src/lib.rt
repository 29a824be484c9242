//! What `observe` prints is read back as the numbers that it printed.
#![tactic(auto)]

pub mod laws;
mod spelled;
