//! What a kept capture says of the runs that it records.
#![tactic(auto)]

pub mod laws;
