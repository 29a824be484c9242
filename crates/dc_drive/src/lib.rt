//! A hub that is driven in threads, the wires by a script.
#![tactic(auto)]

mod compare;
mod driving;
mod fault;
mod pace;
mod player;
mod threads;

pub use driving::drive;
pub use fault::DriveFault;
