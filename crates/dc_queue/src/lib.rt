//! The two rings of the concentrator: the receive queue of a bus, and the step counts of an actor's last ticks.
#![tactic(auto)]

pub mod queue;
pub mod window;
