//! The least certificate that is accepted for tables, or what stands in the way of one.
#![tactic(auto)]

mod fault;
mod finder;
mod queues;
mod reached;
mod rows;

pub use fault::{FindFault, Obstacle, Queue};
pub use finder::find;
pub use reached::{Reached, reach};
