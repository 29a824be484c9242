//! Whether two documents of tables say the same.
#![tactic(auto)]

mod lists;
mod members;
mod same;

pub use same::say_the_same;
