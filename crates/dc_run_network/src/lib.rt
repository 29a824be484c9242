//! The engine of `network` and of `report --network`: the text of a system is read, then the files of each of its concentrators, and then the
//! network is judged.
#![tactic(auto)]

mod codes;
mod engine;
mod lines;
mod links;
mod members;
mod paths;
mod shelf;
mod telling;
mod verdicts;
mod ways;

pub use engine::{run_network, run_network_page, run_network_par};
pub use shelf::Shelf;
