//! The verdict on a certificate by several threads: that of one thread, whichever worker finds the first fault.
#![tactic(auto)]

mod case;
mod fault;
mod gate;
mod jobs;
pub mod laws;
mod limits;
mod long;
mod par;
mod pool;
mod view;
mod worker;

pub use fault::ParFault;
pub use gate::{Gate, Open, Stuck};
pub use limits::MOST_WORKERS;
pub use par::{check_par, verdict_par};
