//! The state machine of the whole concentrator. After every event it stands for its history: each reply is the one that
//! the whole run calls for. It refuses just what breaks a budget, passes [`LAST_TICK`](dc_transmit::LAST_TICK) or names
//! no row of the tables.
#![tactic(auto)]

mod concentrator;
mod fault;
mod machine;
mod start;
mod states;

pub use concentrator::Core;
pub use fault::StepFault;
pub use machine::State;
pub use states::{OutputState, RouterState};
