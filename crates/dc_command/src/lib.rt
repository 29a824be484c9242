//! The command line: what the words of a call ask, read by clap.
#![tactic(auto)]

mod after;
mod asked;
mod explained;
mod identity;
mod inputs;
mod known;
mod limits;

pub use asked::{Asked, Order, command};
pub use explained::When;
pub use identity::{LOGIC, VERSION};
pub use limits::{
    LAST_BEGIN, LONGEST_TICK, MOST_DRIFT, MOST_HEADROOM, MOST_TICKS, MOST_WORKERS, SHORTEST_TICK,
    USUAL_TICKS,
};
