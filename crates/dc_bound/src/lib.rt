//! Arrival bounds and service floors with their laws, and the words in which the whole workspace speaks of time,
//! counts and queues.
#![tactic(auto)]

mod alike;
mod arrival;
mod cyclic;
mod jitter;
mod limits;
mod service;
mod terms;
mod under;
mod walk;

pub use alike::Alike;
pub use arrival::{ArrivalBound, Both, Sporadic, SumOf, Wire};
pub use cyclic::Cyclic;
pub use jitter::{Capped, Jittered};
pub use limits::{
    GREATEST_CAP, GREATEST_QUEUE, LONGEST_FRAME, LONGEST_SPAN, LONGEST_TICK, LONGEST_WALK,
    MOST_ALIKE, MOST_ENTRIES, MOST_PLACES, WIDEST_JITTER,
};
pub use service::{Paced, ServiceBound, Visits};
pub use walk::Watcher;
