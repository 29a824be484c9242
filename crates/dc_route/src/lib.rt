//! What routers do: they take words off the buses' queues, and keep each stream's latest one; and which word an output
//! label sends then.
#![tactic(auto)]

mod choice;
mod latest;
mod router;

pub use choice::choose;
pub use latest::Latest;
pub use router::Router;
