//! How often each bus is visited, how many words wait on it and for how long, and which router makes the visits in which
//! order. Or what stands in the way.
#![tactic(auto)]

mod arrivals;
mod budgets;
mod buses;
mod busy;
mod rounds;
mod routers;
mod visits;

pub use buses::plan_buses;
pub use routers::plan_routers;
pub use visits::{Budget, BusPlan, RouterPlan, Visits};
