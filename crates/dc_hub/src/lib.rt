//! The concentrator in threads: a book under one lock, seats of the actors, and a board of marks beside the lock.
#![tactic(auto)]

mod book;
mod charter;
mod closed;
mod closing;
mod entry;
mod fault;
mod hub;
pub mod laws;
mod limits;
mod opening;
mod seat;
mod seats;

pub use book::Book;
pub use charter::Charter;
pub use closed::Closed;
pub use closing::makes;
pub use entry::{Entry, Receipt};
pub use fault::{CloseFault, HubFault, OpenFault};
pub use hub::Hub;
pub use limits::{GREATEST_BACKLOG, LONGEST_TRACE, MOST_ACTORS};
pub use seat::{ClockSeat, OutputSeat, RouterSeat, Seat, Watch, WireSeat};
pub use seats::Seats;
