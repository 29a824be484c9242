//! Whether the links of a network fit, and how long its words may be under way.
#![tactic(auto)]

mod connection;
mod feeding;
mod fitting;
mod longest;
mod member;
mod row;

pub use connection::Connection;
pub use feeding::feeds;
pub use fitting::{LinkFault, StreamRule, link_fault};
pub use longest::ways;
pub use member::{Member, Refused};
pub use row::Ways;
