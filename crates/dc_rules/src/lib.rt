//! The rules that a document of tables must keep: the first one that is broken, and what a document that keeps them is
//! looked up by.
#![tactic(auto)]

mod breach;
mod index;
mod judge;
mod keys;
mod overlaps;
mod passed;
mod quantities;
mod references;
mod schedules;
mod shape;
mod visits;

pub use index::Parameters;
pub use keys::PlacedEntry;
pub use passed::Passed;
pub use shape::{count_members, stream_owners};
pub use visits::visiting_routers;
