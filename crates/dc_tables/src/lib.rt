//! Valid tables of an ARINC 429 concentrator: buses with their streams, routers, and outputs with their labels.
#![tactic(auto)]

mod alike;
mod bounds;
mod index;
mod made;
mod places;
mod rows;
mod tables;

pub use index::{NameIndex, Names};
pub use made::Rows;
pub use rows::{Bus, Entries, Entry, Numbers, Output, OutputLabel, Router, Stream};
pub use tables::Tables;
