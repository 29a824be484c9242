//! How near a run came to its bounds, event by event: the most words that waited, the longest waits, the latest entries,
//! the oldest copies and the intervals of labels, in memory by the tables.
#![tactic(auto)]

mod backlogs;
mod labels;
mod lates;
mod nearness;
mod parts;
mod waits;

pub use labels::LabelNumbers;
pub use nearness::Nearness;
