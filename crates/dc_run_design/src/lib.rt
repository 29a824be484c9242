//! The engine of `design`: from the two sheets of an interface document to tables that are certified as they are written; and that of
//! `layout`, which gives tables frames, offsets and stale times.
#![tactic(auto)]

mod engine;
mod judged;
mod laid;
mod layout;
mod search;
mod sheets;
mod waits;

pub use engine::run_design;
pub use layout::run_layout;
pub use search::Plan;
