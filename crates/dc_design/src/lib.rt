//! The text of tables for a document, and what is told where there are none.
#![tactic(auto)]

mod bus_lines;
mod drafts;
mod furthest;
mod laid_lines;
mod layouts;
mod output_lines;
mod tables;
mod words;

pub use dc_plan::{Obstacles, Waiting};
pub use drafts::{Unread, Untabled, Wish, draft, ticks_of};
pub use furthest::Furthest;
pub use layouts::{lay_out, set_apart};
