//! The lines that `observe` printed, read back for tables and a certificate.
#![tactic(auto)]

mod bounds;
mod fault;
mod fields;
mod kind;
mod lines;
mod number;
mod rows;
mod seen;

pub use fault::{SeenFault, SeenRule, Unread};
pub use lines::LINE_LIMIT;
pub use rows::{InputNumbers, OutputNumbers};
pub use seen::{Seen, read_seen};
