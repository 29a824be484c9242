//! The text of a system: the concentrators of a network, with the files of each, and the links between them; exactly what it
//! says, or its first fault.
#![tactic(auto)]

mod ends;
mod fault;
mod parts;
mod read;
mod rules;

pub use fault::{SystemFault, SystemPart, SystemRule};
pub use parts::{ConcentratorText, End, LinkText, System};
pub use read::{SystemError, read_system};
