//! The program: an order is carried out in a world of files and threads.
#![tactic(auto)]

mod carry;
mod crews;
mod designs;
mod digests;
mod disk;
mod engines;
mod limits;
mod memory;
mod opening;
mod optional;
mod status;
mod words;
mod world;

pub use carry::carry_out;
pub use crews::{ByThreads, Started};
pub use disk::Disk;
pub use limits::MOST_FILES;
pub use memory::{MemFile, MemWorld};
pub use status::unasked;
pub use words::run_words;
pub use world::{Crew, NotOpened, World};
