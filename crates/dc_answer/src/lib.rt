//! What the engines of the commands do alike: they read tables and certificates from sources, write an answer onto a
//! sink, and end with an exit.
#![tactic(auto)]

mod answer;
mod exit;
mod given;
mod inputs;
mod judge;
mod page;
mod runner;
mod stages;

pub use answer::{Failure, ask, end_at, end_with, print_fault, report};
pub use exit::{Exit, Outcome};
pub use given::{End, Given, With};
pub use inputs::{Unloaded, load, load_certificate, load_written};
pub use judge::{Judge, Tell, Then, Unjudged, unread};
pub use page::Page;
pub use runner::run;
pub use stages::{ReadCertificate, ReadTables, ReadWritten};
