//! What a person is told on standard error of what ended a run: the thing itself, where it stands, and what to do. It is
//! made of what was kept of the texts that were judged, behind the answer, and no clause speaks of it but that it ends
//! and is safe.
#![tactic(auto)]

mod again;
mod audits;
mod capture;
mod designed;
mod devices;
mod ends;
mod faults;
mod fits;
mod judged;
mod lines;
mod links;
mod members;
mod network;
mod observed;
mod output;
mod plain;
mod ran;
mod rings;
mod sources;
mod steps;
mod system_rules;
mod systems;
mod task;
mod trace;
mod words;

pub use again::Again;
pub use ran::explain_end;
