//! The engine of `report`: the page on a certificate, with what was observed of a run beside it or without, on the least one,
//! or on what was found where none is accepted.
#![tactic(auto)]

mod beside;
mod drift;
mod given;
mod identity;
mod least;
mod line;
mod observed;
mod pages;
mod sought;

pub use beside::{ReportObserved, run_report_observed};
pub use given::{Report, run_report, run_report_of};
pub use identity::{PageOf, Shown, TextOf};
pub use least::{ReportLeast, run_report_least, run_report_least_of};
