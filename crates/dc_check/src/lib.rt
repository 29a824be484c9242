//! The verdict on a certificate for an ARINC 429 concentrator, and what an accepted one means for every admissible run.
#![tactic(auto)]

mod certified;
mod fault;
mod fitted;
mod job;
mod judge;
mod labels;
pub mod laws;
mod names;
mod queues;
mod rules;

pub use certified::Certified;
pub use fault::{CertificateList, CheckFault, Condition};
pub use fitted::Fitted;
pub use job::{Job, job_fault, job_fault_given, verdict};
pub use judge::{certify, check};
pub use names::misnamed;
