//! What was seen of a run beside what is certified: a section of the page on a certificate.
#![tactic(auto)]

mod beside;
mod drawing;
mod parts;
mod section;
mod small;

pub use section::seen_section;
