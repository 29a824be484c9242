//! The certified engine in one value, for a program that calls it: opened from the texts of tables and of a certificate,
//! stepped by events. What it answers, and why it was not opened, are plain numbers.
#![tactic(auto)]

mod answer;
mod engine;
mod fault;
mod laws;
mod name_list;
mod opening;

pub use answer::{Answer, answer_to};
pub use engine::Engine;
pub use fault::{OpenFault, Report, condition_code};
pub use laws::{answers_are_outputs, claims_hold_for_the_calls, told_apart};
pub use name_list::NameList;
pub use opening::{judge, open, read};
