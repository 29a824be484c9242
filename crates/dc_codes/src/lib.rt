//! What each code that the program prints means, with an example and what to do: the one home of these texts.
#![tactic(auto)]

mod code;
mod kind;
mod listed;
mod meaning;
mod texts;

pub use code::Code;
pub use kind::Kind;
pub use listed::all;
pub use meaning::{Meaning, meaning_of};
