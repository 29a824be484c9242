//! The texts that `find` and `margins` print, made of texts that are handed in, for a program that calls.
#![tactic(auto)]

mod fault;
mod finding;
mod growing;
mod margins;

pub use fault::NotFound;
pub use finding::find_text;
pub use margins::{MarginsText, least_margins_text, margins_text};
