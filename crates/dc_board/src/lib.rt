//! A board of high-water marks, which threads note and read without waiting.
#![tactic(auto)]

mod limits;
mod marks;
mod view;

pub use limits::MOST_WORDS;
pub use marks::{Board, BoardSeat};
pub use view::View;
