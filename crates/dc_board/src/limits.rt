//! The limits of a board.

/// The most words of a board: this project's own number.
pub const MOST_WORDS: usize = 64;
