//! What a clause sees of a seat of a board.

use std::collections::LinkedList;

/// What a seat knows. It stands in contracts alone.
pub struct View {
    /// The most that each word of the board can hold.
    pub caps: LinkedList<u64>,
    /// For each word the greatest mark that the seat has noted, 0 where none.
    pub noted: LinkedList<u64>,
    /// For each word the greatest mark that the seat has seen there, 0 where none.
    pub seen: LinkedList<u64>,
    /// How many steps the seat has made.
    pub steps: u64,
}
