//! What a drawer knows.

use std::collections::LinkedList;

/// What a drawer knows. It stands in contracts alone.
pub struct View {
    /// The number of jobs.
    pub jobs: u64,
    /// Whether it is the first drawer, which alone splits.
    pub leads: bool,
    /// How many drawers it has split off.
    pub splits: u64,
    /// The numbers that it has drawn, in order.
    pub drawn: LinkedList<u64>,
}
