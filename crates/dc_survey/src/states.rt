//! How streams and wires kept what they declare.

/// How the words of a bus kept the spacing of its wire.
#[derive(Clone, Copy, Debug, PartialEq, Eq)]
pub enum WireState {
    /// Neighbours are at least the spacing apart.
    Kept,
    /// The word of this line is the first that came less than the spacing after the one before it.
    BrokenAt(u64),
    /// The bus is policed: nothing is asked of its wire.
    Policed,
}

/// How the words of a stream kept its minimum, with its jitter.
#[derive(Clone, Copy, Debug, PartialEq, Eq)]
pub enum PaceState {
    /// They kept it.
    Kept,
    /// The word of this line is the first that, with all before it, the declared jitter does not let come.
    EarlyAt(u64),
    /// No word came.
    Silent,
}
