/// What a stream declares of the times of its words, in microseconds.
#[derive(Clone, Copy, Debug, PartialEq, Eq)]
pub struct StreamTiming {
    /// The least interval between two words that are not late, 1 or more.
    pub min_us: u32,
    /// The greatest interval between two words.
    pub max_us: u32,
    /// How late of their rhythm words may come.
    pub jitter_us: u32,
}
