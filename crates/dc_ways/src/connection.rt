//! Links between concentrators.

/// A link from an output of one concentrator to a bus of another, by their numbers, with its least and greatest latency
/// in microseconds.
#[derive(Clone, Copy, Debug, PartialEq, Eq)]
pub struct Connection {
    /// The concentrator whose output sends.
    pub from: usize,
    /// The concentrator to whose bus the words come.
    pub to: usize,
    /// The output.
    pub output: usize,
    /// The bus.
    pub bus: usize,
    /// The least latency, in microseconds.
    pub least_us: u32,
    /// The greatest latency, in microseconds.
    pub most_us: u32,
}
