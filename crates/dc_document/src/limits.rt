//! The limits of a document of tables, and of a text that is read. All are this project's own numbers.

/// The longest text of tables or of a certificate that is read, in bytes.
pub const TEXT_LIMIT: usize = 1_048_576;

/// The longest name, in bytes.
pub const NAME_LIMIT: usize = 16;

/// The shortest tick, in microseconds.
pub const SHORTEST_TICK: u32 = 100;

/// The longest interval of a parameter, in microseconds.
pub const LONGEST_INTERVAL_US: u32 = 60_000_000;

/// The longest interval of a parameter in ticks: as many as the shortest ticks in it.
pub const LONGEST_INTERVAL: u32 = 600_000;

/// The greatest jitter of a stream, in microseconds.
pub const GREATEST_JITTER_US: u32 = 60_000_000;

/// The greatest jitter of a stream in ticks: as many as the shortest ticks in it.
pub const GREATEST_JITTER: u32 = 600_000;

/// The most steps of a router or of an output, within its time or in one tick.
pub const MOST_STEPS: u32 = 1000;

/// The longest time within which a router or an output makes its steps, in ticks.
pub const LONGEST_WITHIN: u32 = 1000;

/// The last offset in a frame, in ticks: one tick before the end of the longest frame.
pub const LAST_OFFSET: u32 = 99_999;

/// The longest time after which a label's word is stale, in ticks.
pub const LONGEST_STALE: u32 = 1_000_000;

/// The greatest age of a label's word, in ticks.
pub const GREATEST_AGE: u32 = 2_000_000;

/// The most parameters.
pub const MOST_PARAMETERS: usize = 2048;

/// The most buses.
pub const MOST_BUSES: usize = 64;

/// The most routers.
pub const MOST_ROUTERS: usize = 64;

/// The most outputs.
pub const MOST_OUTPUTS: usize = 32;

/// The most streams of one bus, and the most labels of one output.
pub const MOST_MEMBERS: usize = 256;

/// The most visits in the round of a router.
pub const MOST_VISITS: usize = 256;

/// The most sources of a label.
pub const MOST_SOURCES: usize = 8;

/// The most offsets of a label.
pub const MOST_OFFSETS: usize = 256;

/// The most streams of all buses.
pub const MOST_STREAMS: usize = 1024;

/// The most labels of all outputs.
pub const MOST_LABELS: usize = 1024;
