//! The limits of a network. All are this project's own numbers.

/// The most concentrators.
pub const MOST_CONCENTRATORS: usize = 64;

/// The most links between them.
pub const MOST_LINKS: usize = 1024;

/// The longest latency of a link, in microseconds.
pub const LONGEST_LATENCY: u32 = 1_000_000;
