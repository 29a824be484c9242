//! The limits of a search by several threads. All are this project's own numbers.

/// The most workers that judge a certificate, the calling thread among them.
pub const MOST_WORKERS: usize = 64;

/// The longest window that one thread searches, in ticks.
pub(crate) const LONG: u32 = 65_536;

/// How many windows a piece has.
pub(crate) const PIECE: u32 = 2048;

/// How many pieces a thread searches at least.
pub(crate) const LEAST: usize = 6;
