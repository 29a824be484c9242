//! The last tick of a run, and the limits within which a schedule is asked. Both are this project's own numbers.

/// The last tick that a run may reach, and up to which due entries are counted.
pub const LAST_TICK: u64 = 1 << 40;

/// The most entries before the one that is next.
pub const MOST_SENT: u64 = 1 << 41;
