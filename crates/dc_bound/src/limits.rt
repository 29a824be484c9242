//! The limits within which bounds and floors are proved. All are this project's own numbers.

/// The greatest span, in ticks, for which a bound or a floor is asked.
pub const LONGEST_SPAN: u32 = 1_000_000;

/// The greatest number of ticks up to which a bound is walked.
pub const LONGEST_WALK: u32 = 100_000;

/// The longest frame of an output and of a [`Cyclic`](crate::Cyclic) bound, in ticks.
pub const LONGEST_FRAME: u32 = 100_000;

/// The longest tick, in microseconds.
pub const LONGEST_TICK: u32 = 10_000;

/// The greatest jitter of a [`Jittered`](crate::Jittered) bound, in ticks.
pub const WIDEST_JITTER: u32 = 1_000_000_000;

/// The most sources of an [`Alike`](crate::Alike) bound.
pub const MOST_ALIKE: u32 = 1024;

/// The most entries in the frame of an output, and offsets of a [`Cyclic`](crate::Cyclic) bound.
pub const MOST_ENTRIES: usize = 1024;

/// The most places of a [`Visits`](crate::Visits) floor.
pub const MOST_PLACES: usize = 256;

/// The most entries that a bound may let come in [`LONGEST_SPAN`] ticks.
pub const GREATEST_CAP: u64 = 1_099_511_627_776;

/// The greatest capacity of a bus's receive queue, in words.
pub const GREATEST_QUEUE: u32 = 4096;
