//! The limits of the window tests.

/// The longest window, and the longest delay, that a certificate may claim, in ticks: this project's own number.
pub const LONGEST_WINDOW: u32 = 100_000;
