//! The limits of a script. All are this project's own numbers.

/// The longest script, in ticks.
pub const LONGEST_SCRIPT: u64 = 1000;

/// After so many ticks the data of a bench's words come again.
pub const DATA_VALUES: u64 = 1024;
