//! The limit of files.

/// The most files that a command opens.
pub const MOST_FILES: usize = 3;
