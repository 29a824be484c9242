//! What the program is.

/// The version that `--version` prints.
pub const VERSION: &str = "0.1.0";

/// The sum of the logic that the program was proved by, as `rt version` says it.
pub const LOGIC: &str = "dac8208d650f15bf";
