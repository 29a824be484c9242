//! The ranges of the numbers on a command line. The engines have limits of their own: what the program hands them is
//! proved to lie within these.

/// The most workers of a check.
pub const MOST_WORKERS: u8 = 64;

/// The most ticks of a bench.
pub const MOST_TICKS: u16 = 1000;

/// The greatest drift of clocks, in millionths.
pub const MOST_DRIFT: u16 = 1000;

/// The latest time at which tick 0 of a recording may begin, in microseconds: the latest that a capture may have.
pub const LAST_BEGIN: u64 = 9_007_199_254_740_992;

/// The ticks of a bench where none are said.
pub const USUAL_TICKS: u16 = 200;

/// The shortest tick of a design, in microseconds: the shortest that tables may have.
pub const SHORTEST_TICK: u16 = 100;

/// The longest tick of a design, in microseconds: the longest that tables may have.
pub const LONGEST_TICK: u16 = 10_000;

/// The greatest headroom of a design, in percent.
pub const MOST_HEADROOM: u8 = 90;
