//! The limits of a hub. All are this project's own numbers.

/// The greatest trace limit of a hub, in entries.
pub const LONGEST_TRACE: usize = 16_777_216;

/// The most actors that tables have: 64 wires, 64 routers, 32 outputs and a clock.
pub const MOST_ACTORS: u64 = 161;

/// The greatest backlog that a reply may tell, which is the greatest capacity of a queue, in words.
pub const GREATEST_BACKLOG: u64 = 4096;
