//! Trials of the hub: over the small tables by one thread, over tables of 64 buses by many. The program makes a call of
//! each kind, and makes it again where memory was refused.
#![tactic(auto)]

#[cfg(test)]
mod calls;
mod fixture;
#[cfg(test)]
mod plain;
mod refused;
#[cfg(test)]
mod runs;
#[cfg(test)]
mod steps;
#[cfg(test)]
mod threads;

use crate::refused::{board_again, hub_again};
use std::io;

fn main(rt: HostRuntime) -> io::Result<()> {
    board_again(&rt, rt.alloc())?;
    hub_again(&rt, rt.alloc())
}
