//! Trials of the check by several threads, and of hubs that are driven, over small tables and over tables of 64 buses. The program drives a hub, and another one where memory was refused to the first.
#![tactic(auto)]

#[cfg(test)]
mod beside;
#[cfg(test)]
mod drives;
mod fixture;
#[cfg(test)]
mod gates;
mod refused;
#[cfg(test)]
mod scripts;

use crate::refused::run_again;
use std::io;

fn main(rt: HostRuntime) -> io::Result<()> {
    run_again(&rt, rt.alloc())
}
