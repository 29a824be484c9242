//! The engine of `bench`: a certified concentrator is seen running in threads.
#![tactic(auto)]

mod bench;
mod driven;
mod marks;

pub use bench::{Bench, bench_engine, run_bench};
