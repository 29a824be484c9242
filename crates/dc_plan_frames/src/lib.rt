//! In which ticks of a frame each label of an output is due. Or what stands in the way.
#![tactic(auto)]

mod board;
mod choices;
mod counts;
mod filling;
mod frames;
mod offsets;
mod outputs;
mod planned;
mod whys;
mod windows;

pub use offsets::plan_output;
pub use planned::{Frames, OutputPlan};
