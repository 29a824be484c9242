//! The numbers of tables for a document and one length of a tick: how often buses are visited, how many words wait, how
//! old data are, in which ticks of a frame each label is due. Or what stands in the way.
#![tactic(auto)]

mod ages;
mod laid;
mod stages;

pub use ages::LabelPlan;
pub use dc_plan_frames::{Frames, OutputPlan};
pub use dc_plan_ticks::{Knobs, Obstacles, Pace, part, up};
pub use dc_plan_visits::{BusPlan, RouterPlan, Visits};
pub use laid::{Waiting, plan_layout};
pub use stages::{Plan, Unplanned, make_plan};
