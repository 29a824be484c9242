//! What the rows of a document come to in ticks of one length: how streams come, how late their buses may be for the ages
//! of labels, and how far apart sends lie. What is asked of a plan beside the rows, and what stands in its way.
#![tactic(auto)]

mod delays;
mod knobs;
mod numbers;
mod obstacles;
mod paces;
mod sends;

pub use delays::{age_of, limit_all};
pub use knobs::Knobs;
pub use numbers::{part, share_of, up, whole_of};
pub use obstacles::Obstacles;
pub use paces::{Pace, pace_all};
pub use sends::{Sends, are_windows_told, gap_of, sends_of};
