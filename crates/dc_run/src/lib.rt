//! The engines of the commands of dc429: each reads sources, writes to one sink and answers what it ends with.
#![tactic(auto)]

mod check;
mod claims;
mod decode;
mod find;
mod limits;
mod obstacles;
mod par;
mod printer;
mod replay;
mod replies;
mod sharing;
mod stages;
mod steps;

pub use check::{CHECK, Check, judge, run_check};
pub use claims::append_claims;
pub use decode::run_decode;
pub use find::{FIND, Find, run_find, tell_obstacle};
pub use limits::{LONG_TRACE_LIMIT, limit_of};
pub use par::{Workers, run_check_par, workers_engine};
pub use replay::run_replay;
pub use sharing::{JudgeShared, Shared};
pub use stages::{OnlyAccepted, tell_fault};
