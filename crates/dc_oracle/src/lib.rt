//! The second opinion on a recorded run, beside the machine: whether its actors keep their budgets and its sources what
//! is asked of them, and what should have come out of it. With the machine it shares the definitions, the readers of
//! tables and the calls on words; it keeps a state of its own beside the history.
#![tactic(auto)]

mod arrivals;
mod budgets;
mod bus_log;
mod claim_watch;
mod courses;
mod emissions;
mod life;
mod pace;
mod police;
mod recent;
mod replies;
mod sent_word;
mod sources;
mod steady_run;
mod wire;

pub use arrivals::ArrivalWatch;
pub use budgets::keeps_budgets;
pub use bus_log::BusLog;
pub use claim_watch::claims;
pub use courses::{AuditCourse, BudgetCourse, ClaimCourse, SourceCourse};
pub use police::Police;
pub use replies::{ReplyWatch, answer, outputs};
pub use sources::keeps_sources;
pub use steady_run::steady;
