//! Why a certificate is refused, and why none is found, as it is told to who wrote them. No program reads it, and no
//! clause speaks of it but that it ends and is safe.
#![tactic(auto)]

mod ages;
mod bounds;
mod gaps;
mod holes;
mod labels;
mod mends;
mod misnamed;
mod names;
mod obstacles;
mod refused;
mod servers;
mod steps;
mod teller;
mod waits;
mod ways;

pub use mends::{Mends, mends_of};
pub use obstacles::explain_find;
pub use refused::{Files, explain_text, explain_verdict};
