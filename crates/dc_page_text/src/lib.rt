//! What pages are made of: numbers with their thousands and behind a point, amounts, texts whose characters have no meaning in a
//! page, and lengths in drawings.
#![tactic(auto)]

mod amount;
mod escape;
mod html;
pub mod laws;
mod number;
mod shares;

pub use amount::{Amount, Unit};
pub use escape::Escaped;
pub use html::{Hole, Html};
pub use number::{Grouped, Hundredths, Millionths, Tenths, Thousandths};
pub use shares::{round_step, share};
