//! What is told of a text in TOML or JSON that was refused: which keys there are, what is wanted at each, and what is wrong
//! with its shape. No program reads it, and no clause speaks of it but that it ends and is safe.
#![tactic(auto)]

mod holes;
mod keys;
mod refused;
mod shape;
mod values;
mod wanted;

pub use keys::{Sort, Wanted, keys_of};
pub use refused::{Fact, Refused};
pub use shape::{tell_absent, tell_no_table, tell_unknown, tell_version};
pub use values::{Misfit, number};
pub use wanted::{tell_misfit, tell_wanted};
