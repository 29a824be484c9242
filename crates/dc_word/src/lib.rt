//! The ARINC 429 word: 32 bits that hold a label, an SDI, 19 bits of data, an SSM and a parity bit.
#![tactic(auto)]

mod digit;
mod field;
mod format;
mod word;

pub use digit::digit_in;
pub use field::{Label, Sdi};
pub use format::{Format, Status};
pub use word::{DigitPlace, Word};
