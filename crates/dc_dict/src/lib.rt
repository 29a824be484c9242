//! The dictionary of parameters: which label and equipment code carry which format, how often, and what that is in
//! ticks.
#![tactic(auto)]

mod dictionary;
mod fault;
mod parameter;
mod ticks;

pub use dictionary::Dictionary;
pub use fault::DictFault;
pub use parameter::{EQUIPMENT_CODES, Equipment, Parameter};
pub use ticks::{
    Interval, in_maximum, in_minimum, in_ticks, jitter_ticks, out_maximum, out_minimum, out_ticks,
};
