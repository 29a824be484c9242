//! The certified engine as a library for C: what include/dc429.h declares.
#![tactic(auto)]

mod decoding;
mod exports;
mod fields;
mod finding;
mod handle;
mod laws;
mod lookups;
mod margins;
mod slot;
mod text;

pub use decoding::dc429_decode;
pub use exports::{
    dc429_arrive, dc429_check, dc429_close, dc429_open, dc429_route, dc429_send, dc429_tick,
};
pub use fields::Fields;
pub use finding::dc429_find;
pub use handle::Handle;
pub use laws::opened_engines_answer_their_runs;
pub use lookups::{dc429_name, dc429_number};
pub use margins::{dc429_least_margins, dc429_margins};
pub use slot::{Slot, may_cross};
