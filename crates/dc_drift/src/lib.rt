//! What clocks that drift ask of wires and streams, and keep of labels and of ages: whole microseconds, rounded to the
//! safe side. A document's own numbers stand beside them.
#![tactic(auto)]

mod declared;
mod intervals;
pub mod laws;
mod rounding;

pub use declared::{declared_sent, declared_source, declared_spacing};
pub use intervals::{
    SentIntervals, SourceIntervals, oldest, sent_intervals, source_intervals, wire_spacing,
};
