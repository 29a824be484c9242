//! A document of tables as it is handed in: its names and parts, what names a parameter, how close words follow one
//! another on a line, and the faults that are reported of it.
#![tactic(auto)]

mod fault;
mod keys;
mod limits;
mod name;
mod parts;
mod ticks;

pub use fault::{BuildError, Section, TableFault, TableRule};
pub use keys::ParameterKey;
pub use limits::{
    GREATEST_AGE, GREATEST_JITTER, GREATEST_JITTER_US, LAST_OFFSET, LONGEST_INTERVAL,
    LONGEST_INTERVAL_US, LONGEST_STALE, LONGEST_WITHIN, MOST_BUSES, MOST_LABELS, MOST_MEMBERS,
    MOST_OFFSETS, MOST_OUTPUTS, MOST_PARAMETERS, MOST_ROUTERS, MOST_SOURCES, MOST_STEPS,
    MOST_STREAMS, MOST_VISITS, NAME_LIMIT, SHORTEST_TICK, TEXT_LIMIT,
};
pub use name::{Name, Named};
pub use parts::{BusPart, LabelPart, OutputPart, Parts, RouterPart, Speed, StreamPart, Version};
pub use ticks::{input_spacing, output_gap};
