//! In which units times are told.
use dc_cell::TimeUnit;

/// In which units the times of sheets are told: in those of the titles of their columns.
#[derive(Clone, Copy)]
pub struct Units {
    /// That of the least intervals of inputs.
    pub min: TimeUnit,
    /// That of the greatest intervals of outputs.
    pub max: TimeUnit,
    /// That of the greatest ages of outputs.
    pub max_age: TimeUnit,
    /// That of the timeouts of outputs.
    pub timeout: TimeUnit,
}

impl Units {
    /// All in microseconds.
    pub fn microseconds() -> Units {
        Units {
            min: TimeUnit::Microseconds,
            max: TimeUnit::Microseconds,
            max_age: TimeUnit::Microseconds,
            timeout: TimeUnit::Microseconds,
        }
    }
}
