//! So many of a unit.

ghost use Rattle.std.specs.Prelude.{◌≡◌, Some};
ghost use Rattle.dc_page_text.specs.Text.{amount_text, unit_word};

use crate::number::Grouped;
use std::fmt;

/// What is counted.
#[derive(Clone, Copy)]
pub enum Unit {
    Ticks,
    Words,
    Entries,
    Inputs,
    Outputs,
    Labels,
    Concentrators,
    Links,
    Buses,
    Streams,
    Routers,
}

impl Unit {
    /// What so many are called.
    fn word(self, count: u64) -> &'static str
        ensures { result.now ≡ unit_word self count }
    {
        match (self, count == 1) {
            (Unit::Ticks, true) => "tick",
            (Unit::Ticks, false) => "ticks",
            (Unit::Words, true) => "word",
            (Unit::Words, false) => "words",
            (Unit::Entries, true) => "entry",
            (Unit::Entries, false) => "entries",
            (Unit::Inputs, true) => "input",
            (Unit::Inputs, false) => "inputs",
            (Unit::Outputs, true) => "output",
            (Unit::Outputs, false) => "outputs",
            (Unit::Labels, true) => "label",
            (Unit::Labels, false) => "labels",
            (Unit::Concentrators, true) => "concentrator",
            (Unit::Concentrators, false) => "concentrators",
            (Unit::Links, true) => "link",
            (Unit::Links, false) => "links",
            (Unit::Buses, true) => "bus",
            (Unit::Buses, false) => "buses",
            (Unit::Streams, true) => "stream",
            (Unit::Streams, false) => "streams",
            (Unit::Routers, true) => "router",
            (Unit::Routers, false) => "routers",
        }
    }

    /// So many of it.
    pub fn times(self, count: usize) -> Amount
        ensures { result ≡ record { count = count; unit = self } }
    {
        Amount {
            count: count as u64,
            unit: self,
        }
    }
}

/// So many of a unit, as `1 tick` or `1,000 words`.
#[derive(Clone, Copy)]
pub struct Amount {
    /// How many.
    pub count: u64,
    /// Of what.
    pub unit: Unit,
}

impl fmt::Display for Amount {
    ghost output = { λ x. Some (amount_text x) };

    fn fmt<W: fmt::Write>(&self, f: &mut fmt::Formatter<W>) -> fmt::Result {
        let count = Grouped(self.count);
        let word = self.unit.word(self.count);
        write!(f, "{count} {word}")
    }
}
