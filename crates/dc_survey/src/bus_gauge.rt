//! The numbers of a bus.
ghost use Rattle.std.specs.Prelude.{◌≡◌};
ghost use Rattle.dc_survey.specs.Surveys.{no_bus_words};

use dc_gauge::WireGauge;

/// The numbers of a bus's words so far.
#[derive(Clone, Copy, Debug, PartialEq, Eq)]
pub struct BusGauge {
    /// Of its words that are odd and that one of its streams declares.
    pub wire: WireGauge,
    /// How many words were even.
    pub parity: u64,
    /// How many were odd and of no stream of the bus.
    pub undeclared: u64,
}

impl BusGauge {
    /// Of a bus on which no word came.
    pub fn new() -> BusGauge
        ensures { result ≡ no_bus_words }
    {
        BusGauge {
            wire: WireGauge::new(),
            parity: 0,
            undeclared: 0,
        }
    }
}
