//! The shape of drawn tables: all that their text and their runs have in common, each a number that the seed decides.

use crate::text::{Text, below};

/// The shape of tables. Ticks have 1,000 microseconds.
#[derive(Clone, Copy)]
pub struct Shape {
    /// What decides the numbers that are drawn.
    pub seed: u64,
    /// The number of buses, 1 to 64.
    pub buses: u64,
    /// The number of streams of each bus, 1 to 256.
    pub streams: u64,
    /// How many buses a router visits.
    pub crew: u64,
    /// The number of outputs, 1 to 32.
    pub outputs: u64,
    /// The number of labels of each output.
    pub labels: u64,
    /// The number of offsets of each label.
    pub offsets: u64,
    /// The frame of the outputs in ticks, at least as many as entries.
    pub frame: u64,
    /// How much more than may come a router takes, in thousandths; 0 where it takes more than can come.
    pub spare: u64,
    /// The jitter of streams in microseconds.
    pub jitter: u64,
    /// Whether names have up to sixteen letters.
    pub has_long_names: bool,
}

/// How many parameters inputs have at most: streams beyond them differ by their SDI.
const PARAMETERS: u64 = 64;

impl Shape {
    /// How many parameters the streams have.
    pub fn parameters(&self) -> u64 {
        self.streams.clamp(1, PARAMETERS)
    }

    /// The least interval that parameters have at least, in ticks.
    fn base(&self) -> u64 {
        (self.streams / 2)
            .saturating_add(self.streams / 8)
            .saturating_add(10)
    }

    /// The least interval of a parameter, in ticks.
    pub fn minimum(&self, parameter: u64) -> u64 {
        let base = self.base().max(1);
        base.saturating_add(below(self.seed, 1, parameter, base))
    }

    /// The ticks from a word of a stream to its next one in a run.
    pub fn cycle(&self) -> u64 {
        self.base().saturating_mul(2)
    }

    /// The parameter of a stream of a bus.
    pub fn parameter(&self, stream: u64) -> u64 {
        stream % self.parameters().max(1)
    }

    /// The SDI of a stream of a bus, where it has one.
    pub fn sdi(&self, stream: u64) -> Option<u64> {
        if self.streams <= PARAMETERS {
            return None;
        }
        Some(stream / PARAMETERS % 4)
    }

    /// The label of a parameter, 65 to 255.
    pub fn label(&self, parameter: u64) -> u64 {
        65 + parameter % 190
    }

    /// What the streams of a bus bring in a million ticks without jitter.
    pub fn load(&self) -> u64 {
        let mut load: u64 = 0;
        for stream in 0..self.streams {
            let minimum = self.minimum(self.parameter(stream)).max(1);
            load = load.saturating_add(1_000_000 / minimum);
        }
        load
    }

    /// Puts the name of a bus.
    pub fn bus(&self, text: &mut Text, bus: u64) {
        self.name(text, b"ADIRU-LT-", b"B", bus);
    }

    /// Puts the name of a router.
    pub fn router(&self, text: &mut Text, router: u64) {
        self.name(text, b"COLLECTOR-", b"R", router);
    }

    /// Puts the name of an output.
    pub fn output(&self, text: &mut Text, output: u64) {
        self.name(text, b"DISPLAY-RT-", b"O", output);
    }

    /// Puts the name of a stream of a bus.
    pub fn stream(&self, text: &mut Text, bus: u64, stream: u64) {
        self.bus(text, bus);
        text.put(b"-");
        text.number(stream);
    }

    // Puts a name: its letters and its number.
    fn name(&self, text: &mut Text, long: &[u8], short: &[u8], number: u64) {
        text.put(if self.has_long_names { long } else { short });
        text.number(number);
    }
}
