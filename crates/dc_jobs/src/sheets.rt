//! The two sheets of drawn interface documents.

use crate::text::{Text, below};
use std::alloc::Global;

/// The shape of an interface document.
#[derive(Clone, Copy)]
pub struct Sheets {
    /// What decides the numbers that are drawn.
    pub seed: u64,
    /// The number of buses.
    pub buses: u64,
    /// The number of streams of each bus.
    pub streams: u64,
    /// The number of outputs.
    pub outputs: u64,
    /// The number of labels of each output.
    pub labels: u64,
}

// The intervals that parameters have, in tenths of a millisecond.
const INTERVALS: [u64; 6] = [313, 400, 500, 625, 1000, 1250];

impl Sheets {
    // The least interval of a stream in tenths of a millisecond: one of its number on each bus.
    fn minimum(&self, stream: u64) -> u64 {
        INTERVALS[below(self.seed, 1, stream, 6) as usize]
    }

    /// The sheet of what comes.
    pub fn inputs(&self, alloc: Global) -> Text {
        let mut text = Text::new(alloc);
        text.put(b"Bus,Speed,Label,Equipment,SDI,Format,Min ms,Max ms,Jitter ms,Parameter\n");
        for bus in 0..self.buses {
            for stream in 0..self.streams {
                let minimum = self.minimum(stream);
                text.field(b"ADC", bus, b",high,");
                text.octal(65 + stream % 190);
                text.put(b",006,any,bnr,");
                put_tenths(&mut text, minimum);
                put_tenths(&mut text, minimum.saturating_mul(2));
                text.field(b",parameter ", stream, b"\n");
            }
        }
        text
    }

    /// The sheet of what leaves.
    pub fn outputs(&self, alloc: Global) -> Text {
        let mut text = Text::new(alloc);
        text.put(b"Output,Speed,Label,Equipment,SDI,Source 1,Source 2,Max age ms,Min ms,Max ms\n");
        for output in 0..self.outputs {
            for label in 0..self.labels {
                self.put_label(&mut text, output, label);
            }
        }
        text
    }

    // Puts the row of a label that leaves.
    fn put_label(&self, text: &mut Text, output: u64, label: u64) {
        let buses = self.buses.max(1);
        let stream = below(
            self.seed,
            output.wrapping_add(10),
            label,
            self.streams.max(1),
        );
        let bus = below(self.seed, output.wrapping_add(50), label, buses);
        let minimum = self.minimum(stream);
        let slow = 400 + 300 * (label % 3);
        text.field(b"PFD", output, b",high,");
        text.octal(65 + label % 190);
        text.field(b",", output.saturating_add(40), b",0,");
        put_source(text, bus, stream);
        put_source(text, bus.wrapping_add(1) % buses, stream);
        put_tenths(
            text,
            minimum
                .saturating_mul(2)
                .saturating_add(500 + below(self.seed, 2, label, 500)),
        );
        put_tenths(text, slow);
        put_tenths(text, slow * 2);
        text.put(b"\n");
    }
}

// Puts the name of a source.
fn put_source(text: &mut Text, bus: u64, stream: u64) {
    text.field(b"ADC", bus, b"-");
    text.octal(65 + stream % 190);
    text.put(b",");
}

// Puts a time of so many tenths of a millisecond.
fn put_tenths(text: &mut Text, tenths: u64) {
    text.number(tenths / 10);
    text.field(b".", tenths % 10, b",");
}
