//! The traces and captures of drawn tables.

use crate::shape::Shape;
use crate::text::{Text, mixed};
use std::alloc::Global;

/// The text of a run of so many ticks: the words that come, the steps that the routers owe, one of each output, and the
/// tick.
pub fn trace_of(alloc: Global, shape: &Shape, ticks: u64) -> Text {
    let mut text = Text::new(alloc);
    let crew = shape.crew.max(1);
    for tick in 0..ticks {
        for bus in 0..shape.buses {
            put_arrival(&mut text, shape, tick, bus);
        }
        for router in 0..shape.buses.div_ceil(crew) {
            let buses = shape
                .buses
                .saturating_sub(router.saturating_mul(crew))
                .min(crew);
            for _step in 0..buses.saturating_mul(2) {
                text.put(b"R ");
                shape.router(&mut text, router);
                text.put(b"\n");
            }
        }
        for output in 0..shape.outputs {
            text.put(b"S ");
            shape.output(&mut text, output);
            text.put(b"\n");
        }
        text.put(b"T\n");
    }
    text
}

// Puts the word that a bus brings in a tick, where it brings one.
fn put_arrival(text: &mut Text, shape: &Shape, tick: u64, bus: u64) {
    let turn = turn_of(shape, tick, bus);
    if turn >= shape.streams {
        return;
    }
    text.put(b"A ");
    shape.bus(text, bus);
    text.put(b" ");
    text.word(word_of(shape, tick, bus, turn));
}

// Which stream of a bus has its turn in a tick; none has it where the number is no stream's.
fn turn_of(shape: &Shape, tick: u64, bus: u64) -> u64 {
    tick.wrapping_add(mixed(shape.seed, 400, bus)) % shape.cycle().max(1)
}

// The word of a stream: a value, now and then a failure, and here and there one that no stream declares or whose parity
// is bad.
fn word_of(shape: &Shape, tick: u64, bus: u64, stream: u64) -> u32 {
    let draw = mixed(shape.seed, tick, bus);
    let data = ((draw >> 40) % 0x8_0000) as u32;
    let state: u32 = if draw % 53 == 0 { 0 } else { 3 };
    let label = if draw % 101 == 0 {
        3
    } else {
        (shape.label(shape.parameter(stream)) % 256) as u32
    };
    let sdi = match shape.sdi(stream) {
        None => ((draw >> 20) % 4) as u32,
        Some(sdi) => (sdi % 4) as u32,
    };
    let bits = (label.reverse_bits() >> 24) | (sdi << 8) | (data << 10) | (state << 29);
    let is_odd = bits.count_ones() % 2 == 1;
    if is_odd == (draw % 89 == 0) {
        return bits | 0x8000_0000;
    }
    bits
}

/// The text of a capture of so many milliseconds: the words that come, one after another, with their times in
/// microseconds.
pub fn capture_of(alloc: Global, shape: &Shape, ticks: u64) -> Text {
    let mut text = Text::new(alloc);
    let apart = 900 / shape.buses.max(1);
    for tick in 0..ticks {
        for bus in 0..shape.buses {
            let turn = turn_of(shape, tick, bus);
            if turn < shape.streams {
                let time = tick
                    .saturating_mul(1000)
                    .saturating_add(bus.saturating_mul(apart));
                text.number(time.saturating_add(100_000_000));
                text.put(b" ");
                shape.bus(&mut text, bus);
                text.put(b" ");
                text.word(word_of(shape, tick, bus, turn));
            }
        }
    }
    text
}
