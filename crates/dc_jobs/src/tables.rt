//! The texts of drawn tables, and certificates with longer windows.

use crate::shape::Shape;
use crate::text::{Text, below, mixed};
use std::alloc::Global;

/// The text of tables of a shape.
pub fn tables_of(alloc: Global, shape: &Shape) -> Text {
    let mut text = Text::new(alloc);
    text.put(b"version = 2\ntick_us = 1000\n");
    put_parameters(&mut text, shape);
    for bus in 0..shape.buses {
        put_bus(&mut text, shape, bus);
    }
    put_routers(&mut text, shape);
    for output in 0..shape.outputs {
        put_output(&mut text, shape, output);
    }
    text
}

// Puts the parameters: those of streams, and those of labels, which leave at their output's rhythm.
fn put_parameters(text: &mut Text, shape: &Shape) {
    for parameter in 0..shape.parameters() {
        let minimum = shape.minimum(parameter);
        put_parameter(text, shape.label(parameter), b"001");
        put_interval(text, minimum, minimum.saturating_mul(4));
    }
    let gap = shape.frame / shape.offsets.max(1);
    for label in 0..shape.labels {
        put_parameter(text, shape.label(label), b"002");
        put_interval(text, (gap / 2).max(1), gap.saturating_mul(2));
    }
}

// Puts the head of a parameter.
fn put_parameter(text: &mut Text, label: u64, equipment: &[u8]) {
    text.put(b"[[parameter]]\nlabel = \"");
    text.octal(label);
    text.put(b"\"\nequipment = \"");
    text.put(equipment);
    text.put(b"\"\nformat = \"bnr\"\n");
}

// Puts the interval of a parameter, in ticks.
fn put_interval(text: &mut Text, least: u64, most: u64) {
    text.field(b"min_us = ", least.saturating_mul(1000), b"\n");
    text.field(b"max_us = ", most.saturating_mul(1000), b"\n");
}

// Puts a bus and its streams.
fn put_bus(text: &mut Text, shape: &Shape, bus: u64) {
    text.put(b"[[bus]]\nname = \"");
    shape.bus(text, bus);
    text.put(b"\"\nspeed = \"high\"\nqueue = 4096\npolice = ");
    text.put(if bus % 4 == 3 { b"true\n" } else { b"false\n" });
    for stream in 0..shape.streams {
        text.put(b"[[bus.stream]]\nname = \"");
        shape.stream(text, bus, stream);
        text.put(b"\"\nlabel = \"");
        text.octal(shape.label(shape.parameter(stream)));
        text.put(b"\"\nequipment = \"001\"\nsdi = ");
        put_sdi(text, shape.sdi(stream));
        text.field(b"jitter_us = ", shape.jitter, b"\n");
    }
}

// Puts the SDI of a stream.
fn put_sdi(text: &mut Text, sdi: Option<u64>) {
    match sdi {
        None => text.put(b"\"any\"\n"),
        Some(sdi) => text.field(b"", sdi, b"\n"),
    }
}

// Puts the routers, each of which visits as many buses, the last one the rest.
fn put_routers(text: &mut Text, shape: &Shape) {
    let crew = shape.crew.max(1);
    let load = shape.load();
    for router in 0..shape.buses.div_ceil(crew) {
        let first = router.saturating_mul(crew);
        let last = first.saturating_add(crew).min(shape.buses);
        text.put(b"[[router]]\nname = \"");
        shape.router(text, router);
        text.put(b"\"\n");
        put_pace(text, shape, load, last.saturating_sub(first));
        text.put(b"visits = [");
        for bus in first..last {
            text.put(if bus == first { b"\"" } else { b", \"" });
            shape.bus(text, bus);
            text.put(b"\"");
        }
        text.put(b"]\n");
    }
}

// Puts the pace of a router that visits so many buses: twice in each tick, or a little more often than words come.
fn put_pace(text: &mut Text, shape: &Shape, load: u64, buses: u64) {
    if shape.spare == 0 {
        let steps = buses.saturating_mul(2);
        text.field(b"steps = ", steps, b"\nwithin = 1\n");
        text.field(b"most = ", steps, b"\n");
        return;
    }
    let within = 1000 / buses.saturating_mul(2).max(1);
    let each = load.saturating_mul(shape.spare.saturating_add(1000)) / 1000;
    let steps = each.saturating_mul(buses).saturating_mul(within) / 1_000_000;
    let steps = steps.saturating_add(buses);
    text.field(b"steps = ", steps.min(1000), b"\n");
    text.field(b"within = ", within, b"\n");
    text.field(b"most = ", steps.min(1000), b"\n");
}

// Puts an output and its labels.
fn put_output(text: &mut Text, shape: &Shape, output: u64) {
    text.put(b"[[output]]\nname = \"");
    shape.output(text, output);
    text.put(b"\"\nspeed = \"high\"\nsteps = 1\nwithin = 1\n");
    text.field(b"frame = ", shape.frame, b"\n");
    for label in 0..shape.labels {
        text.field(b"[[output.label]]\nname = \"x", output, b"-");
        text.field(b"", label, b"\"\nlabel = \"");
        text.octal(shape.label(label));
        text.put(b"\"\nequipment = \"002\"\nsdi = 0\nsources = [");
        put_sources(text, shape, output, label);
        text.put(b"]\nstale = 10000\nage = 200000\noffsets = [");
        put_offsets(text, shape, output, label);
        text.put(b"]\n");
    }
}

// Puts the sources of a label: up to three streams of one number, of buses that follow one another.
fn put_sources(text: &mut Text, shape: &Shape, output: u64, label: u64) {
    let stream = below(
        shape.seed,
        output.wrapping_add(100),
        label,
        shape.streams.max(1),
    );
    for source in 0..1 + label % 3 {
        if source < shape.buses {
            put_comma(text, source);
            text.put(b"\"");
            shape.stream(text, source_bus(shape, output, label, source), stream);
            text.put(b"\"");
        }
    }
}

// Puts what stands before an item of a list.
fn put_comma(text: &mut Text, place: u64) {
    if place > 0 {
        text.put(b", ");
    }
}

// The bus of a source of a label.
fn source_bus(shape: &Shape, output: u64, label: u64, source: u64) -> u64 {
    mixed(shape.seed, output.wrapping_add(200), label).wrapping_add(source) % shape.buses.max(1)
}

// Puts the offsets of a label: the labels of an output take their places in turn, each somewhere in its stretch.
fn put_offsets(text: &mut Text, shape: &Shape, output: u64, label: u64) {
    for place in 0..shape.offsets {
        put_comma(text, place);
        let number = place.saturating_mul(shape.labels).saturating_add(label);
        text.number(offset_of(shape, output, number));
    }
}

// The offset of an entry of an output.
fn offset_of(shape: &Shape, output: u64, number: u64) -> u64 {
    let entries = shape.labels.saturating_mul(shape.offsets).max(1);
    let stretch = (shape.frame / entries).max(1);
    let from = number.saturating_mul(shape.frame) / entries;
    from.saturating_add(below(shape.seed, output.wrapping_add(300), number, stretch))
}

/// The text of a certificate with its windows of so many ticks.
pub fn with_windows(alloc: Global, certificate: &[u8], window: u64) -> Text {
    let mut text = Text::new(alloc);
    let mut is_window = false;
    for at in 0..certificate.len() {
        let is_digit = certificate[at].is_ascii_digit();
        if is_window && is_digit {
            continue;
        }
        is_window = false;
        text.put(&certificate[at..at + 1]);
        if certificate[at] == b':' && certificate[..at].ends_with(b"\"window\"") {
            text.number(window);
            is_window = true;
        }
    }
    text
}
