//! The jobs that a user waits for, each on drawn documents no two of which are alike.

use crate::engines::{self, Digest};
use crate::runs::{capture_of, trace_of};
use crate::shape::Shape;
use crate::sheets::Sheets;
use crate::tables::{tables_of, with_windows};
use crate::text::{below, mixed};
use std::alloc::Global;

/// Which job.
#[derive(Clone, Copy, PartialEq, Eq)]
pub enum Job {
    /// `find`, then `check` of the same certificate with long windows, and `margins` of the least one.
    Certify,
    /// The same of outputs with hundreds of entries in a frame.
    Frames,
    /// `replay`, `audit` and `observe` of a run.
    Runs,
    /// `survey` and `trace` of a capture.
    Captures,
    /// `find`, `check` and `report` of large tables whose windows are short.
    Tables,
    /// `design` of two sheets.
    Designs,
}

impl Job {
    /// The job of a word.
    pub fn named(word: &str) -> Option<Job> {
        match word {
            "certify" => Some(Job::Certify),
            "frames" => Some(Job::Frames),
            "runs" => Some(Job::Runs),
            "captures" => Some(Job::Captures),
            "tables" => Some(Job::Tables),
            "designs" => Some(Job::Designs),
            _ => None,
        }
    }

    /// Does the job on one document.
    pub fn carry_out(self, alloc: Global, seed: u64, number: u64, digest: &mut Digest) {
        let drawn = mixed(seed, 1000, number);
        match self {
            Job::Certify => certify(alloc, &certified(drawn, number), drawn, digest),
            Job::Frames => certify(alloc, &framed(drawn, number), drawn, digest),
            Job::Runs => runs(alloc, &flown(drawn, number), digest),
            Job::Captures => captures(alloc, &flown(drawn, number), digest),
            Job::Tables => tables(alloc, &wired(drawn, number), digest),
            Job::Designs => designs(alloc, &drawn_up(drawn, number), digest),
        }
    }
}

// Tables of an aircraft's size whose windows close at once.
fn usual(seed: u64) -> Shape {
    Shape {
        seed,
        buses: 12,
        streams: 24,
        crew: 1,
        outputs: 6,
        labels: 24,
        offsets: 1,
        frame: 40,
        spare: 0,
        jitter: 0,
        has_long_names: false,
    }
}

// Tables whose windows close at once, late, and later still: by a little spare, by a router that visits many buses, and
// with many streams on a bus.
fn certified(seed: u64, number: u64) -> Shape {
    let mut shape = usual(seed);
    shape.jitter = below(seed, 1, number, 4) * 5000;
    match number % 4 {
        0 => {
            shape.buses = 10 + below(seed, 2, number, 4);
        }
        1 => {
            shape.buses = 20;
            shape.streams = 16;
            shape.spare = 2 + below(seed, 3, number, 4);
        }
        2 => {
            shape.buses = 32;
            shape.streams = 12;
            shape.crew = 16;
            shape.spare = 20 + below(seed, 4, number, 20);
        }
        _ => {
            shape.buses = 4;
            shape.streams = 256;
            shape.spare = 10 + below(seed, 5, number, 10);
        }
    }
    shape
}

// Tables of outputs whose frames have hundreds of entries.
fn framed(seed: u64, number: u64) -> Shape {
    let mut shape = usual(seed);
    shape.buses = 2;
    shape.streams = 8;
    shape.outputs = 3;
    shape.labels = 16;
    shape.offsets = [64, 24, 40, 52][(number % 4) as usize];
    let entries = shape.labels.saturating_mul(shape.offsets);
    let spare = entries.saturating_mul(5 + below(seed, 6, number, 10)) / 100;
    shape.frame = entries.saturating_add(spare);
    shape
}

// Tables of runs: of an aircraft's size, of many buses, and of few with many streams.
fn flown(seed: u64, number: u64) -> Shape {
    let mut shape = usual(seed);
    shape.has_long_names = number % 2 == 0;
    match number % 3 {
        0 => {}
        1 => {
            shape.buses = 64;
            shape.streams = 16;
            shape.outputs = 16;
        }
        _ => {
            shape.buses = 4;
            shape.streams = 200 + below(seed, 7, number, 57);
            shape.outputs = 4;
        }
    }
    shape
}

// Tables of many rows.
fn wired(seed: u64, number: u64) -> Shape {
    let mut shape = usual(seed);
    shape.has_long_names = number % 2 == 0;
    if number % 3 == 0 {
        shape.buses = 64;
        shape.streams = 16;
        shape.outputs = 32;
        shape.labels = 32;
    }
    shape
}

// Sheets of an aircraft's size.
fn drawn_up(seed: u64, number: u64) -> Sheets {
    Sheets {
        seed,
        buses: 6 + below(seed, 8, number, 4),
        streams: 20 + below(seed, 9, number, 8),
        outputs: 3 + number % 3,
        labels: 20 + below(seed, 10, number, 8),
    }
}

fn certify(alloc: Global, shape: &Shape, drawn: u64, digest: &mut Digest) {
    let tables = tables_of(alloc, shape);
    let least = engines::find(alloc, &tables, digest);
    let window = 20_001 + 500 * below(drawn, 11, 0, 5);
    let longer = with_windows(alloc, least.as_slice(), window);
    engines::check(alloc, &tables, longer.bytes(), digest);
    engines::margins(alloc, &tables, least.as_slice(), digest);
}

fn runs(alloc: Global, shape: &Shape, digest: &mut Digest) {
    let tables = tables_of(alloc, shape);
    let least = engines::find(alloc, &tables, digest);
    let events = shape.buses.saturating_mul(3).saturating_add(shape.outputs);
    let trace = trace_of(alloc, shape, 240_000 / events.max(1));
    engines::replay(alloc, &tables, &trace, digest);
    engines::audit(alloc, &tables, least.as_slice(), &trace, digest);
    engines::observe(alloc, &tables, least.as_slice(), &trace, digest);
}

fn captures(alloc: Global, shape: &Shape, digest: &mut Digest) {
    let tables = tables_of(alloc, shape);
    let capture = capture_of(alloc, shape, 120_000 / shape.buses.max(1));
    engines::survey(alloc, &tables, &capture, digest);
    engines::trace(alloc, &tables, &capture, digest);
}

fn tables(alloc: Global, shape: &Shape, digest: &mut Digest) {
    let tables = tables_of(alloc, shape);
    let least = engines::find(alloc, &tables, digest);
    engines::check(alloc, &tables, least.as_slice(), digest);
    engines::report(alloc, &tables, least.as_slice(), digest);
}

fn designs(alloc: Global, sheets: &Sheets, digest: &mut Digest) {
    let inputs = sheets.inputs(alloc);
    let outputs = sheets.outputs(alloc);
    engines::design(alloc, &inputs, &outputs, digest);
}
