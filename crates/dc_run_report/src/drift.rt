//! What the page shows of clocks that drift.
ghost use Rattle.std.specs.Prelude.{◌<◌, length};

use dc_build::WrittenTables;
use dc_cert::Certificate;
use dc_drift::{
    declared_sent, declared_source, declared_spacing, oldest, sent_intervals, source_intervals,
    wire_spacing,
};
use dc_page::{Drift, Drifted, LabelDrift, SourceDrift, WireDrift};
use std::alloc::{AllocError, Global};

/// What is shown of wires, streams and labels.
#[derive(Drop)]
pub(crate) struct Shown {
    /// Of the wires of the buses that are not policed.
    pub wires: Vec<WireDrift>,
    /// Of the streams.
    pub sources: Vec<SourceDrift>,
    /// Of the labels.
    pub labels: Vec<LabelDrift>,
}

impl Shown {
    /// The same as the page takes it, of a drift in millionths.
    pub(crate) fn drift(&self, ppm: u16) -> Drift<'_> {
        Drift {
            ppm: u32::from(ppm),
            wires: self.wires.as_slice(),
            sources: self.sources.as_slice(),
            labels: self.labels.as_slice(),
        }
    }
}

/// A number of microseconds beside what is declared.
fn beside(kept: u64, written: u64) -> Drifted {
    Drifted { kept, written }
}

/// What is shown of the wires.
fn wires(alloc: Global, written: &WrittenTables, drift: u16) -> Result<Vec<WireDrift>, AllocError> {
    let tables = written.tables();
    let mut rows = Vec::new(alloc);
    for bus in 0..tables.bus_count() {
        if !tables.bus(bus).police {
            let least = wire_spacing(tables, bus, drift);
            rows.push(WireDrift {
                name: *tables.bus_name(bus),
                spacing: beside(least, declared_spacing(tables, bus)),
            })?;
        }
    }
    Ok(rows)
}

/// What is shown of a stream.
fn source(written: &WrittenTables, stream: usize, drift: u16) -> SourceDrift
    requires { stream < length written.now.tables.streams }
{
    let tables = written.tables();
    let kept = source_intervals(tables, stream, drift);
    let declared = declared_source(written, stream);
    SourceDrift {
        name: *tables.stream_name(stream),
        least: beside(kept.least, declared.least),
        most: beside(kept.most, declared.most),
        jitter: beside(kept.jitter, declared.jitter),
    }
}

/// What is shown of the streams.
fn sources(
    alloc: Global,
    written: &WrittenTables,
    drift: u16,
) -> Result<Vec<SourceDrift>, AllocError> {
    let mut rows = Vec::new(alloc);
    for stream in 0..written.tables().stream_count() {
        rows.push(source(written, stream, drift))?;
    }
    Ok(rows)
}

/// What is shown of a label, with its age where the certificate is accepted.
fn label(
    written: &WrittenTables,
    accepted: Option<&Certificate>,
    label: usize,
    drift: u16,
) -> LabelDrift
    requires { label < length written.now.tables.labels }
{
    let tables = written.tables();
    let kept = sent_intervals(tables, label, drift);
    let declared = declared_sent(written, label);
    let age = match accepted {
        Some(certificate) => match certificate.labels.get(label) {
            Some(row) => Some(oldest(tables, row.age, drift)),
            None => None,
        },
        None => None,
    };
    LabelDrift {
        name: *tables.label_name(label),
        least: beside(kept.least, declared.least),
        most: beside(kept.most, declared.most),
        age,
    }
}

/// What is shown of the labels.
fn labels(
    alloc: Global,
    written: &WrittenTables,
    accepted: Option<&Certificate>,
    drift: u16,
) -> Result<Vec<LabelDrift>, AllocError> {
    let mut rows = Vec::new(alloc);
    for place in 0..written.tables().label_count() {
        rows.push(label(written, accepted, place, drift))?;
    }
    Ok(rows)
}

/// What is shown of a drift, with the ages of the certificate where it is accepted.
///
/// # Errors
/// `AllocError` where memory was refused.
pub(crate) fn rows_shown(
    alloc: Global,
    written: &WrittenTables,
    accepted: Option<&Certificate>,
    drift: u16,
) -> Result<Shown, AllocError> {
    let wires = wires(alloc, written, drift)?;
    let sources = sources(alloc, written, drift)?;
    let labels = labels(alloc, written, accepted, drift)?;
    Ok(Shown {
        wires,
        sources,
        labels,
    })
}
