//! What is known of a label.
use dc_cert::Certificate;
use dc_tables::{Entry, Tables};
use dc_transmit::Schedule;

/// A source of a label. All but the numbers are ticks.
#[derive(Clone, Copy)]
pub(crate) struct Source {
    /// Its number among the streams of all buses.
    pub(crate) number: usize,
    /// The number of its bus.
    pub(crate) bus: usize,
    /// The delay that the certificate claims of its bus.
    pub(crate) delay: u64,
    /// The shortest interval between two of its words.
    pub(crate) minimum: u64,
    /// The longest interval between two of its words.
    pub(crate) maximum: u64,
    /// How long it may bring no word to the router.
    pub(crate) silence: u64,
}

/// How a label is sent. All but the numbers are ticks.
#[derive(Clone, Copy)]
pub(crate) struct Sending {
    /// Its number among the labels of all outputs.
    pub(crate) number: usize,
    /// The number of its output.
    pub(crate) output: usize,
    /// The delay that the certificate claims of its output.
    pub(crate) delay: u64,
    /// The least gap between its entries.
    pub(crate) least_gap: u64,
    /// The greatest gap between its entries.
    pub(crate) greatest_gap: u64,
    /// The least interval between two of its words.
    pub(crate) minimum: u64,
    /// The greatest interval between two of its words.
    pub(crate) maximum: u64,
    /// How many entries it has in the frame of its output.
    pub(crate) entries: u64,
    /// That frame.
    pub(crate) frame: u64,
}

/// How old the words of a label may be. All but the number are ticks.
#[derive(Clone, Copy)]
pub(crate) struct Aging {
    /// Its number among the labels of all outputs.
    pub(crate) number: usize,
    /// How long a word is fresh.
    pub(crate) stale: u64,
    /// The age that the certificate claims.
    pub(crate) age: u64,
    /// The limit on it.
    pub(crate) limit: u64,
    /// The source whose bus delays it longest.
    pub(crate) slowest: Source,
    /// The source whose words may lie apart longest when they are routed.
    pub(crate) rarest: Source,
}

/// The stream of this number as a source, where there is one.
fn source_of(tables: &Tables, certificate: &Certificate, stream: usize) -> Option<Source> {
    if stream >= tables.stream_count() {
        return None;
    }
    let bus = tables.bus_of(stream);
    let Some(row) = certificate.inputs.get(bus) else {
        return None;
    };
    let own = tables.stream(stream);
    let (delay, maximum) = (row.delay as u64, own.maximum as u64);
    Some(Source {
        number: stream,
        bus,
        delay,
        minimum: own.minimum as u64,
        maximum,
        silence: delay.saturating_add(maximum),
    })
}

/// The first of some sources that waits longest, and the first whose words may lie apart longest.
fn slowest_and_rarest(
    tables: &Tables,
    certificate: &Certificate,
    streams: &[usize],
) -> Option<(Source, Source)> {
    let mut found: Option<(Source, Source)> = None;
    for stream in streams {
        let Some(own) = source_of(tables, certificate, *stream) else {
            continue;
        };
        let (mut slowest, mut rarest) = found.unwrap_or((own, own));
        if own.delay > slowest.delay {
            slowest = own;
        }
        if own.silence > rarest.silence {
            rarest = own;
        }
        found = Some((slowest, rarest));
    }
    found
}

/// How many entries a label has.
fn entries_of(entries: &[Entry], label: usize) -> u64 {
    let mut count = 0u64;
    for entry in entries {
        if entry.label == label {
            count = count.saturating_add(1);
        }
    }
    count
}

/// How the label of this number is sent, where it is there.
pub(crate) fn sending_of(
    tables: &Tables,
    certificate: &Certificate,
    label: usize,
) -> Option<Sending> {
    if label >= tables.label_count() {
        return None;
    }
    tables.valid();
    let row = tables.label(label);
    let Some(own) = certificate.outputs.get(row.output) else {
        return None;
    };
    let output = tables.output(row.output);
    let entries = entries_of(output.entries.as_slice(), label);
    let schedule = Schedule::of(tables, row.output);
    let (least_gap, greatest_gap) = (schedule.min_gap(label), schedule.max_gap(label));
    Some(Sending {
        number: label,
        output: row.output,
        delay: own.delay as u64,
        least_gap,
        greatest_gap,
        minimum: row.minimum as u64,
        maximum: row.maximum as u64,
        entries,
        frame: output.frame as u64,
    })
}

/// How old the words of the label of this number may be, where it is there.
pub(crate) fn aging_of(tables: &Tables, certificate: &Certificate, label: usize) -> Option<Aging> {
    if label >= tables.label_count() {
        return None;
    }
    let row = tables.label(label);
    let Some(own) = certificate.labels.get(label) else {
        return None;
    };
    let found = slowest_and_rarest(tables, certificate, row.sources.as_slice());
    let Some((slowest, rarest)) = found else {
        return None;
    };
    Some(Aging {
        number: label,
        stale: row.stale as u64,
        age: own.age as u64,
        limit: row.age_limit as u64,
        slowest,
        rarest,
    })
}
