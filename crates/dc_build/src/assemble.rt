//! The rows of tables that break no rule.
ghost use Rattle.std.specs.Prelude.{All, ◌≡◌, ◌+◌, ◌≤◌, ◌<◌, take, drop, ◌==◌, map, length, IfOk};
ghost use Rattle.dc_build.specs.RowsOf.{bus_row_with, bus_rows_from, stream_row_of, number_in, router_row_of, label_row_of, own_entries, IsFrameOf, IsOutputRow, AreOutputs};
ghost use Rattle.dc_build.specs.Placed.{AreFrom};
ghost use Rattle.std.specs.List.{prefix_len};

use dc_dict::{in_maximum, in_minimum, jitter_ticks, out_maximum, out_minimum};
use dc_document::{
    BusPart, LabelPart, Name, OutputPart, RouterPart, StreamPart, input_spacing, output_gap,
};
use dc_rules::{Parameters, PlacedEntry, count_members, visiting_routers};
use dc_tables::{Bus, Entries, Entry, NameIndex, Numbers, Output, OutputLabel, Router, Stream};
use dc_word::Format;
use std::alloc::{AllocError, Global};

/// The number of a name that is there.
fn number_in(names: &NameIndex, name: &Name) -> usize
    ensures { result ≡ number_in names.now name.now }
{
    names.number_of(name).unwrap_or(0)
}

/// The numbers of names that are there.
fn numbers_of(alloc: Global, names: &NameIndex, wanted: &[Name]) -> Result<Numbers, AllocError>
    ensures { IfOk result (λ n. n ≡ map (number_in names.now) wanted.now) }
{
    let items = wanted.iter().map(|n| number_in(names, n)).collect(alloc)?;
    Ok(Numbers::new(items))
}

/// The row of a bus, given its streams, the first and how many, and its router.
fn bus_row(first: usize, streams: usize, router: usize, part: &BusPart) -> Bus
    ensures { result ≡ bus_row_with first streams router part.now }
{
    Bus {
        queue: part.queue,
        police: part.police,
        spacing: input_spacing(part.speed),
        first,
        streams,
        router,
    }
}

pub(crate) fn bus_rows(
    alloc: Global,
    owners: &[usize],
    routers: &[RouterPart],
    parts: &[BusPart],
) -> Result<Vec<Bus>, AllocError>
    ensures { IfOk result (λ v. v.items ≡ bus_rows_from owners.now routers.now 0 parts.now) }
{
    let counts = count_members(alloc, owners, parts.len())?;
    let visitors = visiting_routers(alloc, routers, parts)?;
    let mut rows = Vec::new(alloc);
    let mut first = 0;
    for (bus, part) in parts.iter().enumerate() {
        let streams = counts[bus];
        let router = visitors[bus];
        rows.push(bus_row(first, streams, router, part))?;
        first += streams;
    }
    Ok(rows)
}

/// The row of a stream, its parameter's interval and its jitter in ticks.
fn stream_row(tick_us: u32, parameters: &Parameters, part: &StreamPart) -> Stream
    requires { 1 ≤ tick_us }
    ensures { result ≡ stream_row_of tick_us parameters.now part.now }
{
    let (format, minimum, maximum) = match parameters.find(part.key()) {
        None => (Format::Bnr, 0, 0),
        Some(p) => (
            p.format,
            in_minimum(p.min_us, tick_us),
            in_maximum(p.max_us, tick_us),
        ),
    };
    Stream {
        bus: part.bus,
        label: part.label,
        sdi: part.sdi,
        format,
        minimum,
        maximum,
        jitter: jitter_ticks(part.jitter_us, tick_us),
    }
}

pub(crate) fn stream_rows(
    alloc: Global,
    tick_us: u32,
    parameters: &Parameters,
    parts: &[StreamPart],
) -> Result<Vec<Stream>, AllocError>
    requires { 1 ≤ tick_us }
    ensures { IfOk result (λ v. v.items ≡ map (stream_row_of tick_us parameters.now) parts.now) }
{
    parts
        .iter()
        .map(|s| stream_row(tick_us, parameters, s))
        .collect(alloc)
}

/// The row of a router, which visits buses by number.
fn router_row(alloc: Global, buses: &NameIndex, part: &RouterPart) -> Result<Router, AllocError>
    ensures { IfOk result (λ r. r ≡ router_row_of buses.now part.now) }
{
    let visits = numbers_of(alloc, buses, &part.visits)?;
    Ok(Router {
        steps: part.steps,
        within: part.within,
        most: part.most,
        visits,
    })
}

pub(crate) fn router_rows(
    alloc: Global,
    buses: &NameIndex,
    parts: &[RouterPart],
) -> Result<Vec<Router>, AllocError>
    ensures { IfOk result (λ v. v.items ≡ map (router_row_of buses.now) parts.now) }
{
    let mut rows = Vec::new(alloc);
    for part in parts {
        rows.push(router_row(alloc, buses, part)?)?;
    }
    Ok(rows)
}

/// The least and greatest interval and the format that the label's parameter leaves to an output.
fn label_row(
    alloc: Global,
    tick_us: u32,
    parameters: &Parameters,
    streams: &NameIndex,
    part: &LabelPart,
) -> Result<OutputLabel, AllocError>
    requires { 1 ≤ tick_us }
    ensures row { IfOk result (λ r. r ≡ label_row_of tick_us parameters.now streams.now part.now) }
    ensures fits { IfOk result (λ r. (r.label < 256) × (r.sdi < 4)) }
{
    let _label = part.label.number();
    let _sdi = part.sdi.number();
    let sources = numbers_of(alloc, streams, &part.sources)?;
    let (format, minimum, maximum) = match parameters.find(part.key()) {
        None => (Format::Bnr, 0, 0),
        Some(p) => (
            p.format,
            out_minimum(p.min_us, tick_us) as u32,
            out_maximum(p.max_us, tick_us),
        ),
    };
    Ok(OutputLabel {
        output: part.output,
        label: part.label,
        sdi: part.sdi,
        format,
        sources,
        stale: part.stale,
        age_limit: part.age,
        minimum,
        maximum,
    })
}

#[tactic(auto, using(crate::proofs::RowsMade::all_push))]
pub(crate) fn label_rows(
    alloc: Global,
    tick_us: u32,
    parameters: &Parameters,
    streams: &NameIndex,
    parts: &[LabelPart],
) -> Result<Vec<OutputLabel>, AllocError>
    requires { 1 ≤ tick_us }
    ensures rows { IfOk result (λ v. v.items ≡ map (label_row_of tick_us parameters.now streams.now) parts.now) }
    ensures fit { IfOk result (λ v. All (λ r. (r.label < 256) × (r.sdi < 4)) v.items) }
{
    let mut rows = Vec::new(alloc);
    for part in parts {
        rows.push(label_row(alloc, tick_us, parameters, streams, part)?)?;
    }
    Ok(rows)
}

/// The entries of an output in the order of the text.
fn own_entries(
    alloc: Global,
    entries: &[PlacedEntry],
    output: usize,
) -> Result<Vec<Entry>, AllocError>
    ensures { IfOk result (λ v. v.items ≡ own_entries entries.now output) }
{
    entries
        .iter()
        .filter(|e| e.output == output)
        .map(|e| Entry {
            offset: e.offset,
            label: e.label,
        })
        .collect(alloc)
}

/// The entries of an output in ascending order of offset.
fn frame_of(alloc: Global, entries: &[PlacedEntry], output: usize) -> Result<Entries, AllocError>
    ensures { IfOk result (λ e. IsFrameOf entries.now output e) }
{
    let mut items = own_entries(alloc, entries, output)?;
    items.sort_unstable_by_key(|e| e.offset);
    Ok(Entries::new(items))
}

/// The row of an output, with the entries of its labels in order of offset.
fn output_row(
    alloc: Global,
    tick_us: u32,
    entries: &[PlacedEntry],
    output: usize,
    part: &OutputPart,
) -> Result<Output, AllocError>
    requires { 1 ≤ tick_us }
    ensures { IfOk result (λ r. IsOutputRow tick_us entries.now output part.now r) }
{
    let entries = frame_of(alloc, entries, output)?;
    Ok(Output {
        steps: part.steps,
        within: part.within,
        gap: output_gap(tick_us, part.speed),
        frame: part.frame,
        entries,
    })
}

/// How many entries of this output come first.
fn leading(entries: &[PlacedEntry], output: usize) -> usize
    ensures { result ≡ prefix_len (λ e. e.output == output) entries.now }
{
    entries.iter().take_while(|e| e.output == output).count()
}

/// The entries of this output, from this entry on.
fn entries_at(entries: &[PlacedEntry], first: usize, output: usize) -> &[PlacedEntry]
    requires { first ≤ length entries.now }
    ensures own { result.now ≡ take (prefix_len (λ e. e.output == output) (drop first entries.now)) (drop first entries.now) }
    ensures inside { first + length result.now ≤ length entries.now }
{
    let rest = &entries[first..];
    let count = leading(rest, output);
    &rest[..count]
}

/// The rows of outputs, whose entries follow one another output by output.
pub(crate) fn output_rows(
    alloc: Global,
    tick_us: u32,
    entries: &[PlacedEntry],
    parts: &[OutputPart],
) -> Result<Vec<Output>, AllocError>
    requires tick { 1 ≤ tick_us }
    requires order { AreFrom 0 entries.now }
    ensures { IfOk result (λ v. AreOutputs tick_us entries.now parts.now (length parts.now) v.items) }
{
    let mut rows = Vec::new(alloc);
    let mut first = 0;
    for (output, part) in parts.iter().enumerate() {
        let own = entries_at(entries, first, output);
        rows.push(output_row(alloc, tick_us, own, output, part)?)?;
        first += own.len();
    }
    Ok(rows)
}
