//! The rules on formats, entries and budgets.
ghost use Rattle.std.specs.Prelude.{◌≡◌, ◌≤◌, ◌++◌, nat_le, IfOk, OnOk, map};
ghost use Rattle.std.specs.List.{list_any};
ghost use Rattle.dc_rules.specs.Rules.{format_number, same_format, source_parameter, differs, first_different, frame_of, first_late};
ghost use Rattle.dc_rules.specs.Rules.{label_entries, entries_from, offset_of, label_id, first_unable_router, first_unable_output};

use crate::index::Parameters;
use crate::keys::{LabelKey, PlacedEntry, PlacedOffset};
use dc_dict::Parameter;
use dc_document::{LabelPart, Name, OutputPart, RouterPart, StreamPart, output_gap};
use dc_tables::NameIndex;
use dc_word::Format;
use std::alloc::{AllocError, Global};

/// A number for each format.
fn format_number(format: Format) -> u8
    ensures { result ≡ format_number format }
{
    match format {
        Format::Bnr => 0,
        Format::Bcd => 1,
        Format::Disc => 2,
    }
}

/// Whether both parameters are there and have one format.
fn have_one_format(a: Option<Parameter>, b: Option<Parameter>) -> bool
    ensures { result ≡ same_format a b }
{
    match (a, b) {
        (None, _) => false,
        (Some(_), None) => false,
        (Some(p), Some(q)) => format_number(p.format) == format_number(q.format),
    }
}

/// The parameter of the stream of this name.
fn source_parameter(
    parameters: &Parameters,
    streams: &[StreamPart],
    names: &NameIndex,
    name: &Name,
) -> Option<Parameter>
    ensures { result ≡ source_parameter parameters.now streams.now names.now name.now }
{
    let number = names.number_of(name)?;
    let stream = streams.get(number)?;
    parameters.find(stream.key())
}

/// Whether a source's format is not the label's.
fn does_differ(
    parameters: &Parameters,
    streams: &[StreamPart],
    names: &NameIndex,
    label: &LabelPart,
) -> bool
    ensures { result ≡ differs parameters.now streams.now names.now label.now }
{
    let own = parameters.find(label.key());
    label.sources.iter().any(|n| !have_one_format(
        own,
        source_parameter(parameters, streams, names, n),
    ))
}

/// The first label with a source of another format.
pub(crate) fn first_different(
    parameters: &Parameters,
    streams: &[StreamPart],
    names: &NameIndex,
    labels: &[LabelPart],
) -> Option<usize>
    ensures { result ≡ first_different parameters.now streams.now names.now labels.now }
{
    labels
        .iter()
        .position(|x| does_differ(parameters, streams, names, x))
}

/// The frame of the output of this number.
fn frame_of(outputs: &[OutputPart], output: usize) -> u32
    ensures { result ≡ frame_of outputs.now output }
{
    outputs.get(output).map_or(0, |o| o.frame)
}

/// Whether an offset is not below this frame.
fn reaches(offsets: &[u32], frame: u32) -> bool
    ensures { result ≡ list_any (nat_le frame) offsets.now }
{
    offsets.iter().any(|t| frame <= *t)
}

/// The first label with an offset that is not below the frame.
pub(crate) fn first_late(outputs: &[OutputPart], labels: &[LabelPart]) -> Option<usize>
    ensures { result ≡ first_late outputs.now labels.now }
{
    labels
        .iter()
        .position(|x| reaches(&x.offsets, frame_of(outputs, x.output)))
}

/// Adds the entries of a label after the others.
fn push_entries(
    all: &mut Vec<PlacedEntry>,
    number: usize,
    label: &LabelPart,
) -> Result<(), AllocError>
    ensures { OnOk result (all.new.items ≡ all.old.items ++ label_entries number label.now) }
{
    for offset in &label.offsets {
        all.push(PlacedEntry {
            output: label.output,
            offset: *offset,
            label: number,
        })?;
    }
    Ok(())
}

/// The entries of all outputs in the order of the text.
#[tactic(auto, using(crate::proofs::Doubled::entries_step))]
pub(crate) fn place_entries(
    alloc: Global,
    labels: &[LabelPart],
) -> Result<Vec<PlacedEntry>, AllocError>
    ensures { IfOk result (λ v. v.items ≡ entries_from 0 labels.now) }
{
    let mut all = Vec::new(alloc);
    for (number, label) in labels.iter().enumerate() {
        push_entries(&mut all, number, label)?;
    }
    Ok(all)
}

/// What must differ between entries.
pub(crate) fn offset_keys(
    alloc: Global,
    entries: &[PlacedEntry],
) -> Result<Vec<PlacedOffset>, AllocError>
    ensures { IfOk result (λ v. v.items ≡ map offset_of entries.now) }
{
    entries
        .iter()
        .map(|e| PlacedOffset {
            output: e.output,
            offset: e.offset,
        })
        .collect(alloc)
}

/// What must differ between labels.
pub(crate) fn label_keys(alloc: Global, labels: &[LabelPart]) -> Result<Vec<LabelKey>, AllocError>
    ensures { IfOk result (λ v. v.items ≡ map label_id labels.now) }
{
    labels
        .iter()
        .map(|x| LabelKey {
            output: x.output,
            label: x.label,
            sdi: x.sdi,
        })
        .collect(alloc)
}

/// The first router that may not make its steps.
pub(crate) fn first_unable_router(routers: &[RouterPart]) -> Option<usize>
    ensures { result ≡ first_unable_router routers.now }
{
    routers.iter().position(|r| u64::from(r.most) * u64::from(r.within) < u64::from(r.steps))
}

/// The first output whose sends do not fit between its gaps.
pub(crate) fn first_unable_output(tick_us: u32, outputs: &[OutputPart]) -> Option<usize>
    requires { 1 ≤ tick_us }
    ensures { result ≡ first_unable_output tick_us outputs.now }
{
    outputs.iter().position(|o| u64::from(o.within)
        < u64::from(o.steps) * u64::from(output_gap(tick_us, o.speed)))
}
