//! The rows of a document's lists.
ghost use Rattle.std.specs.Prelude.{All, ◌≡◌, ◌≤◌, ◌<◌, map, length, IfOk};
ghost use Rattle.dc_build.specs.RowsOf.{bus_rows_from, stream_row_of, router_row_of, label_row_of, AreOutputs, AreRows, names_of};
ghost use Rattle.dc_tables.specs.Bounds.{table_rows};
ghost use Rattle.dc_rules.specs.Rules.{entries_from, bus_names, stream_names};
ghost use Rattle.dc_document.specs.Document.{stream_owners};
ghost use Rattle.dc_rules.specs.Passed.{ArePassed};

use crate::assemble::{bus_rows, label_rows, output_rows, router_rows, stream_rows};
use dc_document::Parts;
use dc_rules::{Parameters, Passed, PlacedEntry, stream_owners};
use dc_tables::{Bus, NameIndex, Output, OutputLabel, Router, Rows, Stream};
use std::alloc::{AllocError, Global};

/// The rows of the buses.
pub(crate) fn make_buses(alloc: Global, parts: &Parts) -> Result<Vec<Bus>, AllocError>
    ensures { IfOk result (λ v. v.items ≡ bus_rows_from (stream_owners parts.now) parts.now.routers 0 parts.now.buses) }
{
    let owners = stream_owners(alloc, parts)?;
    bus_rows(alloc, &owners, parts.routers(), parts.buses())
}

/// The rows of the streams.
pub(crate) fn make_streams(
    alloc: Global,
    parts: &Parts,
    parameters: &Parameters,
) -> Result<Vec<Stream>, AllocError>
    requires tick { 1 ≤ parts.now.tick_us }
    requires parameters { parameters.now ≡ parts.now.parameters }
    ensures { IfOk result (λ v. v.items ≡ map (stream_row_of parts.now.tick_us parts.now.parameters) parts.now.streams) }
{
    stream_rows(alloc, parts.tick_us(), parameters, parts.streams())
}

/// The rows of the routers.
pub(crate) fn make_routers(
    alloc: Global,
    parts: &Parts,
    buses: &NameIndex,
) -> Result<Vec<Router>, AllocError>
    requires { buses.now ≡ bus_names parts.now }
    ensures { IfOk result (λ v. v.items ≡ map (router_row_of (bus_names parts.now)) parts.now.routers) }
{
    router_rows(alloc, buses, parts.routers())
}

/// The rows of the outputs.
#[tactic(auto, using(crate::proofs::Split::entries_in_order))]
pub(crate) fn make_outputs(
    alloc: Global,
    parts: &Parts,
    entries: &[PlacedEntry],
) -> Result<Vec<Output>, AllocError>
    requires tick { 1 ≤ parts.now.tick_us }
    requires entries { entries.now ≡ entries_from 0 parts.now.labels }
    ensures { IfOk result (λ v. AreOutputs parts.now.tick_us (entries_from 0 parts.now.labels) parts.now.outputs (length parts.now.outputs) v.items) }
{
    parts.in_order();
    output_rows(alloc, parts.tick_us(), entries, parts.outputs())
}

/// The rows of the labels.
pub(crate) fn make_labels(
    alloc: Global,
    parts: &Parts,
    parameters: &Parameters,
    streams: &NameIndex,
) -> Result<Vec<OutputLabel>, AllocError>
    requires tick { 1 ≤ parts.now.tick_us }
    requires parameters { parameters.now ≡ parts.now.parameters }
    requires streams { streams.now ≡ stream_names parts.now }
    ensures rows { IfOk result (λ v. v.items ≡ map (label_row_of parts.now.tick_us parts.now.parameters (stream_names parts.now)) parts.now.labels) }
    ensures fit { IfOk result (λ v. All (λ r. (r.label < 256) × (r.sdi < 4)) v.items) }
{
    label_rows(alloc, parts.tick_us(), parameters, streams, parts.labels())
}

/// All rows of a document.
pub(crate) fn make_rows(alloc: Global, parts: &Parts, passed: &Passed) -> Result<Rows, AllocError>
    requires tick { 1 ≤ parts.now.tick_us }
    requires passed { ArePassed parts.now passed.now }
    ensures rows { IfOk result (λ r. AreRows parts.now (table_rows parts.now.tick_us (names_of parts.now) r)) }
    ensures fit { IfOk result (λ r. All (λ x. (x.label < 256) × (x.sdi < 4)) r.labels.items) }
{
    let buses = make_buses(alloc, parts)?;
    let streams = make_streams(alloc, parts, &passed.parameters)?;
    let routers = make_routers(alloc, parts, &passed.names.buses)?;
    let outputs = make_outputs(alloc, parts, &passed.entries)?;
    let labels = make_labels(alloc, parts, &passed.parameters, &passed.names.streams)?;
    Ok(Rows {
        buses,
        streams,
        routers,
        outputs,
        labels,
    })
}
