//! Numbers in their ranges, lists in their limits.
ghost use Rattle.std.specs.Prelude.{◌≡◌, ◌<◌, length, map, position, IfOk};
ghost use Rattle.dc_rules.specs.Rules.{outside, at_top, counts, breach, earlier, reported, then_reported, at_owner};
ghost use Rattle.dc_rules.specs.Rules.{parameter_out, router_out, output_out, label_out, offsets_out};
ghost use Rattle.dc_rules.specs.Rules.{first_bus_out, first_stream_out, first_router_out, first_output_out, first_label_out};
ghost use Rattle.dc_rules.specs.Rules.{first_count_out, first_visits_out, first_sources_out, first_offsets_out};
ghost use Rattle.dc_rules.specs.Rules.{bus_shapes, stream_shapes, router_shapes, output_shapes, label_shapes, top_shape};
ghost use Rattle.dc_document.specs.Document.{stream_owners};

use crate::breach::{Breach, breach_at, earlier_of, refuse};
use dc_bound::{GREATEST_QUEUE, LONGEST_FRAME, LONGEST_TICK};
use dc_dict::Parameter;
use dc_document::{
    BuildError, BusPart, GREATEST_AGE, GREATEST_JITTER_US, LAST_OFFSET, LONGEST_INTERVAL_US,
    LONGEST_STALE, LONGEST_WITHIN, LabelPart, MOST_BUSES, MOST_MEMBERS, MOST_OFFSETS, MOST_OUTPUTS,
    MOST_PARAMETERS, MOST_ROUTERS, MOST_SOURCES, MOST_STEPS, MOST_VISITS, OutputPart, Parts,
    RouterPart, SHORTEST_TICK, Section, StreamPart, TableRule,
};
use std::alloc::{AllocError, Global};

/// Whether a number is out of its range.
fn is_outside(low: usize, high: usize, number: usize) -> bool
    ensures { result ≡ outside low high number }
{
    number < low || high < number
}

/// The top's index, where this holds.
fn top_if(broken: bool) -> Option<usize>
    ensures { result ≡ at_top broken }
{
    if broken { Some(0) } else { None }
}

/// The owner of each stream.
pub fn stream_owners(alloc: Global, parts: &Parts) -> Result<Vec<usize>, AllocError>
    ensures { IfOk result (λ v. v.items ≡ stream_owners parts.now) }
{
    parts.streams().iter().map(|s| s.bus).collect(alloc)
}

/// How many of the members each of `count` owners has.
pub fn count_members(
    alloc: Global,
    owners: &[usize],
    count: usize,
) -> Result<Vec<usize>, AllocError>
    ensures { IfOk result (λ v. v.items ≡ counts owners.now count) }
{
    let mut all = vec![in alloc; 0; count]?;
    for owner in owners {
        if count <= *owner {
            continue;
        }
        all[*owner] += 1;
    }
    Ok(all)
}

/// The first parameter with a number out of its range.
pub(crate) fn parameter_shape(parameters: &[Parameter]) -> Option<usize>
    ensures { result ≡ position parameter_out parameters.now }
{
    parameters.iter().position(|p| {
        is_outside(1, LONGEST_INTERVAL_US as usize, p.min_us as usize)
            || is_outside(1, LONGEST_INTERVAL_US as usize, p.max_us as usize)
    })
}

/// The first count of members out of its limits.
fn first_count_out(counts: &[usize]) -> Option<usize>
    ensures { result ≡ first_count_out counts.now }
{
    counts.iter().position(|n| is_outside(1, MOST_MEMBERS, *n))
}

/// The first bus with a number out of its range.
fn first_bus_out(buses: &[BusPart]) -> Option<usize>
    ensures { result ≡ first_bus_out buses.now }
{
    buses.iter().position(|b| is_outside(1, GREATEST_QUEUE as usize, b.queue as usize))
}

/// The first bus out of shape; `counts` has the number of streams of each.
pub(crate) fn bus_shape(buses: &[BusPart], counts: &[usize]) -> Option<Breach>
    ensures { result ≡ bus_shapes buses.now counts.now }
{
    let numbers = breach_at(
        TableRule::NumberOutOfRange,
        Section::Bus,
        first_bus_out(buses),
    );
    let lists = breach_at(
        TableRule::CountOutOfRange,
        Section::Bus,
        first_count_out(counts),
    );
    earlier_of(numbers, lists)
}

/// The first stream with a jitter out of its range.
fn first_stream_out(streams: &[StreamPart]) -> Option<usize>
    ensures { result ≡ first_stream_out streams.now }
{
    streams
        .iter()
        .position(|s| s.jitter_us > GREATEST_JITTER_US)
}

/// The first stream out of shape.
pub(crate) fn stream_shape(streams: &[StreamPart]) -> Option<Breach>
    ensures { result ≡ stream_shapes streams.now }
{
    breach_at(
        TableRule::NumberOutOfRange,
        Section::Stream,
        first_stream_out(streams),
    )
}

/// The first router with a number out of its range.
fn first_router_out(routers: &[RouterPart]) -> Option<usize>
    ensures { result ≡ first_router_out routers.now }
{
    routers.iter().position(|r| {
        is_outside(1, MOST_STEPS as usize, r.steps as usize)
            || is_outside(1, LONGEST_WITHIN as usize, r.within as usize)
            || is_outside(1, MOST_STEPS as usize, r.most as usize)
    })
}

/// The first router with too few or too many visits.
fn first_visits_out(routers: &[RouterPart]) -> Option<usize>
    ensures { result ≡ first_visits_out routers.now }
{
    routers
        .iter()
        .position(|r| is_outside(1, MOST_VISITS, r.visits.len()))
}

/// The first router out of shape.
pub(crate) fn router_shape(routers: &[RouterPart]) -> Option<Breach>
    ensures { result ≡ router_shapes routers.now }
{
    let numbers = breach_at(
        TableRule::NumberOutOfRange,
        Section::Router,
        first_router_out(routers),
    );
    let lists = breach_at(
        TableRule::CountOutOfRange,
        Section::Router,
        first_visits_out(routers),
    );
    earlier_of(numbers, lists)
}

/// The first output with a number out of its range.
fn first_output_out(outputs: &[OutputPart]) -> Option<usize>
    ensures { result ≡ first_output_out outputs.now }
{
    outputs.iter().position(|o| {
        is_outside(1, MOST_STEPS as usize, o.steps as usize)
            || is_outside(1, LONGEST_WITHIN as usize, o.within as usize)
            || is_outside(1, LONGEST_FRAME as usize, o.frame as usize)
    })
}

/// The first output out of shape; `counts` has the number of labels of each.
pub(crate) fn output_shape(outputs: &[OutputPart], counts: &[usize]) -> Option<Breach>
    ensures { result ≡ output_shapes outputs.now counts.now }
{
    let numbers = breach_at(
        TableRule::NumberOutOfRange,
        Section::Output,
        first_output_out(outputs),
    );
    let lists = breach_at(
        TableRule::CountOutOfRange,
        Section::Output,
        first_count_out(counts),
    );
    earlier_of(numbers, lists)
}

/// Whether an offset is out of its range.
fn are_offsets_out(offsets: &[u32]) -> bool
    ensures { result ≡ offsets_out offsets.now }
{
    offsets.iter().any(|t| *t > LAST_OFFSET)
}

/// The first label with a number out of its range.
fn first_label_out(labels: &[LabelPart]) -> Option<usize>
    ensures { result ≡ first_label_out labels.now }
{
    labels.iter().position(|x| {
        is_outside(1, LONGEST_STALE as usize, x.stale as usize)
            || is_outside(1, GREATEST_AGE as usize, x.age as usize)
            || are_offsets_out(&x.offsets)
    })
}

/// The first label with no source or too many.
fn first_sources_out(labels: &[LabelPart]) -> Option<usize>
    ensures { result ≡ first_sources_out labels.now }
{
    labels
        .iter()
        .position(|x| is_outside(1, MOST_SOURCES, x.sources.len()))
}

/// The first label with no offset or too many.
fn first_offsets_out(labels: &[LabelPart]) -> Option<usize>
    ensures { result ≡ first_offsets_out labels.now }
{
    labels
        .iter()
        .position(|x| is_outside(1, MOST_OFFSETS, x.offsets.len()))
}

/// The first label out of shape.
pub(crate) fn label_shape(labels: &[LabelPart]) -> Option<Breach>
    ensures { result ≡ label_shapes labels.now }
{
    let sources = breach_at(
        TableRule::CountOutOfRange,
        Section::Label,
        first_sources_out(labels),
    );
    let numbers = breach_at(
        TableRule::NumberOutOfRange,
        Section::Label,
        first_label_out(labels),
    );
    let offsets = breach_at(
        TableRule::CountOutOfRange,
        Section::Label,
        first_offsets_out(labels),
    );
    earlier_of(earlier_of(sources, numbers), offsets)
}

/// The top's numbers and the lengths of its lists.
pub(crate) fn check_top(parts: &Parts) -> Result<(), BuildError>
    ensures { result ≡ top_shape parts.now }
{
    refuse(
        TableRule::NumberOutOfRange,
        Section::Top,
        top_if(is_outside(
            SHORTEST_TICK as usize,
            LONGEST_TICK as usize,
            parts.tick_us() as usize,
        )),
    )?;
    refuse(
        TableRule::CountOutOfRange,
        Section::Top,
        top_if(parts.parameter_count() > MOST_PARAMETERS),
    )?;
    refuse(
        TableRule::CountOutOfRange,
        Section::Top,
        top_if(parts.bus_count() > MOST_BUSES),
    )?;
    refuse(
        TableRule::CountOutOfRange,
        Section::Top,
        top_if(parts.router_count() > MOST_ROUTERS),
    )?;
    refuse(
        TableRule::CountOutOfRange,
        Section::Top,
        top_if(parts.output_count() > MOST_OUTPUTS),
    )
}
