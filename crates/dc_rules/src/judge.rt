//! The rules in their order.
ghost use Rattle.std.specs.Prelude.{Ok, None, ◌≡◌, ◌≤◌, map, length, IfOk, option_map, option_and_then, slice_get};
ghost use Rattle.dc_rules.specs.Rules.{Tells, first_rules, later_rules, quantities, reported, then_reported, shape, totals, counts, doubled, doubled_name, overlap as overlap_of, first_unserved as unserved_bus};
ghost use Rattle.dc_document.specs.Keys.{same_parameter, parameter_key};
ghost use Rattle.dc_rules.specs.Rules.{first_inverted, first_quick, first_narrow, first_unknown_stream, first_unknown_label};
ghost use Rattle.dc_rules.specs.Rules.{bus_names, stream_names, router_names, output_names, label_names, names, references, schedules, entries_from};
ghost use Rattle.dc_rules.specs.Passed.{ArePassed};
ghost use Rattle.dc_rules.specs.Rules.{earlier, at_owner, breach_reported, first_overfull, entry_owners, first_doubled_offset, first_doubled_label};
ghost use Rattle.dc_document.specs.Document.{stream_owners, label_owners};
ghost use Rattle.dc_document.specs.declared.limits.TheConstants.{MOST_LABELS, MOST_STREAMS};

use crate::breach::{Breach, earlier_of, refuse, refuse_breach};
use crate::index::{Parameters, distinct, first_doubled_parameter, index_of};
use crate::keys::PlacedEntry;
use crate::overlaps::first_overlap;
use crate::passed::Passed;
use crate::quantities::{
    first_inverted, first_narrow, first_quick, first_unknown_label, first_unknown_stream,
};
use crate::references::{
    first_doubled_source, first_lost_label, first_lost_router, first_unserved,
};
use crate::schedules::{
    first_different, first_late, first_unable_output, first_unable_router, label_keys, offset_keys,
    place_entries,
};
use crate::shape::{
    bus_shape, check_top, count_members, label_shape, output_shape, parameter_shape, router_shape,
    stream_owners, stream_shape,
};
use dc_bound::MOST_ENTRIES;
use dc_document::{
    BuildError, LabelPart, MOST_LABELS, MOST_STREAMS, Parts, Section, StreamPart, TableRule,
};
use dc_tables::{NameIndex, Names};
use std::alloc::{AllocError, Global};

/// The owner of each label.
fn label_owners(alloc: Global, parts: &Parts) -> Result<Vec<usize>, AllocError>
    ensures { IfOk result (λ v. v.items ≡ label_owners parts.now) }
{
    parts.labels().iter().map(|x| x.output).collect(alloc)
}

/// The output of each entry.
fn entry_owners(alloc: Global, entries: &[PlacedEntry]) -> Result<Vec<usize>, AllocError>
    ensures { IfOk result (λ v. v.items ≡ map (λ e. e.output) entries.now) }
{
    entries.iter().map(|e| e.output).collect(alloc)
}

/// The breach of a member at the place of its owner.
fn at_owner(owners: &[usize], found: Option<Breach>) -> Option<Breach>
    ensures { result ≡ at_owner owners.now found }
{
    let breach = found?;
    Some(Breach {
        place: owners.get(breach.place).copied().unwrap_or(0),
        fault: breach.fault,
    })
}

/// A document beside the owner of each of its members, and how many members each owner has.
#[derive(Drop)]
struct Counted<'a> {
    parts: &'a Parts,
    buses_of_streams: Vec<usize>,
    streams_of_buses: Vec<usize>,
    outputs_of_labels: Vec<usize>,
    labels_of_outputs: Vec<usize>,
    ghost streams: { buses_of_streams.items ≡ stream_owners parts.now },
    ghost stream_counts: { streams_of_buses.items ≡ counts (stream_owners parts.now) (length parts.now.buses) },
    ghost labels: { outputs_of_labels.items ≡ label_owners parts.now },
    ghost label_counts: { labels_of_outputs.items ≡ counts (label_owners parts.now) (length parts.now.outputs) },
}

impl<'a> Counted<'a> {
    /// The document with its members counted.
    fn of(alloc: Global, parts: &'a Parts) -> Result<Counted<'a>, AllocError>
        ensures { IfOk result (λ c. c.parts.now ≡ parts.now) }
    {
        let buses_of_streams = stream_owners(alloc, parts)?;
        let streams_of_buses = count_members(alloc, &buses_of_streams, parts.bus_count())?;
        let outputs_of_labels = label_owners(alloc, parts)?;
        let labels_of_outputs = count_members(alloc, &outputs_of_labels, parts.output_count())?;
        Ok(Counted {
            parts,
            buses_of_streams,
            streams_of_buses,
            outputs_of_labels,
            labels_of_outputs,
        })
    }

    /// Numbers in their ranges, lists in their limits.
    fn check_shape(&self) -> Result<(), BuildError>
        ensures { result ≡ shape self.now.parts.now }
    {
        let parts = self.parts;
        check_top(parts)?;
        refuse(
            TableRule::NumberOutOfRange,
            Section::Parameter,
            parameter_shape(parts.parameters()),
        )?;
        let bus = bus_shape(parts.buses(), &self.streams_of_buses);
        let stream = at_owner(&self.buses_of_streams, stream_shape(parts.streams()));
        refuse_breach(earlier_of(bus, stream))?;
        refuse_breach(router_shape(parts.routers()))?;
        let output = output_shape(parts.outputs(), &self.labels_of_outputs);
        let label = at_owner(&self.outputs_of_labels, label_shape(parts.labels()));
        refuse_breach(earlier_of(output, label))
    }
}

/// Numbers in their ranges, lists in their limits.
fn check_shape(alloc: Global, parts: &Parts) -> Result<(), BuildError>
    ensures { Tells (shape parts.now) result }
{
    let counted = Counted::of(alloc, parts).map_err(BuildError::Memory)?;
    counted.check_shape()
}

/// The entries of all outputs in the order of the text.
pub(crate) fn place_all(alloc: Global, parts: &Parts) -> Result<Vec<PlacedEntry>, AllocError>
    ensures { IfOk result (λ v. v.items ≡ entries_from 0 parts.now.labels) }
{
    place_entries(alloc, parts.labels())
}

/// Totals over the tables.
fn check_totals(alloc: Global, parts: &Parts, entries: &[PlacedEntry]) -> Result<(), BuildError>
    requires { entries.now ≡ entries_from 0 parts.now.labels }
    ensures { Tells (totals parts.now) result }
{
    let owners = entry_owners(alloc, entries).map_err(BuildError::Memory)?;
    let counted = count_members(alloc, &owners, parts.output_count()).map_err(BuildError::Memory)?;
    refuse(
        TableRule::CountOutOfRange,
        Section::Bus,
        bus_past(parts.streams()),
    )?;
    refuse(
        TableRule::CountOutOfRange,
        Section::Output,
        output_past(parts.labels()),
    )?;
    refuse(
        TableRule::CountOutOfRange,
        Section::Output,
        first_overfull(&counted),
    )
}

/// The bus by which the total of streams is passed.
fn bus_past(streams: &[StreamPart]) -> Option<usize>
    ensures { result ≡ option_map (λ s. s.bus) (slice_get streams.now MOST_STREAMS) }
{
    let stream = streams.get(MOST_STREAMS)?;
    Some(stream.bus)
}

/// The output by which the total of labels is passed.
fn output_past(labels: &[LabelPart]) -> Option<usize>
    ensures { result ≡ option_map (λ x. x.output) (slice_get labels.now MOST_LABELS) }
{
    let label = labels.get(MOST_LABELS)?;
    Some(label.output)
}

/// The first output with too many entries.
fn first_overfull(counts: &[usize]) -> Option<usize>
    ensures { result ≡ first_overfull counts.now }
{
    counts.iter().position(|n| *n > MOST_ENTRIES)
}

/// The intervals that the parameters leave to streams and labels.
fn check_intervals(parts: &Parts, parameters: &Parameters) -> Result<(), BuildError>
    requires tick { 1 ≤ parts.now.tick_us }
    requires same { parameters.now ≡ parts.now.parameters }
    ensures { result ≡ then_reported (reported TableRule.MinimumBelowOneTick Section.Stream
        (first_quick parts.now.tick_us parts.now.parameters parts.now.streams))
        (reported TableRule.NoOutputInterval Section.Label (first_narrow parts.now.tick_us parts.now.parameters parts.now.labels)) }
{
    refuse(
        TableRule::MinimumBelowOneTick,
        Section::Stream,
        first_quick(parts.tick_us(), parameters, parts.streams()),
    )?;
    refuse(
        TableRule::NoOutputInterval,
        Section::Label,
        first_narrow(parts.tick_us(), parameters, parts.labels()),
    )
}

/// The names to look up, where none is doubled.
pub(crate) fn index_names(alloc: Global, parts: &Parts) -> Result<Names, BuildError>
    ensures rule { Tells (names parts.now) result }
    ensures buses { IfOk result (λ n. n.buses ≡ bus_names parts.now) }
    ensures streams { IfOk result (λ n. n.streams ≡ stream_names parts.now) }
    ensures routers { IfOk result (λ n. n.routers ≡ router_names parts.now) }
    ensures outputs { IfOk result (λ n. n.outputs ≡ output_names parts.now) }
    ensures labels { IfOk result (λ n. n.labels ≡ label_names parts.now) }
{
    let buses = index_of(alloc, Section::Bus, parts.buses())?;
    let streams = index_of(alloc, Section::Stream, parts.streams())?;
    let routers = index_of(alloc, Section::Router, parts.routers())?;
    let outputs = index_of(alloc, Section::Output, parts.outputs())?;
    with_labels(alloc, parts, (buses, streams), (routers, outputs))
}

/// The names of the labels beside those of the other tables.
fn with_labels(
    alloc: Global,
    parts: &Parts,
    inputs: (NameIndex, NameIndex),
    senders: (NameIndex, NameIndex),
) -> Result<Names, BuildError>
    ensures rule { Tells (reported TableRule.NameDoubled Section.Label (doubled_name (label_names parts.now))) result }
    ensures buses { IfOk result (λ n. n.buses ≡ inputs.0) }
    ensures streams { IfOk result (λ n. n.streams ≡ inputs.1) }
    ensures routers { IfOk result (λ n. n.routers ≡ senders.0) }
    ensures outputs { IfOk result (λ n. n.outputs ≡ senders.1) }
    ensures labels { IfOk result (λ n. n.labels ≡ label_names parts.now) }
{
    let labels = index_of(alloc, Section::Label, parts.labels())?;
    let (buses, streams) = inputs;
    let (routers, outputs) = senders;
    Ok(Names {
        buses,
        streams,
        routers,
        outputs,
        labels,
    })
}

/// The label of the first entry at an offset that is taken.
fn find_doubled_offset(alloc: Global, entries: &[PlacedEntry]) -> Result<Option<usize>, AllocError>
    ensures { IfOk result (λ r. r ≡ first_doubled_offset entries.now) }
{
    let keys = offset_keys(alloc, entries)?;
    let (_, found) = distinct(alloc, &keys)?;
    Ok(label_at(entries, found))
}

/// The label of the entry of this number.
fn label_at(entries: &[PlacedEntry], number: Option<usize>) -> Option<usize>
    ensures { result ≡ option_map (λ e. e.label) (option_and_then (slice_get entries.now) number) }
{
    let entry = entries.get(number?)?;
    Some(entry.label)
}

/// The first label with the label and SDI of one before it.
fn find_doubled_label(alloc: Global, labels: &[LabelPart]) -> Result<Option<usize>, AllocError>
    ensures { IfOk result (λ r. r ≡ first_doubled_label labels.now) }
{
    let keys = label_keys(alloc, labels)?;
    let (_, found) = distinct(alloc, &keys)?;
    Ok(found)
}

/// The rules up to T12: the entries in the order of the text, and the parameters to look up.
pub(crate) fn check_first(
    alloc: Global,
    parts: &Parts,
) -> Result<(Vec<PlacedEntry>, Parameters), BuildError>
    ensures rule { Tells (first_rules parts.now) result }
    ensures entries { IfOk result (λ r. r.0.items ≡ entries_from 0 parts.now.labels) }
    ensures parameters { IfOk result (λ r. r.1 ≡ parts.now.parameters) }
{
    check_shape(alloc, parts)?;
    let entries = place_all(alloc, parts).map_err(BuildError::Memory)?;
    check_totals(alloc, parts, &entries)?;
    let parameters = check_parameters(alloc, parts)?;
    Ok((entries, parameters))
}

/// The rules on parameters, which are then to be looked up: all that are doubled before the first whose least interval
/// is over its greatest, so that the dictionary refuses none.
fn check_parameters(alloc: Global, parts: &Parts) -> Result<Parameters, BuildError>
    requires shape { shape parts.now ≡ Ok tt }
    ensures rule { Tells (quantities parts.now) result }
    ensures parameters { IfOk result (λ p. p ≡ parts.now.parameters) }
{
    let found = first_doubled_parameter(alloc, parts.parameters()).map_err(BuildError::Memory)?;
    refuse(TableRule::ParameterDoubled, Section::Parameter, found)?;
    refuse(
        TableRule::IntervalReversed,
        Section::Parameter,
        first_inverted(parts.parameters()),
    )?;
    keep_parameters(alloc, parts)
}

/// The parameters to look up, where no stream and no label is left without an interval.
fn keep_parameters(alloc: Global, parts: &Parts) -> Result<Parameters, BuildError>
    requires shape { shape parts.now ≡ Ok tt }
    requires once { doubled same_parameter (map parameter_key parts.now.parameters) ≡ None }
    requires ordered { first_inverted parts.now.parameters ≡ None }
    ensures rule { Tells (then_reported (reported TableRule.MinimumBelowOneTick Section.Stream
        (first_quick parts.now.tick_us parts.now.parameters parts.now.streams))
        (reported TableRule.NoOutputInterval Section.Label (first_narrow parts.now.tick_us parts.now.parameters parts.now.labels))) result }
    ensures parameters { IfOk result (λ p. p ≡ parts.now.parameters) }
{
    let parameters = Parameters::of(alloc, parts.parameters()).map_err(BuildError::Memory)?;
    check_intervals(parts, &parameters)?;
    Ok(parameters)
}

/// A document beside what it is looked up by, while the rules from T14 on are asked.
#[derive(Clone, Copy)]
struct Indexed<'a> {
    parts: &'a Parts,
    passed: &'a Passed,
    ghost tick: { 1 ≤ parts.now.tick_us },
    ghost own: { ArePassed parts.now passed.now },
}

impl Indexed<'_> {
    /// The rules from T14 on.
    fn check(&self, alloc: Global) -> Result<(), BuildError>
        ensures { Tells (then_reported (references self.now.parts.now) (schedules self.now.parts.now)) result }
    {
        self.check_references(alloc)?;
        self.check_schedules(alloc)
    }

    /// What tables name of one another.
    fn check_references(&self, alloc: Global) -> Result<(), BuildError>
        ensures { Tells (references self.now.parts.now) result }
    {
        let overlap = first_overlap(alloc, self.parts.streams()).map_err(BuildError::Memory)?;
        let unserved = first_unserved(alloc, self.parts.routers(), self.parts.buses()).map_err(
            BuildError::Memory,
        )?;
        self.refuse_references(overlap, unserved)
    }

    /// The same, where the first stream that overlaps with one before it is known, and the first bus that no router
    /// visits, or two.
    fn refuse_references(
        &self,
        overlap: Option<usize>,
        unserved: Option<usize>,
    ) -> Result<(), BuildError>
        requires overlap { overlap ≡ doubled overlap_of self.now.parts.now.streams }
        requires unserved { unserved ≡ unserved_bus self.now.parts.now.routers self.now.parts.now.buses }
        ensures { result ≡ references self.now.parts.now }
    {
        let Indexed { parts, passed } = self;
        refuse(
            TableRule::ParameterAbsent,
            Section::Stream,
            first_unknown_stream(&passed.parameters, parts.streams()),
        )?;
        refuse(
            TableRule::ParameterAbsent,
            Section::Label,
            first_unknown_label(&passed.parameters, parts.labels()),
        )?;
        refuse(TableRule::StreamsOverlap, Section::Stream, overlap)?;
        refuse(
            TableRule::NameAbsent,
            Section::Router,
            first_lost_router(&passed.names.buses, parts.routers()),
        )?;
        refuse(
            TableRule::NameAbsent,
            Section::Label,
            first_lost_label(&passed.names.streams, parts.labels()),
        )?;
        refuse(TableRule::BusNotVisitedByOne, Section::Bus, unserved)?;
        refuse(
            TableRule::SourceDoubled,
            Section::Label,
            first_doubled_source(parts.labels()),
        )
    }

    /// Formats, entries and budgets.
    fn check_schedules(&self, alloc: Global) -> Result<(), BuildError>
        ensures { Tells (schedules self.now.parts.now) result }
    {
        let offset = find_doubled_offset(alloc, &self.passed.entries).map_err(BuildError::Memory)?;
        let label = find_doubled_label(alloc, self.parts.labels()).map_err(BuildError::Memory)?;
        self.refuse_schedules(offset, label)
    }

    /// The same, where the first label at a doubled offset is known, and the first that is doubled itself.
    fn refuse_schedules(
        &self,
        offset: Option<usize>,
        label: Option<usize>,
    ) -> Result<(), BuildError>
        requires offset { offset ≡ first_doubled_offset (entries_from 0 self.now.parts.now.labels) }
        requires label { label ≡ first_doubled_label self.now.parts.now.labels }
        ensures { result ≡ schedules self.now.parts.now }
    {
        let Indexed { parts, passed } = self;
        refuse(
            TableRule::FormatsDiffer,
            Section::Label,
            first_different(
                &passed.parameters,
                parts.streams(),
                &passed.names.streams,
                parts.labels(),
            ),
        )?;
        refuse(
            TableRule::OffsetPastFrame,
            Section::Label,
            first_late(parts.outputs(), parts.labels()),
        )?;
        refuse(TableRule::OffsetDoubled, Section::Label, offset)?;
        refuse(TableRule::LabelDoubled, Section::Label, label)?;
        refuse(
            TableRule::RouterCannotKeepPace,
            Section::Router,
            first_unable_router(parts.routers()),
        )?;
        refuse(
            TableRule::OutputCannotKeepPace,
            Section::Output,
            first_unable_output(parts.tick_us(), parts.outputs()),
        )
    }
}

/// The rules from T13 on: what the document is looked up by, its names now too.
pub(crate) fn check_later(
    alloc: Global,
    parts: &Parts,
    parameters: Parameters,
    entries: Vec<PlacedEntry>,
) -> Result<Passed, BuildError>
    requires tick { 1 ≤ parts.now.tick_us }
    requires parameters { parameters ≡ parts.now.parameters }
    requires entries { entries.items ≡ entries_from 0 parts.now.labels }
    ensures rule { Tells (later_rules parts.now) result }
    ensures passed { IfOk result (λ p. ArePassed parts.now p) }
{
    let names = index_names(alloc, parts)?;
    let passed = Passed {
        entries,
        parameters,
        names,
    };
    kept(alloc, parts, passed)
}

/// What the document is looked up by, where the rules from T14 on are kept.
fn kept(alloc: Global, parts: &Parts, passed: Passed) -> Result<Passed, BuildError>
    requires tick { 1 ≤ parts.now.tick_us }
    requires passed { ArePassed parts.now passed }
    ensures rule { Tells (then_reported (references parts.now) (schedules parts.now)) result }
    ensures passed { IfOk result (λ p. ArePassed parts.now p) }
{
    let indexed = Indexed {
        parts,
        passed: &passed,
    };
    indexed.check(alloc)?;
    Ok(passed)
}
