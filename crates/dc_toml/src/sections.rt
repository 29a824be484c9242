//! The kinds of tables: which keys each has, and what stands at them.
ghost use Rattle.std.specs.Prelude.{◌≡◌, ◌+◌, ◌≤◌, length, Result, OnOk};
ghost use Rattle.toml.specs.Data.{Data};
ghost use Rattle.toml.specs.View.{view, items_view};
ghost use Rattle.dc_document.specs.declared.fault.TableFault.{TableFault as SpecFault};
ghost use Rattle.dc_toml.specs.Faults.{Leaves};
ghost use Rattle.dc_toml.specs.Written.{Written, written, router_text, label_text, and_bus, and_router, and_label, and_output};
ghost use Rattle.dc_toml.specs.Reading.{next_router, next_label, each_table, read_parameter, read_bus, read_stream as stream_reading, read_router as router_reading, read_output as output_reading, read_label as label_reading};

use crate::keys::{
    bus_keyed, equipment, format, jitter, keyed, label, label_keyed, laid_number, name, number,
    output_keyed, police, router_keyed, sdi, speed, stream_keyed, stream_sdi, table,
};
use crate::layout::Layout;
use crate::lists::{laid_offsets, names, tables};
use crate::open::{aged, laid_age, laid_most, laid_visits};
use crate::place::TablePlace;
use dc_bound::{GREATEST_QUEUE, LONGEST_FRAME};
use dc_dict::Parameter;
use dc_document::{
    BuildError, BusPart, LONGEST_INTERVAL_US, LONGEST_STALE, LONGEST_WITHIN, LabelPart,
    MOST_MEMBERS, MOST_SOURCES, MOST_STEPS, OutputPart, Parts, RouterPart, Section, StreamPart,
};
use std::alloc::{AllocError, Global};
use toml::Value;

/// A kind of table in a list at the top.
pub trait TopTable {
    // What stands after one more of these, or its first fault.
    ghost reading: { Written → Data → Result Written SpecFault };

    /// Puts the table that a value is after what was read before it.
    fn read(alloc: Global, parts: &mut Parts, value: &Value) -> Result<(), BuildError>
        ensures { Leaves (written parts.new) result (reading (written parts.old) (view value.now)) };
}

/// The tables of a list at the top, in order.
pub fn read_tables_of<T: TopTable>(
    alloc: Global,
    parts: &mut Parts,
    values: &[Value],
) -> Result<(), BuildError>
    ensures { Leaves (written parts.new) result (each_table T.reading (written parts.old) (items_view values.now)) }
{
    for value in values {
        match T::read(alloc, parts, value) {
            Ok(()) => {}
            Err(error) => return Err(error),
        }
    }
    Ok(())
}

/// The place of the next router.
fn router_place(parts: &Parts) -> TablePlace
    ensures { result ≡ next_router (written parts.now) }
{
    TablePlace::new(Section::Router, parts.router_count())
}

/// The place of the next label.
fn label_place(parts: &Parts) -> TablePlace
    ensures { result ≡ next_label (written parts.now) }
{
    TablePlace::new(Section::Label, parts.label_count())
}

/// One more router.
fn add_router(parts: &mut Parts, router: RouterPart) -> Result<(), AllocError>
    ensures { OnOk result (written parts.new ≡ and_router (written parts.old) (router_text router)) }
{
    parts.push_router(router)
}

/// One more label of the last output.
fn add_label(parts: &mut Parts, label: LabelPart) -> Result<(), AllocError>
    requires { label.output + 1 ≡ length parts.old.outputs }
    ensures { OnOk result (written parts.new ≡ and_label (written parts.old) (label_text label)) }
{
    parts.push_label(label)
}

impl TopTable for Parameter {
    ghost reading = { read_parameter };

    #[tactic(auto, unfolding(crate::specs::Reading::read_parameter))]
    fn read(alloc: Global, parts: &mut Parts, value: &Value) -> Result<(), BuildError> {
        let place = TablePlace::new(Section::Parameter, parts.parameter_count());
        let table = table(value, place)?;
        let keys = &["label", "equipment", "format", "min_us", "max_us"];
        keyed(table, keys, place)?;
        let label = label(table, "label", place)?;
        let equipment = equipment(table, "equipment", place)?;
        let format = format(table, "format", place)?;
        let min_us = number(table, "min_us", 1, LONGEST_INTERVAL_US, place)?;
        let max_us = number(table, "max_us", 1, LONGEST_INTERVAL_US, place)?;
        parts.push_parameter(Parameter {
            label,
            equipment,
            format,
            min_us,
            max_us,
        })?;
        Ok(())
    }
}

/// Puts a stream of the last bus after what was read before it.
#[tactic(auto, unfolding(crate::specs::Reading::read_stream))]
fn read_stream(parts: &mut Parts, value: &Value) -> Result<(), BuildError>
    requires { 1 ≤ length parts.old.buses }
    ensures reading { Leaves (written parts.new) result (stream_reading (written parts.old) (view value.now)) }
    ensures buses { OnOk result (parts.new.buses ≡ parts.old.buses) }
{
    let place = TablePlace::new(Section::Stream, parts.stream_count());
    let bus = parts.bus_count() - 1;
    let version = parts.version();
    let table = table(value, place)?;
    stream_keyed(table, version, place)?;
    let name = name(table, "name", place)?;
    let label = label(table, "label", place)?;
    let equipment = equipment(table, "equipment", place)?;
    let sdi = stream_sdi(table, "sdi", place)?;
    let jitter_us = jitter(table, version, place)?;
    parts.push_stream(StreamPart {
        bus,
        name,
        label,
        equipment,
        sdi,
        jitter_us,
    })?;
    Ok(())
}

/// The streams of the last bus, in order.
fn read_streams(parts: &mut Parts, values: &[Value]) -> Result<(), BuildError>
    requires { 1 ≤ length parts.old.buses }
    ensures { Leaves (written parts.new) result (each_table stream_reading (written parts.old) (items_view values.now)) }
{
    for value in values {
        match read_stream(parts, value) {
            Ok(()) => {}
            Err(error) => return Err(error),
        }
    }
    Ok(())
}

impl TopTable for BusPart {
    ghost reading = { read_bus };

    #[tactic(auto, unfolding(crate::specs::Reading::read_bus))]
    fn read(alloc: Global, parts: &mut Parts, value: &Value) -> Result<(), BuildError> {
        let place = TablePlace::new(Section::Bus, parts.bus_count());
        let version = parts.version();
        let table = table(value, place)?;
        bus_keyed(table, version, place)?;
        let name = name(table, "name", place)?;
        let speed = speed(table, "speed", place)?;
        let queue = number(table, "queue", 1, GREATEST_QUEUE, place)?;
        let police = police(table, version, place)?;
        let streams = tables(table, "stream", 1, MOST_MEMBERS, place)?;
        parts.push_bus(BusPart {
            name,
            speed,
            queue,
            police,
        })?;
        read_streams(parts, streams)
    }
}

/// The router that a value is.
#[tactic(auto, unfolding(crate::specs::Reading::read_router))]
fn read_router(
    alloc: Global,
    layout: Layout,
    parts: &mut Parts,
    value: &Value,
) -> Result<(), BuildError>
    ensures { Leaves (written parts.new) result (router_reading layout (written parts.old) (view value.now)) }
{
    let place = router_place(parts);
    let table = table(value, place)?;
    router_keyed(table, layout, place)?;
    let name = name(table, "name", place)?;
    let steps = number(table, "steps", 1, MOST_STEPS, place)?;
    let within = number(table, "within", 1, LONGEST_WITHIN, place)?;
    let most = laid_most(table, layout, steps, place)?;
    let visits = laid_visits(alloc, table, layout, place)?;
    add_router(
        parts,
        RouterPart {
            name,
            steps,
            within,
            most,
            visits,
        },
    )?;
    Ok(())
}

/// The routers in order.
pub fn read_routers(
    alloc: Global,
    layout: Layout,
    parts: &mut Parts,
    values: &[Value],
) -> Result<(), BuildError>
    ensures { Leaves (written parts.new) result (each_table (router_reading layout) (written parts.old) (items_view values.now)) }
{
    for value in values {
        match read_router(alloc, layout, parts, value) {
            Ok(()) => {}
            Err(error) => return Err(error),
        }
    }
    Ok(())
}

/// The label of the output with this index that a value is.
#[tactic(auto, unfolding(crate::specs::Reading::read_label))]
fn read_label(
    alloc: Global,
    layout: Layout,
    parts: &mut Parts,
    value: &Value,
) -> Result<(), BuildError>
    requires { 1 ≤ length parts.old.outputs }
    ensures reading { Leaves (written parts.new) result (label_reading layout (written parts.old) (view value.now)) }
    ensures outputs { OnOk result (parts.new.outputs ≡ parts.old.outputs) }
{
    let place = label_place(parts);
    let output = parts.output_count() - 1;
    let tick_us = parts.tick_us();
    let table = table(value, place)?;
    label_keyed(table, layout, place)?;
    aged(table, layout, place)?;
    let name = name(table, "name", place)?;
    let label = label(table, "label", place)?;
    let equipment = equipment(table, "equipment", place)?;
    let sdi = sdi(table, "sdi", place)?;
    let sources = names(alloc, table, "sources", 1, MOST_SOURCES, place)?;
    let stale = laid_number(table, layout, "stale", 1, LONGEST_STALE, place)?;
    let age = laid_age(table, layout, tick_us, place)?;
    let offsets = laid_offsets(alloc, table, layout, place)?;
    add_label(
        parts,
        LabelPart {
            output,
            name,
            label,
            equipment,
            sdi,
            sources,
            stale,
            age,
            offsets,
        },
    )?;
    Ok(())
}

/// The labels of the last output, in order.
fn read_labels(
    alloc: Global,
    layout: Layout,
    parts: &mut Parts,
    values: &[Value],
) -> Result<(), BuildError>
    requires { 1 ≤ length parts.old.outputs }
    ensures { Leaves (written parts.new) result (each_table (label_reading layout) (written parts.old) (items_view values.now)) }
{
    for value in values {
        match read_label(alloc, layout, parts, value) {
            Ok(()) => {}
            Err(error) => return Err(error),
        }
    }
    Ok(())
}

/// The output that a value is, and its labels.
#[tactic(auto, unfolding(crate::specs::Reading::read_output))]
fn read_output(
    alloc: Global,
    layout: Layout,
    parts: &mut Parts,
    value: &Value,
) -> Result<(), BuildError>
    ensures { Leaves (written parts.new) result (output_reading layout (written parts.old) (view value.now)) }
{
    let place = TablePlace::new(Section::Output, parts.output_count());
    let table = table(value, place)?;
    output_keyed(table, layout, place)?;
    let name = name(table, "name", place)?;
    let speed = speed(table, "speed", place)?;
    let steps = number(table, "steps", 1, MOST_STEPS, place)?;
    let within = number(table, "within", 1, LONGEST_WITHIN, place)?;
    let frame = laid_number(table, layout, "frame", 1, LONGEST_FRAME, place)?;
    let labels = tables(table, "label", 1, MOST_MEMBERS, place)?;
    parts.push_output(OutputPart {
        name,
        speed,
        steps,
        within,
        frame,
    })?;
    read_labels(alloc, layout, parts, labels)
}

/// The outputs in order, each followed by its labels.
pub fn read_outputs(
    alloc: Global,
    layout: Layout,
    parts: &mut Parts,
    values: &[Value],
) -> Result<(), BuildError>
    ensures { Leaves (written parts.new) result (each_table (output_reading layout) (written parts.old) (items_view values.now)) }
{
    for value in values {
        match read_output(alloc, layout, parts, value) {
            Ok(()) => {}
            Err(error) => return Err(error),
        }
    }
    Ok(())
}
