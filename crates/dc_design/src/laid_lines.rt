//! The text of tables with a layout: all of them as they are but for the frames of outputs and the stale times and offsets of labels.
use crate::output_lines::{gaps_of, say_load, say_offsets, say_others};
use crate::words::{format_word, speed_word, ticks_word, truth_word};
use dc_design_rows::{Document, Fact, Letters, Lines, Span};
use dc_dict::Parameter;
use dc_document::{
    BusPart, LAST_OFFSET, LabelPart, Name, OutputPart, Parts, RouterPart, StreamPart, Version,
};
use dc_plan::{OutputPlan, Plan, part, up};

/// What is laid out.
#[derive(Clone, Copy)]
pub(crate) enum Layout<'a> {
    /// As it was planned for the document of the tables.
    Planned(&'a Document, &'a Plan),
    /// So that no rule of layouts is broken: each label once in a tick of its own, in a frame with room for all.
    Apart,
}

/// A name as a fact.
fn name_fact(name: &Name) -> Fact {
    Fact::Name(Letters::of(name.text()))
}

/// Writes names behind one another, in quotes.
fn say_names(names: &[Name], lines: &mut Lines) {
    for (number, name) in names.iter().enumerate() {
        lines.say(
            if number == 0 { "\"{}\"" } else { ", \"{}\"" },
            &[name_fact(name)],
        );
    }
}

/// Whether a stream or a label has this parameter.
fn is_asked(parts: &Parts, row: &Parameter) -> bool {
    let (label, equipment) = (row.label, row.equipment);
    let (mut streams, mut labels) = (parts.streams().iter(), parts.labels().iter());
    streams.any(|s| s.label == label && s.equipment == equipment)
        || labels.any(|l| l.label == label && l.equipment == equipment)
}

/// Writes a parameter, and that nothing has it, where nothing does.
fn write_parameter(parts: &Parts, row: &Parameter, lines: &mut Lines) {
    if !is_asked(parts, row) {
        lines.say("\n# no stream and no label has it", &[]);
    }
    lines.line(
        "\n[[parameter]]\nlabel = \"{}\"\nequipment = \"{}\"\nformat = \"{}\"\nmin_us = {}\nmax_us = {}",
        &[
            Fact::Octal(u64::from(row.label.number())),
            Fact::Hexadecimal(u64::from(row.equipment.code())),
            format_word(Some(row.format)),
            Fact::Number(u64::from(row.min_us)),
            Fact::Number(u64::from(row.max_us)),
        ],
    );
}

/// Writes a stream.
fn write_stream(stream: &StreamPart, version: Version, lines: &mut Lines) {
    lines.line(
        "\n[[bus.stream]]\nname = \"{}\"\nlabel = \"{}\"\nequipment = \"{}\"",
        &[
            name_fact(&stream.name),
            Fact::Octal(u64::from(stream.label.number())),
            Fact::Hexadecimal(u64::from(stream.equipment.code())),
        ],
    );
    match stream.sdi {
        Some(sdi) => lines.line("sdi = {}", &[Fact::Number(u64::from(sdi.number()))]),
        None => lines.line("sdi = \"any\"", &[]),
    }
    if version == Version::Two {
        lines.line(
            "jitter_us = {}",
            &[Fact::Number(u64::from(stream.jitter_us))],
        );
    }
}

/// Writes a bus with its streams.
fn write_bus(parts: &Parts, number: usize, bus: &BusPart, lines: &mut Lines) {
    lines.line(
        "\n[[bus]]\nname = \"{}\"\nspeed = \"{}\"\nqueue = {}",
        &[
            name_fact(&bus.name),
            speed_word(bus.speed),
            Fact::Number(u64::from(bus.queue)),
        ],
    );
    if parts.version() == Version::Two {
        lines.line("police = {}", &[truth_word(bus.police)]);
    }
    for stream in parts.streams() {
        if stream.bus == number {
            write_stream(stream, parts.version(), lines);
        }
    }
}

/// Writes a router.
fn write_router(router: &RouterPart, lines: &mut Lines) {
    lines.say(
        "\n[[router]]\nname = \"{}\"\nsteps = {}\nwithin = {}\nmost = {}\nvisits = [",
        &[
            name_fact(&router.name),
            Fact::Number(u64::from(router.steps)),
            Fact::Number(u64::from(router.within)),
            Fact::Number(u64::from(router.most)),
        ],
    );
    say_names(&router.visits, lines);
    lines.line("]", &[]);
}

/// Writes an output without its labels.
fn write_output(output: &OutputPart, frame: u64, lines: &mut Lines) {
    lines.line(
        "[[output]]\nname = \"{}\"\nspeed = \"{}\"\nsteps = {}\nwithin = {}\nframe = {}",
        &[
            name_fact(&output.name),
            speed_word(output.speed),
            Fact::Number(u64::from(output.steps)),
            Fact::Number(u64::from(output.within)),
            Fact::Number(frame),
        ],
    );
}

/// Writes a label up to its offsets.
fn write_label(label: &LabelPart, stale: u64, lines: &mut Lines) {
    lines.say(
        "[[output.label]]\nname = \"{}\"\nlabel = \"{}\"\nequipment = \"{}\"\nsdi = {}\nsources = [",
        &[
            name_fact(&label.name),
            Fact::Octal(u64::from(label.label.number())),
            Fact::Hexadecimal(u64::from(label.equipment.code())),
            Fact::Number(u64::from(label.sdi.number())),
        ],
    );
    say_names(&label.sources, lines);
    lines.say(
        "]\nstale = {}\nage = {}\noffsets = [",
        &[Fact::Number(stale), Fact::Number(u64::from(label.age))],
    );
}

/// Says between which gaps a planned label leaves, and how old its data are.
fn say_gaps(
    document: &Document,
    plan: &Plan,
    number: usize,
    span: Span,
    own: &OutputPlan,
    lines: &mut Lines,
) {
    let Some(label) = document.labels.get(number) else {
        return;
    };
    let gaps = gaps_of(&plan.frames.offsets, span, own.frame);
    lines.say(
        "\n# gaps {} to {}, give or take {}, of {} to ",
        &[
            Fact::Number(gaps.least),
            Fact::Number(gaps.most),
            Fact::Number(own.within),
            Fact::Number(up(label.min, plan.tick).saturating_add(1)),
        ],
    );
    let oldest = match plan.labels.get(number) {
        Some(ages) => ages.least_age,
        None => 0,
    };
    lines.line(
        "{}; at most {} {} old",
        &[
            Fact::Number(part(label.max, plan.tick).saturating_sub(1)),
            Fact::Number(oldest),
            ticks_word(oldest),
        ],
    );
    say_others(document, label, lines);
}

/// Writes a label of this number as it was planned.
fn write_planned(
    document: &Document,
    plan: &Plan,
    number: usize,
    label: &LabelPart,
    lines: &mut Lines,
) {
    let Some(span) = plan.frames.labels.get(number) else {
        return;
    };
    if let Some(own) = plan.frames.outputs.get(label.output) {
        say_gaps(document, plan, number, *span, own, lines);
    }
    if let Some(ages) = plan.labels.get(number) {
        write_label(label, ages.stale, lines);
        say_offsets(plan, *span, lines);
        lines.line("]", &[]);
    }
}

/// Writes a label of this number in a tick of its own.
fn write_apart(number: usize, label: &LabelPart, lines: &mut Lines) {
    write_label(label, 1, lines);
    lines.line("{}]", &[Fact::Number(number as u64)]);
}

/// Writes an output with its labels.
fn write_output_of(
    parts: &Parts,
    layout: &Layout<'_>,
    number: usize,
    output: &OutputPart,
    lines: &mut Lines,
) {
    match layout {
        Layout::Planned(_, plan) => {
            if let Some(own) = plan.frames.outputs.get(number) {
                say_load(own, lines);
                write_output(output, own.frame, lines);
            }
        }
        Layout::Apart => {
            write_output(output, u64::from(LAST_OFFSET).saturating_add(1), lines);
        }
    }
    for (place, label) in parts.labels().iter().enumerate() {
        if label.output == number {
            match layout {
                Layout::Planned(document, plan) => {
                    write_planned(document, plan, place, label, lines);
                }
                Layout::Apart => write_apart(place, label, lines),
            }
        }
    }
}

/// Writes the tables of these parts with a layout.
pub(crate) fn write_laid(parts: &Parts, layout: &Layout<'_>, lines: &mut Lines) {
    lines.line(
        "# Laid out by dc429 layout. What you change by hand, dc429 find judges again.\nversion = {}\ntick_us = {}",
        &[
            Fact::Number(if parts.version() == Version::Two {
                2
            } else {
                1
            }),
            Fact::Number(u64::from(parts.tick_us())),
        ],
    );
    for row in parts.parameters() {
        write_parameter(parts, row, lines);
    }
    for (number, bus) in parts.buses().iter().enumerate() {
        write_bus(parts, number, bus, lines);
    }
    for router in parts.routers() {
        write_router(router, lines);
    }
    for (number, output) in parts.outputs().iter().enumerate() {
        write_output_of(parts, layout, number, output, lines);
    }
}
