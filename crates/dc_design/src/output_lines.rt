//! The lines of outputs and their labels.
use crate::words::{speed_word, ticks_word};
use dc_design_rows::{Document, Fact, Label, Lines, Output, Span};
use dc_plan::{LabelPlan, OutputPlan, Plan, part, up};

/// The least and the greatest gap between offsets.
#[derive(Clone, Copy)]
pub(crate) struct Gaps {
    pub(crate) least: u64,
    pub(crate) most: u64,
}

/// The gaps between offsets round a frame.
pub(crate) fn gaps_of(offsets: &[u64], span: Span, frame: u64) -> Gaps {
    let mut gaps = Gaps {
        least: u64::MAX,
        most: 0,
    };
    let first = offsets.get(span.first).copied().unwrap_or(0);
    for place in span.first..span.end {
        let next = place.saturating_add(1);
        let end = if next < span.end {
            offsets.get(next).copied().unwrap_or(0)
        } else {
            first.saturating_add(frame)
        };
        let gap = end.saturating_sub(offsets.get(place).copied().unwrap_or(0));
        gaps.least = gaps.least.min(gap);
        gaps.most = gaps.most.max(gap);
    }
    gaps
}

/// Says how an output was laid out.
pub(crate) fn say_load(plan: &OutputPlan, lines: &mut Lines) {
    lines.line(
        "\n# {} % of the wire, {} {}; an entry leaves within {} {} of its offset",
        &[
            Fact::Number(plan.load),
            Fact::Number(plan.entries),
            Fact::Word(if plan.entries == 1 {
                "entry"
            } else {
                "entries"
            }),
            Fact::Number(plan.within),
            ticks_word(plan.within),
        ],
    );
}

/// Whether a row says what some task does.
pub(crate) fn has_tasks(document: &Document) -> bool {
    document.buses.iter().any(|b| b.task.is_some())
        || document.outputs.iter().any(|o| o.task.is_some())
}

/// That a task was chosen, where rows say what others do.
pub(crate) const CHOSEN: &str = "# no row says what its task does: steps and within are chosen";

/// Writes an output without its labels.
fn write_head(document: &Document, output: &Output, plan: &OutputPlan, lines: &mut Lines) {
    say_load(plan, lines);
    if output.task.is_none() && has_tasks(document) {
        lines.line(CHOSEN, &[]);
    }
    lines.line(
        "[[output]]\nname = \"{}\"\nspeed = \"{}\"\nsteps = {}\nwithin = {}\nframe = {}",
        &[
            Fact::Name(output.name),
            speed_word(output.speed),
            Fact::Number(plan.steps),
            Fact::Number(plan.within),
            Fact::Number(plan.frame),
        ],
    );
}

/// That no greatest age is asked of a label, where none is.
fn unasked_word(label: &Label) -> Fact {
    Fact::Word(match label.max_age {
        Some(_) => "",
        None => "no greatest age is asked; age is the least that holds: ",
    })
}

/// Says by which numbers the offsets of a label are as they are, and how old its data are.
fn say_gaps(
    document: &Document,
    plan: &Plan,
    label: &Label,
    least_age: u64,
    gaps: Gaps,
    within: u64,
    lines: &mut Lines,
) {
    let Some(parameter) = document.parameter(label.parameter) else {
        return;
    };
    lines.say(
        "\n# outputs row {}: gaps {} to {}, give or take {}, of {} to ",
        &[
            Fact::Number(label.row),
            Fact::Number(gaps.least),
            Fact::Number(gaps.most),
            Fact::Number(within),
            Fact::Number(up(parameter.min, plan.tick).saturating_add(1)),
        ],
    );
    lines.line(
        "{}; {}at most {} {} old",
        &[
            Fact::Number(part(parameter.max, plan.tick).saturating_sub(1)),
            unasked_word(label),
            Fact::Number(least_age),
            ticks_word(least_age),
        ],
    );
    say_others(document, label, lines);
}

/// Says which sources of a label have another label.
pub(crate) fn say_others(document: &Document, label: &Label, lines: &mut Lines) {
    for place in label.sources.first..label.sources.end {
        let number = document.sources.get(place).copied().unwrap_or(0);
        let Some(stream) = document.streams.get(number) else {
            continue;
        };
        if stream.label != label.label {
            lines.line(
                "# its source {} has label {}",
                &[Fact::Name(stream.name), Fact::Octal(stream.label)],
            );
        }
    }
}

/// Says the sources of a label.
fn say_sources(document: &Document, label: &Label, lines: &mut Lines) {
    for place in label.sources.first..label.sources.end {
        let number = document.sources.get(place).copied().unwrap_or(0);
        if let Some(stream) = document.streams.get(number) {
            let is_first = place == label.sources.first;
            lines.say(
                if is_first { "\"{}\"" } else { ", \"{}\"" },
                &[Fact::Name(stream.name)],
            );
        }
    }
}

/// Says the offsets of a label.
pub(crate) fn say_offsets(plan: &Plan, span: Span, lines: &mut Lines) {
    for place in span.first..span.end {
        let offset = plan.frames.offsets.get(place).copied().unwrap_or(0);
        let is_first = place == span.first;
        lines.say(
            if is_first { "{}" } else { ", {}" },
            &[Fact::Number(offset)],
        );
    }
}

/// Writes the keys of a label.
fn write_keys(
    document: &Document,
    plan: &Plan,
    label: &Label,
    own: &LabelPlan,
    span: Span,
    lines: &mut Lines,
) {
    lines.say(
        "[[output.label]]\nname = \"{}\"\nlabel = \"{}\"\nequipment = \"{}\"\nsdi = {}\nsources = [",
        &[
            Fact::Name(label.name),
            Fact::Octal(label.label),
            Fact::Hexadecimal(label.equipment),
            Fact::Number(label.sdi),
        ],
    );
    say_sources(document, label, lines);
    lines.say(
        "]\nstale = {}\nage = {}\noffsets = [",
        &[Fact::Number(own.stale), Fact::Number(own.age)],
    );
    say_offsets(plan, span, lines);
    lines.line("]", &[]);
}

/// Writes the labels of an output.
fn write_labels(
    document: &Document,
    plan: &Plan,
    output: &Output,
    own: &OutputPlan,
    lines: &mut Lines,
) {
    for place in output.labels.first..output.labels.end {
        let number = document.on_output.get(place).copied().unwrap_or(0);
        let Some(label) = document.labels.get(number) else {
            continue;
        };
        let Some(numbers) = plan.labels.get(place) else {
            continue;
        };
        if let Some(span) = plan.frames.labels.get(place) {
            let gaps = gaps_of(&plan.frames.offsets, *span, own.frame);
            say_gaps(
                document,
                plan,
                label,
                numbers.least_age,
                gaps,
                own.within,
                lines,
            );
            write_keys(document, plan, label, numbers, *span, lines);
        }
    }
}

/// Writes the outputs with their labels.
pub(crate) fn write_outputs(document: &Document, plan: &Plan, lines: &mut Lines) {
    for (number, output) in document.outputs.iter().enumerate() {
        if let Some(own) = plan.frames.outputs.get(number) {
            write_head(document, output, own, lines);
            write_labels(document, plan, output, own, lines);
        }
    }
}
