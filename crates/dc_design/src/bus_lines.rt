//! The lines of buses and routers.
use crate::output_lines::{CHOSEN, has_tasks};
use crate::words::{speed_word, ticks_word, truth_word};
use dc_design_rows::{Bus, Document, Fact, Lines, Stream};
use dc_plan::{BusPlan, Pace, Plan, RouterPlan};

/// Says how often a bus is visited.
fn say_often(bus: &BusPlan, lines: &mut Lines) {
    if bus.within > 1 && bus.steps > 1 {
        lines.say(
            "{} times in {} ticks",
            &[Fact::Number(bus.steps), Fact::Number(bus.within)],
        );
    } else if bus.within > 1 {
        lines.say("once in {} ticks", &[Fact::Number(bus.within)]);
    } else if bus.steps == 1 {
        lines.say("once a tick", &[]);
    } else {
        lines.say("{} times a tick", &[Fact::Number(bus.steps)]);
    }
}

/// Says what is asked of the receiver of a bus, where no row says what that holds.
fn say_queue(bus: &Bus, plan: &BusPlan, lines: &mut Lines) {
    if bus.queue.is_none() {
        lines.say(
            "\n# no row says its queue: the receiver must hold {}",
            &[Fact::Number(plan.queue)],
        );
    }
}

/// Writes a bus without its streams.
fn write_head(bus: &Bus, plan: &BusPlan, is_second: bool, lines: &mut Lines) {
    lines.say(
        "\n# up to {} % of the wire; visited ",
        &[Fact::Number(plan.load)],
    );
    say_often(plan, lines);
    lines.say(
        ": at most {} wait, for at most {} {}",
        &[
            Fact::Number(plan.backlog),
            Fact::Number(plan.delay),
            ticks_word(plan.delay),
        ],
    );
    say_queue(bus, plan, lines);
    lines.line(
        "\n[[bus]]\nname = \"{}\"\nspeed = \"{}\"\nqueue = {}",
        &[
            Fact::Name(bus.name),
            speed_word(bus.speed),
            Fact::Number(plan.queue),
        ],
    );
    if is_second {
        lines.line("police = {}", &[truth_word(bus.police)]);
    }
}

/// Writes a stream.
fn write_stream(stream: &Stream, pace: &Pace, is_second: bool, lines: &mut Lines) {
    lines.line(
        "\n# inputs row {}: words {} to {} ticks apart\n[[bus.stream]]\nname = \"{}\"\nlabel = \"{}\"\nequipment = \"{}\"",
        &[
            Fact::Number(stream.row),
            Fact::Number(pace.least),
            Fact::Number(pace.most),
            Fact::Name(stream.name),
            Fact::Octal(stream.label),
            Fact::Hexadecimal(stream.equipment),
        ],
    );
    match stream.sdi {
        Some(number) => lines.line("sdi = {}", &[Fact::Number(number)]),
        None => lines.line("sdi = \"any\"", &[]),
    }
    if is_second {
        lines.line("jitter_us = {}", &[Fact::Number(stream.jitter)]);
    }
}

/// Writes the streams of a bus.
fn write_streams(document: &Document, plan: &Plan, bus: &Bus, is_second: bool, lines: &mut Lines) {
    for place in bus.streams.first..bus.streams.end {
        let number = document.on_bus.get(place).copied().unwrap_or(0);
        let Some(stream) = document.streams.get(number) else {
            continue;
        };
        if let Some(pace) = plan.paces.get(number) {
            write_stream(stream, pace, is_second, lines);
        }
    }
}

/// Writes the buses with their streams.
pub(crate) fn write_buses(document: &Document, plan: &Plan, is_second: bool, lines: &mut Lines) {
    for (number, bus) in document.buses.iter().enumerate() {
        if let Some(own) = plan.visits.buses.get(number) {
            write_head(bus, own, is_second, lines);
            write_streams(document, plan, bus, is_second, lines);
        }
    }
}

/// Whether no row says what the task of a router does, where rows say what others do.
fn is_chosen(document: &Document, plan: &Plan, router: &RouterPlan) -> bool {
    let first = plan.visits.turns.get(router.turns.first).copied();
    match document.buses.get(first.unwrap_or(0)) {
        Some(bus) => bus.task.is_none() && has_tasks(document),
        None => false,
    }
}

/// Writes a router.
fn write_router(document: &Document, plan: &Plan, router: &RouterPlan, lines: &mut Lines) {
    if is_chosen(document, plan, router) {
        lines.say("\n", &[]);
        lines.say(CHOSEN, &[]);
    }
    lines.say(
        "\n[[router]]\nname = \"{}\"\nsteps = {}\nwithin = {}\nmost = {}\nvisits = [",
        &[
            Fact::Name(router.name),
            Fact::Number(router.steps),
            Fact::Number(router.within),
            Fact::Number(router.most),
        ],
    );
    for place in router.turns.first..router.turns.end {
        let number = plan.visits.turns.get(place).copied().unwrap_or(0);
        if let Some(bus) = document.buses.get(number) {
            let is_first = place == router.turns.first;
            lines.say(
                if is_first { "\"{}\"" } else { ", \"{}\"" },
                &[Fact::Name(bus.name)],
            );
        }
    }
    lines.line("]", &[]);
}

/// Writes the routers.
pub(crate) fn write_routers(document: &Document, plan: &Plan, lines: &mut Lines) {
    for router in &plan.visits.routers {
        write_router(document, plan, router, lines);
    }
}
