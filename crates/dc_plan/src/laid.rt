//! The plan of a layout: stale times, frames and offsets for tables whose visits are settled.
use crate::ages::{LabelPlan, age_all};
use crate::stages::{Plan, Unplanned};
use dc_design_rows::{Bus, Document, Fact, Label, Letters};
use dc_plan_frames::plan_output;
use dc_plan_ticks::{Knobs, Obstacles, Pace, pace_all, part, up};
use dc_plan_visits::{BusPlan, Visits};
use std::alloc::{AllocError, Global};

/// What waits on a bus whose visits are settled.
#[derive(Clone, Copy)]
pub struct Waiting {
    /// So many words at most.
    pub backlog: u64,
    /// So many ticks at most.
    pub delay: u64,
}

/// A bus on which so much waits, as far as a plan of labels asks.
fn bus_plan(bus: &Bus, waiting: &Waiting) -> BusPlan {
    BusPlan {
        steps: 0,
        within: 0,
        backlog: waiting.backlog,
        delay: waiting.delay,
        queue: bus.queue.unwrap_or(waiting.backlog),
        load: 0,
        turns: 0,
        budget: None,
    }
}

/// Begins a line on a bus.
fn begin_bus(bus: &Bus, obstacles: &mut Obstacles) {
    obstacles.lines.begin("");
    obstacles.lines.say("bus {}: ", &[Fact::Name(bus.name)]);
}

/// So many words may come on a bus in 1000 ticks by the intervals of its streams, rounded up; its wire may let fewer come.
fn words_of(document: &Document, paces: &[Pace], bus: &Bus) -> u64 {
    let mut billionths = 0u64;
    for place in bus.streams.first..bus.streams.end {
        let number = document.on_bus.get(place).copied().unwrap_or(0);
        if let Some(pace) = paces.get(number) {
            billionths = billionths.saturating_add(part(1_000_000_000, pace.least));
        }
    }
    up(billionths, 1_000_000)
}

/// Tells that no window of a bus closes on which so many words may come in 1000 ticks by the intervals of its streams.
fn tell_endless(bus: &Bus, words: u64, obstacles: &mut Obstacles) {
    begin_bus(bus, obstacles);
    obstacles.lines.line(
        "{} words may come in 1000 ticks by its streams' intervals, and its visits do not surely take more (F1); more steps of its router, a shorter within, or more of its visits",
        &[Fact::Number(words)],
    );
}

/// Tells that more words wait on a bus than its queue takes.
fn tell_full(bus: &Bus, queue: u64, backlog: u64, obstacles: &mut Obstacles) {
    begin_bus(bus, obstacles);
    obstacles.lines.line(
        "up to {} words wait, and its queue takes {} (F2); a queue of {}, more steps of its router, a shorter within, or more of its visits",
        &[
            Fact::Number(backlog),
            Fact::Number(queue),
            Fact::Number(backlog),
        ],
    );
}

/// Adds what waits on each bus, or tells those on which too much does.
fn wait_all(
    document: &Document,
    waiting: &[Option<Waiting>],
    paces: &[Pace],
    visits: &mut Visits,
    obstacles: &mut Obstacles,
) -> Result<(), AllocError> {
    for (number, bus) in document.buses.iter().enumerate() {
        let Some(own) = waiting.get(number).copied().unwrap_or(None) else {
            tell_endless(bus, words_of(document, paces, bus), obstacles);
            continue;
        };
        let queue = bus.queue.unwrap_or(own.backlog);
        if own.backlog > queue {
            tell_full(bus, queue, own.backlog, obstacles);
        }
        visits.buses.push(bus_plan(bus, &own))?;
    }
    Ok(())
}

/// Of the sources of a label the one that may be fresh and silent for longest.
#[derive(Clone, Copy)]
struct Slowest {
    /// So many ticks its words lie apart.
    most: u64,
    /// So many ticks they wait.
    delay: u64,
    /// What it is called.
    name: Letters,
}

/// Of the sources of a label the first one whose words lie apart and wait for longest.
fn slowest_of(document: &Document, plan: &Plan, label: &Label) -> Slowest {
    let mut slowest = Slowest {
        most: 0,
        delay: 0,
        name: Letters::empty(),
    };
    for place in label.sources.first..label.sources.end {
        let number = document.sources.get(place).copied().unwrap_or(0);
        let Some(stream) = document.streams.get(number) else {
            continue;
        };
        let Some(bus) = plan.visits.buses.get(stream.bus) else {
            continue;
        };
        let Some(pace) = plan.paces.get(number) else {
            continue;
        };
        if pace.most.saturating_add(bus.delay) > slowest.most.saturating_add(slowest.delay) {
            slowest = Slowest {
                most: pace.most,
                delay: bus.delay,
                name: stream.name,
            };
        }
    }
    slowest
}

/// Tells that a label may be older than its age lets it, with ticks of so many microseconds.
fn tell_old(
    document: &Document,
    plan: &Plan,
    tick: u64,
    label: &Label,
    ages: &LabelPlan,
    obstacles: &mut Obstacles,
) {
    let slowest = slowest_of(document, plan, label);
    document.begin_label(label, "max_age", &mut obstacles.lines);
    obstacles.lines.say(
        "age {} is below the least, {}: a word has to be fresh for {}, since those of {} may lie {} apart and wait for {} (C12), ",
        &[
            Fact::Number(ages.age),
            Fact::Number(ages.least_age),
            Fact::Number(ages.stale),
            Fact::Name(slowest.name),
            Fact::Number(slowest.most),
            Fact::Number(slowest.delay),
        ],
    );
    obstacles.lines.line(
        "and may have waited for {} before (C11); an age of {} or a max_age_us of {}, a router that comes sooner, or a quicker {}",
        &[
            Fact::Number(ages.least_age.saturating_sub(ages.stale)),
            Fact::Number(ages.least_age),
            Fact::Number(ages.least_age.saturating_add(1).saturating_mul(tick)),
            Fact::Name(slowest.name),
        ],
    );
}

/// Tells the labels that may be older than their ages let them.
fn tell_ages(document: &Document, plan: &Plan, tick: u64, obstacles: &mut Obstacles) {
    for (place, ages) in plan.labels.iter().enumerate() {
        let number = document.on_output.get(place).copied().unwrap_or(0);
        if let Some(label) = document.labels.get(number) {
            if ages.least_age > ages.age {
                tell_old(document, plan, tick, label, ages, obstacles);
            }
        }
    }
}

/// Goes through the stages of a layout: buses, ages, and outputs beside them.
fn go_through(
    alloc: Global,
    document: &Document,
    waiting: &[Option<Waiting>],
    knobs: &Knobs,
    plan: &mut Plan,
    obstacles: &mut Obstacles,
) -> Result<(), AllocError> {
    obstacles.stage = 3;
    pace_all(document, knobs, &mut plan.paces, obstacles)?;
    wait_all(document, waiting, &plan.paces, &mut plan.visits, obstacles)?;
    if obstacles.is_any() {
        return Ok(());
    }
    obstacles.stage = 4;
    for output in &document.outputs {
        age_all(
            document,
            output,
            &plan.visits.buses,
            &plan.paces,
            knobs,
            &mut plan.labels,
            obstacles,
        )?;
    }
    tell_ages(document, plan, knobs.tick, obstacles);
    for output in &document.outputs {
        plan_output(alloc, document, output, knobs, &mut plan.frames, obstacles)?;
    }
    Ok(())
}

/// The stale times, frames and offsets for a document of tables, on whose buses so much waits; nothing waits on a bus of which no window
/// closes. Or what stands in the way.
///
/// # Errors
///
/// The lines of what stands in the way, or want of memory.
pub fn plan_layout(
    alloc: Global,
    document: &Document,
    waiting: &[Option<Waiting>],
    knobs: &Knobs,
) -> Result<Plan, Unplanned> {
    let mut obstacles = Obstacles::new(alloc, knobs.tick);
    let mut plan = Plan::new(alloc, knobs.tick);
    let is_whole = go_through(alloc, document, waiting, knobs, &mut plan, &mut obstacles).is_ok();
    plan.unless(is_whole, obstacles)
}
