//! Stage 3: how often each bus is visited.
use crate::arrivals::Arrivals;
use crate::budgets::{Asked, budget_of, plan_said, round_of, share_rounds};
use crate::busy::{ANY, Busy, LONGEST, Service, least_window};
use crate::visits::{BusPlan, Visits};
use dc_bound::GREATEST_QUEUE;
use dc_design_rows::{Bus, Document, Fact};
use dc_document::{MOST_STEPS, input_spacing};
use dc_plan_ticks::{Knobs, Obstacles, Pace, part, share_of, whole_of};
use std::alloc::{AllocError, Global};

/// The most steps in a tick.
const MOST: u64 = MOST_STEPS as u64;

/// The longest queue.
const LONGEST_QUEUE: u64 = GREATEST_QUEUE as u64;

/// So many halvings find one of the services.
const HALVINGS: usize = 20;

/// The service of this number on the ladder from the gentlest, once in so many ticks, up to the quickest.
fn rung(wanted: u64, number: u64) -> Service {
    let slow = wanted.saturating_sub(1);
    if number < slow {
        Service {
            steps: 1,
            within: wanted.saturating_sub(number),
        }
    } else {
        Service {
            steps: number.saturating_sub(slow).saturating_add(1),
            within: 1,
        }
    }
}

/// The gentlest service that keeps this, where one does: what is quicker keeps all that a slower one keeps.
fn gentlest(arrivals: &Arrivals, most: Busy) -> Option<Service> {
    let count = most.delay.saturating_sub(1).saturating_add(MOST);
    let mut low = 0u64;
    let mut high = count;
    for _ in 0..HALVINGS {
        if low < high {
            let middle = low.saturating_add(high) / 2;
            if least_window(arrivals, rung(most.delay, middle), most).is_some() {
                high = middle;
            } else {
                low = middle.saturating_add(1);
            }
        }
    }
    if low < count {
        Some(rung(most.delay, low))
    } else {
        None
    }
}

/// The service that leaves so much beside this one.
fn quicker(service: Service, knobs: &Knobs) -> Service {
    if service.within > 1 {
        Service {
            steps: 1,
            within: share_of(service.within, knobs.used()).max(1),
        }
    } else {
        Service {
            steps: whole_of(service.steps, knobs.used()),
            within: 1,
        }
    }
}

/// Begins a line on a bus.
pub(crate) fn begin(bus: &Bus, obstacles: &mut Obstacles) {
    obstacles.lines.begin("");
    obstacles.lines.say("bus {}: ", &[Fact::Name(bus.name)]);
}

/// Tells that more words may come than any service takes.
fn tell_endless(arrivals: &Arrivals, obstacles: &mut Obstacles) {
    obstacles.lines.line(
        "up to {} words may come in {} ticks, more than {} steps a tick take (F1); less jitter",
        &[
            Fact::Number(arrivals.count(LONGEST)),
            Fact::Number(LONGEST),
            Fact::Number(MOST),
        ],
    );
}

/// Tells that more words wait than the queue may take.
fn tell_room(
    bus: &Bus,
    arrivals: &Arrivals,
    best: &Busy,
    room: u64,
    knobs: &Knobs,
    obstacles: &mut Obstacles,
) {
    let queue = bus.queue.unwrap_or(LONGEST_QUEUE);
    obstacles.lines.say(
        "up to {} words wait, since {} may come within two ticks; its queue takes {}",
        &[
            Fact::Number(best.backlog),
            Fact::Number(arrivals.count(2)),
            Fact::Number(queue),
        ],
    );
    if room < queue {
        obstacles.lines.say(
            ", of which --headroom {} lets {} be used",
            &[Fact::Number(knobs.leave), Fact::Number(room)],
        );
    }
    obstacles.lines.say(" (C05); ", &[]);
    if bus.queue.is_some() {
        let queue = whole_of(best.backlog, knobs.share);
        obstacles
            .lines
            .say("a queue of {}, ", &[Fact::Number(queue)]);
    }
    obstacles.lines.line(
        "fewer streams, or less jitter{}{}",
        &[Fact::Word(knobs.freer()), Fact::Word(knobs.shorter)],
    );
}

/// Tells why no service serves.
fn tell_none(
    bus: &Bus,
    arrivals: &Arrivals,
    most: &Busy,
    knobs: &Knobs,
    obstacles: &mut Obstacles,
) {
    begin(bus, obstacles);
    let quickest = Service {
        steps: MOST,
        within: 1,
    };
    let Some(best) = least_window(arrivals, quickest, ANY) else {
        return tell_endless(arrivals, obstacles);
    };
    if best.backlog > most.backlog {
        return tell_room(bus, arrivals, &best, most.backlog, knobs, obstacles);
    }
    obstacles.lines.line(
        if knobs.is_prompt {
            "{} ticks are the least delay, {} are left by the ages and timeouts{} (C06, C11, C12); fewer streams, less jitter, or greater ages and timeouts{}{}"
        } else {
            "{} ticks are the least delay, {} are left by the ages{} (C06, C11); fewer streams, less jitter, or a greater age{}{}"
        },
        &[
            Fact::Number(best.delay),
            Fact::Number(most.delay),
            Fact::Word(knobs.with_headroom()),
            Fact::Word(knobs.freer()),
            Fact::Word(knobs.shorter),
        ],
    );
}

/// Tells that the headroom asks for more steps than there are.
fn tell_steps(bus: &Bus, steps: u64, knobs: &Knobs, obstacles: &mut Obstacles) {
    begin(bus, obstacles);
    obstacles.lines.line(
        "{} steps a tick with the headroom, at most {} (T06); less headroom{}",
        &[
            Fact::Number(steps),
            Fact::Number(MOST),
            Fact::Word(knobs.shorter),
        ],
    );
}

/// So many percent of the wire the streams of a bus may take.
fn load_of(document: &Document, bus: &Bus, paces: &[Pace], knobs: &Knobs) -> u64 {
    let word = u64::from(input_spacing(bus.speed)).saturating_mul(100);
    let mut load = 0u64;
    for place in bus.streams.first..bus.streams.end {
        let number = document.on_bus.get(place).copied().unwrap_or(0);
        if let Some(pace) = paces.get(number) {
            load = load.saturating_add(part(word, knobs.tick.saturating_mul(pace.least)));
        }
    }
    load.min(100)
}

/// The plan of a bus that is visited so.
pub(crate) fn planned(
    bus: &Bus,
    service: Service,
    found: Busy,
    load: u64,
    knobs: &Knobs,
) -> BusPlan {
    let queue = match bus.queue {
        Some(queue) => queue,
        None => whole_of(found.backlog, knobs.used()).min(LONGEST_QUEUE),
    };
    BusPlan {
        steps: service.steps,
        within: service.within,
        backlog: found.backlog,
        delay: found.delay,
        queue,
        load,
        turns: 0,
        budget: None,
    }
}

/// The plan of a bus whose words come so and may wait so; nothing where something stands in the way.
fn plan_bus(
    bus: &Bus,
    arrivals: &Arrivals,
    most: &Busy,
    load: u64,
    knobs: &Knobs,
    obstacles: &mut Obstacles,
) -> Option<BusPlan> {
    let Some(service) = gentlest(arrivals, *most) else {
        tell_none(bus, arrivals, most, knobs, obstacles);
        return None;
    };
    let wished = quicker(service, knobs);
    if knobs.is_hard && wished.steps > MOST {
        tell_steps(bus, wished.steps, knobs, obstacles);
        return None;
    }
    let service = Service {
        steps: wished.steps.min(MOST),
        within: wished.within,
    };
    match least_window(arrivals, service, ANY) {
        Some(found) => Some(planned(bus, service, found, load, knobs)),
        None => {
            tell_none(bus, arrivals, most, knobs, obstacles);
            None
        }
    }
}

/// Adds the plan of each bus, in the order of the buses, by how its streams come and how late it may be, both in ticks; or
/// tells why none serves.
///
/// # Errors
///
/// Memory was refused.
pub fn plan_buses(
    alloc: Global,
    document: &Document,
    paces: &[Pace],
    wanted: &[u64],
    knobs: &Knobs,
    visits: &mut Visits,
    obstacles: &mut Obstacles,
) -> Result<(), AllocError> {
    let mut asked = Vec::new(alloc);
    for (number, bus) in document.buses.iter().enumerate() {
        asked.push(Asked {
            arrivals: Arrivals::of(alloc, document, bus, paces, knobs)?,
            most: Busy {
                backlog: share_of(bus.queue.unwrap_or(LONGEST_QUEUE), knobs.share),
                delay: wanted.get(number).copied().unwrap_or(1),
            },
            turns: 1,
        })?;
    }
    share_rounds(&document.buses, knobs, &mut asked);
    for (number, bus) in document.buses.iter().enumerate() {
        let Some(own) = asked.get(number) else {
            continue;
        };
        let load = load_of(document, bus, paces, knobs);
        let plan = match bus.task {
            Some(task) => {
                let round = round_of(&document.buses, &asked, number);
                plan_said(
                    bus,
                    own,
                    &budget_of(&task, knobs),
                    round,
                    load,
                    knobs,
                    obstacles,
                )
            }
            None => plan_bus(bus, &own.arrivals, &own.most, load, knobs, obstacles),
        };
        if let Some(plan) = plan {
            visits.buses.push(plan)?;
        }
    }
    Ok(())
}
