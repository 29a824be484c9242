//! Visits by tasks that do what the rows say.
use crate::arrivals::Arrivals;
use crate::buses::{begin, planned};
use crate::busy::{ANY, Busy, Service, least_window};
use crate::visits::{Budget, BusPlan};
use dc_design_rows::{Bus, Fact, Task};
use dc_document::{MOST_STEPS, MOST_VISITS};
use dc_plan_ticks::{Knobs, Obstacles, part, up, whole_of};

/// The most steps in a tick.
const MOST: u64 = MOST_STEPS as u64;

/// The most visits of a round.
const VISITS: usize = MOST_VISITS;

/// What comes to a bus, how much of it may wait and for how long, and how often it is visited in a round of its router.
#[derive(Drop)]
pub(crate) struct Asked {
    pub(crate) arrivals: Arrivals,
    pub(crate) most: Busy,
    pub(crate) turns: u64,
}

/// How many visits the round of a router has, and of how many buses.
#[derive(Clone, Copy)]
pub(crate) struct Round {
    visits: u64,
    buses: u64,
}

/// What a task surely does in ticks, less the headroom.
pub(crate) fn budget_of(task: &Task, knobs: &Knobs) -> Budget {
    let runs = up(knobs.tick, task.within);
    Budget {
        steps: task.steps,
        within: whole_of(up(task.within, knobs.tick), knobs.share),
        most: task.steps.saturating_mul(runs).saturating_mul(2).min(MOST),
    }
}

/// How a bus is visited that has so many of the visits of a round: in whole rounds.
fn service_of(budget: &Budget, turns: u64, visits: u64) -> Service {
    let rounds = part(budget.steps, visits);
    if rounds > 0 {
        Service {
            steps: rounds.saturating_mul(turns),
            within: budget.within,
        }
    } else {
        Service {
            steps: turns,
            within: up(visits, budget.steps).saturating_mul(budget.within),
        }
    }
}

/// Whether a bus has the router of another one: its name, or it is that bus.
fn is_of_router(buses: &[Bus], number: usize, other: usize) -> bool {
    if number == other {
        return true;
    }
    let Some(one) = buses.get(number) else {
        return false;
    };
    let Some(bus) = buses.get(other) else {
        return false;
    };
    let Some(name) = one.router else {
        return false;
    };
    match bus.router {
        Some(router) => router == name,
        None => false,
    }
}

/// The round of the router of a bus.
pub(crate) fn round_of(buses: &[Bus], asked: &[Asked], number: usize) -> Round {
    let mut round = Round {
        visits: 0,
        buses: 0,
    };
    for (other, own) in asked.iter().enumerate() {
        if is_of_router(buses, number, other) {
            round.visits = round.visits.saturating_add(own.turns);
            round.buses = round.buses.saturating_add(1);
        }
    }
    round
}

/// What waits on a bus that is visited so; nothing where it is more, or waits longer, than is allowed. Where on the average as much
/// comes as is taken no window closes, and none is looked for.
fn waits(own: &Asked, service: Service, most: Busy) -> Option<Busy> {
    if own.arrivals.rate() >= service.rate() {
        return None;
    }
    least_window(&own.arrivals, service, most)
}

/// Whether a bus waits too long with its visits in a round of so many.
fn is_late(own: &Asked, budget: &Budget, visits: u64) -> bool {
    waits(own, service_of(budget, own.turns, visits), own.most).is_none()
}

/// The first bus of the router of a bus that waits too long.
fn first_late(buses: &[Bus], asked: &[Asked], number: usize, budget: &Budget) -> Option<usize> {
    let round = round_of(buses, asked, number);
    for (other, own) in asked.iter().enumerate() {
        if is_of_router(buses, number, other) && is_late(own, budget, round.visits) {
            return Some(other);
        }
    }
    None
}

/// Whether on the average as much comes to the buses of the router of a bus as its task takes.
fn is_flooded(buses: &[Bus], asked: &[Asked], number: usize, budget: &Budget) -> bool {
    let task = Service {
        steps: budget.steps,
        within: budget.within,
    };
    let mut words = 0u64;
    for (other, own) in asked.iter().enumerate() {
        if is_of_router(buses, number, other) {
            words = words.saturating_add(own.arrivals.rate());
        }
    }
    words >= task.rate()
}

/// Visits each bus of the router of a bus once in a round.
fn visit_once(buses: &[Bus], asked: &mut [Asked], number: usize) {
    for other in 0..asked.len() {
        if is_of_router(buses, number, other) {
            if let Some(own) = asked.get_mut(other) {
                own.turns = 1;
            }
        }
    }
}

/// Deals out the round of the router of a bus: who waits too long is visited once more, until none does. Where the round is full
/// before that, each is visited once.
fn share_round(buses: &[Bus], asked: &mut [Asked], number: usize, budget: &Budget) {
    let first = round_of(buses, asked, number);
    if first.buses < 2 || is_flooded(buses, asked, number, budget) {
        return;
    }
    let visits = first.visits as usize;
    for _ in visits..VISITS {
        let Some(late) = first_late(buses, asked, number, budget) else {
            return;
        };
        if let Some(own) = asked.get_mut(late) {
            own.turns = own.turns.saturating_add(1);
        }
    }
    if first_late(buses, asked, number, budget).is_some() {
        visit_once(buses, asked, number);
    }
}

/// Whether a bus is the first one of its router.
fn is_first(buses: &[Bus], number: usize) -> bool {
    for other in 0..number {
        if is_of_router(buses, number, other) {
            return false;
        }
    }
    true
}

/// Deals out the rounds of all routers of whose tasks the rows say what they do.
pub(crate) fn share_rounds(buses: &[Bus], knobs: &Knobs, asked: &mut [Asked]) {
    for (number, bus) in buses.iter().enumerate() {
        if let Some(task) = bus.task {
            if is_first(buses, number) {
                share_round(buses, asked, number, &budget_of(&task, knobs));
            }
        }
    }
}

/// Tells why the visits that a task surely makes are too few for a bus.
fn tell_few(own: &Asked, service: Service, knobs: &Knobs, obstacles: &mut Obstacles) {
    let Some(best) = waits(own, service, ANY) else {
        return obstacles
            .lines
            .say("more words may come than are taken (F1); ", &[]);
    };
    if best.backlog > own.most.backlog {
        return obstacles.lines.say(
            "up to {} words wait, and its queue may take {}{} (C05); ",
            &[
                Fact::Number(best.backlog),
                Fact::Number(own.most.backlog),
                Fact::Word(knobs.with_headroom()),
            ],
        );
    }
    obstacles.lines.say(
        if knobs.is_prompt {
            "words wait {} ticks, {} are left by the ages and timeouts{} (C06, C11, C12); "
        } else {
            "words wait {} ticks, {} are left by the ages{} (C06, C11); "
        },
        &[
            Fact::Number(best.delay),
            Fact::Number(own.most.delay),
            Fact::Word(knobs.with_headroom()),
        ],
    );
}

/// Tells that the task of a bus does too little for it.
fn tell_said(
    bus: &Bus,
    own: &Asked,
    service: Service,
    round: Round,
    knobs: &Knobs,
    obstacles: &mut Obstacles,
) {
    begin(bus, obstacles);
    obstacles.lines.say(
        "visited {} {} in {} ticks by its task, ",
        &[
            Fact::Number(service.steps),
            Fact::Word(if service.steps == 1 { "time" } else { "times" }),
            Fact::Number(service.within),
        ],
    );
    tell_few(own, service, knobs, obstacles);
    obstacles.lines.line(
        if round.buses < 2 {
            "more steps of its task, or a shorter within{}{}"
        } else {
            "this is no proof that there are no better visits: more steps of its task, a shorter within, or a task of its own{}{}"
        },
        &[Fact::Word(knobs.freer()), Fact::Word(knobs.shorter)],
    );
}

/// The plan of a bus whose task does what the rows say; nothing where that is too little.
pub(crate) fn plan_said(
    bus: &Bus,
    own: &Asked,
    budget: &Budget,
    round: Round,
    load: u64,
    knobs: &Knobs,
    obstacles: &mut Obstacles,
) -> Option<BusPlan> {
    let service = service_of(budget, own.turns, round.visits);
    match waits(own, service, own.most) {
        Some(found) => Some(BusPlan {
            turns: own.turns,
            budget: Some(*budget),
            ..planned(bus, service, found, load, knobs)
        }),
        None => {
            tell_said(bus, own, service, round, knobs, obstacles);
            None
        }
    }
}
