//! The routers: one for each bus, or for each name of the column.
use crate::rounds::{round_for, shortest_within};
use crate::visits::{BusPlan, RouterPlan, Visits};
use dc_design_rows::{Bus, Document, Fact, Letters, Span};
use dc_document::{MOST_STEPS, MOST_VISITS, NAME_LIMIT};
use dc_plan_ticks::Obstacles;
use std::alloc::{AllocError, Global};

/// Whether this name stands among some.
fn is_among(names: &[Letters], name: &Letters) -> bool {
    for other in names {
        if other == name {
            return true;
        }
    }
    false
}

/// The names of routers that the rows say.
fn said_names(document: &Document, names: &mut Vec<Letters>) -> Result<(), AllocError> {
    for bus in &document.buses {
        if let Some(name) = bus.router {
            names.push(name)?;
        }
    }
    Ok(())
}

/// The name with this number.
fn numbered(number: usize) -> Letters {
    let mut name = Letters::of(b"R");
    if number >= 100 {
        name.add_digit((number / 100) as u64);
    }
    if number >= 10 {
        name.add_digit((number / 10) as u64);
    }
    name.add_digit(number as u64);
    name
}

/// A name for the router of a bus, which no other has.
fn name_for(bus: &Bus, taken: &[Letters]) -> Letters {
    let mut name = Letters::of(b"R-");
    name.add(bus.name.text());
    if name.len() <= NAME_LIMIT && !is_among(taken, &name) {
        return name;
    }
    for number in 0..taken.len() {
        let other = numbered(number);
        if !is_among(taken, &other) {
            return other;
        }
    }
    numbered(taken.len())
}

/// The name of the router of each bus.
fn name_all(
    document: &Document,
    names: &mut Vec<Letters>,
    taken: &mut Vec<Letters>,
) -> Result<(), AllocError> {
    said_names(document, taken)?;
    for bus in &document.buses {
        let name = match bus.router {
            Some(name) => name,
            None => name_for(bus, taken),
        };
        taken.push(name)?;
        names.push(name)?;
    }
    Ok(())
}

/// Whether a bus is the first one of its router.
fn is_first(names: &[Letters], number: usize, name: &Letters) -> bool {
    for (other, own) in names.iter().enumerate() {
        if other >= number {
            return true;
        }
        if own == name {
            return false;
        }
    }
    true
}

/// Lists the buses of a router.
fn list_buses(names: &[Letters], name: &Letters, group: &mut Vec<usize>) -> Result<(), AllocError> {
    group.truncate(0);
    for (number, own) in names.iter().enumerate() {
        if own == name {
            group.push(number)?;
        }
    }
    Ok(())
}

/// Tells that the buses of a router want too much.
fn tell_full(name: Letters, count: usize, within: u64, obstacles: &mut Obstacles) {
    obstacles.lines.begin("");
    obstacles.lines.say(
        "router {}: its {} buses want more than {} steps in {} ticks, ",
        &[
            Fact::Name(name),
            Fact::Number(count as u64),
            Fact::Number(u64::from(MOST_STEPS)),
            Fact::Number(within),
        ],
    );
    obstacles.lines.line(
        "or {} visits (T06, T08); part its buses between two routers",
        &[Fact::Number(MOST_VISITS as u64)],
    );
}

/// The router of this name, whose visits are added to the others; nothing where its buses want too much.
fn plan_router(
    buses: &[BusPlan],
    name: Letters,
    group: &[usize],
    turns: &mut Vec<usize>,
    obstacles: &mut Obstacles,
) -> Result<Option<RouterPlan>, AllocError> {
    let first = turns.len();
    let Some(round) = round_for(buses, group, turns)? else {
        tell_full(name, group.len(), shortest_within(buses, group), obstacles);
        return Ok(None);
    };
    Ok(Some(RouterPlan {
        name,
        steps: round.steps,
        within: round.within,
        most: round.most,
        turns: Span {
            first,
            end: turns.len(),
        },
    }))
}

/// Adds the router of each name; the first one whose buses want too much is told.
fn add_routers(
    names: &[Letters],
    group: &mut Vec<usize>,
    visits: &mut Visits,
    obstacles: &mut Obstacles,
) -> Result<(), AllocError> {
    for (number, name) in names.iter().enumerate() {
        if !is_first(names, number, name) {
            continue;
        }
        list_buses(names, name, group)?;
        match plan_router(&visits.buses, *name, group, &mut visits.turns, obstacles)? {
            Some(router) => visits.routers.push(router)?,
            None => return Ok(()),
        }
    }
    Ok(())
}

/// Adds the routers of buses whose visits are planned, one for each bus or for each name of the column; the first one whose
/// buses want too much is told.
///
/// # Errors
///
/// Memory was refused.
pub fn plan_routers(
    alloc: Global,
    document: &Document,
    visits: &mut Visits,
    obstacles: &mut Obstacles,
) -> Result<(), AllocError> {
    let mut names = Vec::new(alloc);
    let mut taken = Vec::new(alloc);
    let mut group = Vec::new(alloc);
    match name_all(document, &mut names, &mut taken) {
        Ok(()) => add_routers(&names, &mut group, visits, obstacles),
        Err(error) => Err(error),
    }
}
