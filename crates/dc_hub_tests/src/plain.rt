//! Budgets beside a plain program, which keeps every step of a run and counts anew.

use crate::steps::one_bus;
use dc_event::Event;
use dc_oracle::{keeps_budgets, steady};
use dc_tables::Tables;
use std::alloc::{AllocError, Global};
use std::process::Abort;
use std::rt::HostRuntime;
use std::test::Fail;

/// The ticks of all steps of each router and of each output.
#[derive(Drop)]
struct Histories {
    tick: u64,
    routers: Vec<Vec<u64>>,
    outputs: Vec<Vec<u64>>,
}

/// So many histories of nothing.
fn no_histories(alloc: Global, count: usize) -> Result<Vec<Vec<u64>>, AllocError> {
    let mut histories = Vec::new(alloc);
    for _ in 0..count {
        histories.push(Vec::new(alloc))?;
    }
    Ok(histories)
}

/// Whether the last `window` ticks up to this one hold at least `count` of these.
fn holds(ticks: &[u64], count: u32, window: u32, tick: u64) -> bool {
    let mut found = 0u32;
    for at in ticks {
        if at.saturating_add(u64::from(window)) > tick {
            found = found.saturating_add(1);
        }
    }
    found >= count
}

/// Whether `within` ticks are over at the end of this one, and the last of them hold fewer than `steps`.
fn lacks(ticks: &[u64], steps: u32, within: u32, tick: u64) -> bool {
    tick.saturating_add(1) >= u64::from(within) && !holds(ticks, steps, within, tick)
}

/// Adds a step to a history, unless the last `window` ticks have `most` of them. Whether it was added.
fn step(history: Option<&mut Vec<u64>>, most: u32, window: u32, tick: u64) -> Result<bool, Fail> {
    let Some(history) = history else {
        return Ok(true);
    };
    if holds(history, most, window, tick) {
        return Ok(false);
    }
    history.push(tick)?;
    Ok(true)
}

impl Histories {
    /// The tick ends. Whether each actor has made its steps.
    fn turn(&mut self, tables: &Tables) -> bool {
        let tick = self.tick;
        for (number, history) in self.routers.iter().enumerate() {
            if number < tables.router_count() {
                let row = tables.router(number);
                if lacks(history, row.steps, row.within, tick) {
                    return false;
                }
            }
        }
        for (number, history) in self.outputs.iter().enumerate() {
            if number < tables.output_count() {
                let row = tables.output(number);
                if lacks(history, row.steps, row.within, tick) {
                    return false;
                }
            }
        }
        self.tick = tick.saturating_add(1);
        true
    }

    /// Whether the run with this event keeps the budgets, where the run before it does.
    fn see(&mut self, tables: &Tables, event: &Event) -> Result<bool, Fail> {
        match *event {
            Event::Arrive(_, _) => Ok(true),
            Event::Route(router) if router < tables.router_count() => {
                let most = tables.router(router).most;
                step(self.routers.get_mut(router), most, 1, self.tick)
            }
            Event::Send(output) if output < tables.output_count() => {
                let gap = tables.output(output).gap;
                step(self.outputs.get_mut(output), 1, gap, self.tick)
            }
            Event::Route(_) | Event::Send(_) => Ok(true),
            Event::Tick => Ok(self.turn(tables)),
        }
    }
}

/// The first event, counted from 1, at which a run breaks the budgets.
fn first_break(alloc: Global, tables: &Tables, run: &[Event]) -> Result<Option<usize>, Fail> {
    let mut histories = Histories {
        tick: 0,
        routers: no_histories(alloc, tables.router_count())?,
        outputs: no_histories(alloc, tables.output_count())?,
    };
    let mut place = 0usize;
    for event in run {
        place = place.saturating_add(1);
        if !histories.see(tables, event)? {
            return Ok(Some(place));
        }
    }
    Ok(None)
}

/// The run, with the event of this place so many times.
fn altered(alloc: Global, run: &[Event], place: usize, times: usize) -> Result<Vec<Event>, Fail> {
    let mut events = Vec::new(alloc);
    for (at, event) in run.iter().enumerate() {
        let count = if at == place { times } else { 1 };
        for _ in 0..count {
            events.push(*event)?;
        }
    }
    Ok(events)
}

/// Both programs answer the same to a run.
fn are_alike<R: Abort>(
    rt: &R,
    alloc: Global,
    tables: &Tables,
    run: &[Event],
) -> Result<bool, Fail> {
    let place = first_break(alloc, tables, run)?;
    assert!(rt; keeps_budgets(alloc, tables, run)? == place);
    Ok(place.is_some())
}

/// The same of a run in which the event of this place is made so many times.
fn altered_alike<R: Abort>(
    rt: &R,
    alloc: Global,
    tables: &Tables,
    run: &[Event],
    (place, times): (usize, usize),
) -> Result<bool, Fail> {
    let events = altered(alloc, run, place, times)?;
    are_alike(rt, alloc, tables, &events)
}

/// How many of the runs break a budget in which one event is left out or made three times.
fn broken_runs<R: Abort>(
    rt: &R,
    alloc: Global,
    tables: &Tables,
    run: &[Event],
) -> Result<usize, Fail> {
    let mut broken = 0usize;
    for place in 0..run.len() {
        let left_out = altered_alike(rt, alloc, tables, run, (place, 0))?;
        let made_thrice = altered_alike(rt, alloc, tables, run, (place, 3))?;
        broken = broken
            .saturating_add(usize::from(left_out))
            .saturating_add(usize::from(made_thrice));
    }
    Ok(broken)
}

/// Of a steady run, and of those in which one event is left out or made three times.
fn judged_alike<R: Abort>(rt: &R, alloc: Global, tables: &Tables) -> Result<(), Fail> {
    let run = steady(alloc, tables, 24)?;
    assert!(rt; !are_alike(rt, alloc, tables, &run)?);
    assert!(rt; broken_runs(rt, alloc, tables, &run)? > 24);
    Ok(())
}

#[test]
fn budgets_are_judged_as_a_plain_program_does(rt: HostRuntime) -> Result<(), Fail> {
    let tables = one_bus(rt.alloc())?;
    judged_alike(&rt, rt.alloc(), &tables)
}
