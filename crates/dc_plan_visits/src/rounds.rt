//! The visits of a router in turn.
use crate::visits::{Budget, BusPlan};
use dc_document::{MOST_STEPS, MOST_VISITS};
use dc_plan_ticks::up;
use std::alloc::AllocError;

/// The most steps in a tick.
const MOST: u64 = MOST_STEPS as u64;

/// The most visits of a round.
const VISITS: u64 = MOST_VISITS as u64;

/// So many steps in each so many ticks, and the most in one.
#[derive(Clone, Copy)]
pub(crate) struct Round {
    pub(crate) steps: u64,
    pub(crate) within: u64,
    pub(crate) most: u64,
}

/// A round of so many steps: at most twice what it must make in a tick, so that a late router catches up.
fn round_of(steps: u64, within: u64) -> Round {
    Round {
        steps,
        within,
        most: up(steps, within).saturating_mul(2).min(MOST),
    }
}

/// What the task of a router surely does, where the rows say so.
fn budget_in(buses: &[BusPlan], group: &[usize]) -> Option<Budget> {
    let number = group.first().copied()?;
    match buses.get(number) {
        Some(bus) => bus.budget,
        None => None,
    }
}

/// How many visits of a bus a round has that is made so many times.
fn turns_in(bus: &BusPlan, rounds: u64) -> u64 {
    if bus.turns > 0 {
        bus.turns
    } else {
        up(bus.steps, rounds)
    }
}

/// How many visits a round has that is made so many times.
fn visits_in(buses: &[BusPlan], group: &[usize], rounds: u64) -> u64 {
    let mut visits = 0u64;
    for number in group {
        if let Some(bus) = buses.get(*number) {
            visits = visits.saturating_add(up(bus.steps, rounds));
        }
    }
    visits
}

/// How many times a round is made, the least with which its visits have room.
fn rounds_of(buses: &[BusPlan], group: &[usize]) -> u64 {
    for rounds in 1..MOST {
        if visits_in(buses, group, rounds) <= VISITS {
            return rounds;
        }
    }
    MOST
}

/// The least number of ticks of the buses of a router.
pub(crate) fn shortest_within(buses: &[BusPlan], group: &[usize]) -> u64 {
    let mut within = u64::MAX;
    for number in group {
        if let Some(bus) = buses.get(*number) {
            within = within.min(bus.within);
        }
    }
    within
}

/// Deals the visits of a round out, one of each bus in turn until all are dealt.
fn deal(
    buses: &[BusPlan],
    group: &[usize],
    rounds: u64,
    turns: &mut Vec<usize>,
) -> Result<(), AllocError> {
    for turn in 0..VISITS {
        for number in group {
            if let Some(bus) = buses.get(*number) {
                if turn < turns_in(bus, rounds) {
                    turns.push(*number)?;
                }
            }
        }
    }
    Ok(())
}

/// The round of a router that visits these buses, whose turns are added to the others; nothing where they have no room.
pub(crate) fn round_for(
    buses: &[BusPlan],
    group: &[usize],
    turns: &mut Vec<usize>,
) -> Result<Option<Round>, AllocError> {
    if let Some(budget) = budget_in(buses, group) {
        deal(buses, group, 1, turns)?;
        return Ok(Some(Round {
            steps: budget.steps,
            within: budget.within,
            most: budget.most,
        }));
    }
    if let [number] = group {
        turns.push(*number)?;
        return Ok(match buses.get(*number) {
            Some(bus) => Some(round_of(bus.steps, bus.within)),
            None => None,
        });
    }
    let rounds = rounds_of(buses, group);
    let count = visits_in(buses, group, rounds);
    let steps = rounds.saturating_mul(count);
    if steps > MOST || count > VISITS {
        return Ok(None);
    }
    deal(buses, group, rounds, turns)?;
    Ok(Some(round_of(steps, shortest_within(buses, group))))
}
