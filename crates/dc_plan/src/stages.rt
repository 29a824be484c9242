//! The stages of a plan: the lines of the first that has any are what stands in the way.
use crate::ages::{LabelPlan, age_all};
use dc_design_rows::Document;
use dc_plan_frames::{Frames, plan_output};
use dc_plan_ticks::{Knobs, Obstacles, Pace, limit_all, pace_all};
use dc_plan_visits::{Visits, plan_buses, plan_routers};
use std::alloc::{AllocError, Global};

/// The numbers of tables.
pub struct Plan {
    /// The length of a tick, in microseconds.
    pub tick: u64,
    /// How each stream comes, in the order of the document's streams.
    pub paces: Vec<Pace>,
    /// How the buses are visited.
    pub visits: Visits,
    /// The stale times and ages of the labels, in the order of [`Document::on_output`].
    pub labels: Vec<LabelPlan>,
    /// The frames of the outputs.
    pub frames: Frames,
}

// Dropped by one call, which is proved here and not in each crate that owns one.
impl Drop for Plan {
    fn drop(self) {
        let Plan {
            tick: _,
            paces: _,
            visits: _,
            labels: _,
            frames: _,
        } = self;
    }
}

/// Why there is no plan.
#[derive(Drop)]
pub enum Unplanned {
    /// Something stands in the way.
    Obstacles(Obstacles),
    /// Memory was refused.
    NoMemory,
}

impl Plan {
    /// A plan with ticks of this length in which nothing stands so far.
    pub(crate) fn new(alloc: Global, tick: u64) -> Plan {
        Plan {
            tick,
            paces: Vec::new(alloc),
            visits: Visits::new(alloc),
            labels: Vec::new(alloc),
            frames: Frames::new(alloc),
        }
    }

    /// The plan, where its stages had memory and nothing stands in the way.
    pub(crate) fn unless(self, is_whole: bool, obstacles: Obstacles) -> Result<Plan, Unplanned> {
        if !is_whole {
            return Err(Unplanned::NoMemory);
        }
        if obstacles.is_any() {
            return Err(Unplanned::Obstacles(obstacles));
        }
        Ok(self)
    }
}

/// The outputs with their labels; no frames where a timeout is not kept.
fn plan_outputs(
    alloc: Global,
    document: &Document,
    knobs: &Knobs,
    plan: &mut Plan,
    obstacles: &mut Obstacles,
) -> Result<(), AllocError> {
    for output in &document.outputs {
        age_all(
            document,
            output,
            &plan.visits.buses,
            &plan.paces,
            knobs,
            &mut plan.labels,
            obstacles,
        )?;
    }
    if obstacles.is_late {
        return Ok(());
    }
    for output in &document.outputs {
        plan_output(alloc, document, output, knobs, &mut plan.frames, obstacles)?;
    }
    Ok(())
}

/// How late the buses may be, and their visits.
fn plan_visits(
    alloc: Global,
    document: &Document,
    knobs: &Knobs,
    plan: &mut Plan,
    obstacles: &mut Obstacles,
) -> Result<(), AllocError> {
    let mut wanted = Vec::new(alloc);
    obstacles.stage = 2;
    limit_all(document, &plan.paces, knobs, &mut wanted, obstacles)?;
    if obstacles.is_any() {
        return Ok(());
    }
    obstacles.stage = 3;
    plan_buses(
        alloc,
        document,
        &plan.paces,
        &wanted,
        knobs,
        &mut plan.visits,
        obstacles,
    )
}

/// Goes through the stages until one has something in the way.
fn go_through(
    alloc: Global,
    document: &Document,
    knobs: &Knobs,
    plan: &mut Plan,
    obstacles: &mut Obstacles,
) -> Result<(), AllocError> {
    pace_all(document, knobs, &mut plan.paces, obstacles)?;
    if obstacles.is_any() {
        return Ok(());
    }
    plan_visits(alloc, document, knobs, plan, obstacles)?;
    if obstacles.is_any() {
        return Ok(());
    }
    obstacles.stage = 4;
    plan_outputs(alloc, document, knobs, plan, obstacles)?;
    plan_routers(alloc, document, &mut plan.visits, obstacles)
}

/// The numbers of tables for a document, or what stands in the way.
///
/// # Errors
///
/// The lines of the first stage that has any, or want of memory.
pub fn make_plan(alloc: Global, document: &Document, knobs: &Knobs) -> Result<Plan, Unplanned> {
    let mut obstacles = Obstacles::new(alloc, knobs.tick);
    let mut plan = Plan::new(alloc, knobs.tick);
    let is_whole = go_through(alloc, document, knobs, &mut plan, &mut obstacles).is_ok();
    plan.unless(is_whole, obstacles)
}
