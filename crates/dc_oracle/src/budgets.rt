//! Whether actors keep their budgets.

ghost use Rattle.std.specs.Prelude.{◌≡◌, ℕ, ◌+◌, ◌-◌, ◌<◌, ◌≤◌, ◌^◌, List, [], length, IfOk};
ghost use Rattle.dc_oracle.specs.Fresh.{AllMade};
ghost use Rattle.dc_oracle.specs.Budgets.{last_steps, router_room, output_room, no_steps};
ghost use Rattle.dc_event.specs.Breaks.{BreaksBudgetsAt};

use crate::recent::Recent;
use dc_event::Event;
use dc_tables::Tables;
use std::alloc::{AllocError, Global};

/// What the actors have done last: the ticks of each router's last steps and of each output's last sends.
#[derive(Drop)]
pub struct BudgetWatch {
    tick: u64,
    routers: Vec<Recent>,
    outputs: Vec<Recent>,
}

/// No steps of any router.
fn no_router_steps(alloc: Global, tables: &Tables) -> Result<Vec<Recent>, AllocError>
    ensures { IfOk result (λ v. AllMade (λ r. last_steps (router_room tables.now r) []) no_steps (length tables.now.routers) v.items) }
{
    let mut routers = Vec::new(alloc);
    for router in 0..tables.router_count() {
        let row = tables.router(router);
        routers.push(Recent::new(alloc, row.steps.max(row.most))?)?;
    }
    Ok(routers)
}

/// No sends of any output.
fn no_output_steps(alloc: Global, tables: &Tables) -> Result<Vec<Recent>, AllocError>
    ensures { IfOk result (λ v. AllMade (λ o. last_steps (output_room tables.now o) []) no_steps (length tables.now.outputs) v.items) }
{
    let mut outputs = Vec::new(alloc);
    for output in 0..tables.output_count() {
        let row = tables.output(output);
        outputs.push(Recent::new(alloc, row.steps)?)?;
    }
    Ok(outputs)
}

impl BudgetWatch {
    ghost use Rattle.dc_oracle.specs.Budgets.{IsSized, Watches, Seen, RoutersLack, OutputsLack};
    ghost use Rattle.dc_event.specs.declared.event.Event.{Event};

    /// Before any event.
    pub fn new(alloc: Global, tables: &Tables) -> Result<BudgetWatch, AllocError>
        ensures sized { IfOk result (λ w. IsSized tables.now w) }
        ensures tick { IfOk result (λ w. w.tick ≡ 0) }
        ensures watches { IfOk result (λ w. Watches tables.now w []) }
    {
        tables.valid();
        Ok(BudgetWatch {
            tick: 0,
            routers: no_router_steps(alloc, tables)?,
            outputs: no_output_steps(alloc, tables)?,
        })
    }

    /// A router makes a step. Whether the tick has room for it.
    fn route(&mut self, tables: &Tables, router: usize) -> bool
        requires sized { IsSized tables.now self.old }
        ensures sized { IsSized tables.now self.new }
        ensures tick { self.new.tick ≡ self.old.tick }
        ensures seen { (run : List Event) → Watches tables.now self.old run → Seen tables.now self.new run (Event.Route router) result }
    {
        tables.valid();
        if router >= self.routers.len() {
            return true;
        }
        let most = tables.router(router).most;
        if self.routers[router].holds(most, 1, self.tick) {
            return false;
        }
        self.routers[router].add(self.tick);
        true
    }

    /// An output makes a send step. Whether its gap is over.
    fn send(&mut self, tables: &Tables, output: usize) -> bool
        requires sized { IsSized tables.now self.old }
        ensures sized { IsSized tables.now self.new }
        ensures tick { self.new.tick ≡ self.old.tick }
        ensures seen { (run : List Event) → Watches tables.now self.old run → Seen tables.now self.new run (Event.Send output) result }
    {
        tables.valid();
        if output >= self.outputs.len() {
            return true;
        }
        let gap = tables.output(output).gap;
        if self.outputs[output].holds(1, gap, self.tick) {
            return false;
        }
        self.outputs[output].add(self.tick);
        true
    }

    /// Whether some router lacks steps at the end of the tick.
    fn router_lacks(&self, tables: &Tables) -> bool
        requires { IsSized tables.now self.now }
        ensures { RoutersLack tables.now self.now result }
    {
        tables.valid();
        for r in 0..self.routers.len() {
            let row = tables.router(r);
            if self.routers[r].lacks(row.steps, row.within, self.tick) {
                return true;
            }
        }
        false
    }

    /// Whether some output lacks sends at the end of the tick.
    fn output_lacks(&self, tables: &Tables) -> bool
        requires { IsSized tables.now self.now }
        ensures { OutputsLack tables.now self.now result }
    {
        tables.valid();
        for o in 0..self.outputs.len() {
            let row = tables.output(o);
            if self.outputs[o].lacks(row.steps, row.within, self.tick) {
                return true;
            }
        }
        false
    }

    /// The tick ends. Whether each actor has made its steps.
    fn turn(&mut self, tables: &Tables) -> bool
        requires sized { IsSized tables.now self.old }
        requires early { self.old.tick < 2 ^ 64 - 1 }
        ensures sized { IsSized tables.now self.new }
        ensures tick { self.new.tick ≤ self.old.tick + 1 }
        ensures seen { (run : List Event) → Watches tables.now self.old run → Seen tables.now self.new run Event.Tick result }
    {
        tables.valid();
        if self.router_lacks(tables) {
            return false;
        }
        if self.output_lacks(tables) {
            return false;
        }
        self.tick += 1;
        true
    }

    /// Whether the run with this event keeps the budgets, where the run before it does.
    pub fn see(&mut self, tables: &Tables, event: Event) -> bool
        requires sized { IsSized tables.now self.old }
        requires early { self.old.tick < 2 ^ 64 - 1 }
        ensures sized { IsSized tables.now self.new }
        ensures tick { self.new.tick ≤ self.old.tick + 1 }
        ensures seen { (run : List Event) → Watches tables.now self.old run → Seen tables.now self.new run event result }
    {
        match event {
            Event::Arrive(_, _) => true,
            Event::Route(router) => self.route(tables, router),
            Event::Send(output) => self.send(tables, output),
            Event::Tick => self.turn(tables),
        }
    }
}

/// The first event, counted from 1, at which the run breaks the budgets: a step too many of a router in a tick, a send
/// within an output's gap, or a Tick before an actor has made its steps. `None` where it keeps them.
///
/// # Errors
/// `AllocError` where an allocation failed.
pub fn keeps_budgets(
    alloc: Global,
    tables: &Tables,
    run: &[Event],
) -> Result<Option<usize>, AllocError>
    ensures { IfOk result (BreaksBudgetsAt tables.now run.now) }
{
    let mut watch = BudgetWatch::new(alloc, tables)?;
    for (i, event) in run.iter().enumerate() {
        if !watch.see(tables, *event) {
            return Ok(Some(i + 1));
        }
    }
    Ok(None)
}
