//! The steady run: every actor makes its steps in each tick, and no word comes.

ghost use Rattle.std.specs.Prelude.{◌≡◌, ◌++◌, ◌<◌, length, IfOk, OnOk};
ghost use Rattle.dc_event.specs.Admissible.{IsAdmissible};
ghost use Rattle.dc_event.specs.Steady.{router_steps, output_steps, steady_tick, steady as steady_of};

use dc_event::Event;
use dc_event::laws::steady_admissible;
use dc_tables::Tables;
use std::alloc::{AllocError, Global};

/// Adds the steps of a router in one tick: as many as it may make.
fn push_router(run: &mut Vec<Event>, tables: &Tables, router: usize) -> Result<(), AllocError>
    requires { router < length tables.now.routers }
    ensures { OnOk result (run.new.items ≡ run.old.items ++ router_steps tables.now router) }
{
    for _step in 0..tables.router(router).most {
        run.push(Event::Route(router))?;
    }
    Ok(())
}

/// Adds the send of an output whose gap divides the tick.
fn push_output(
    run: &mut Vec<Event>,
    tables: &Tables,
    tick: u64,
    output: usize,
) -> Result<(), AllocError>
    requires { output < length tables.now.outputs }
    ensures { OnOk result (run.new.items ≡ run.old.items ++ output_steps tables.now tick output) }
{
    tables.valid();
    if tick % tables.output(output).gap as u64 == 0 {
        run.push(Event::Send(output))?;
    }
    Ok(())
}

/// Adds the events of a tick.
fn push_tick(run: &mut Vec<Event>, tables: &Tables, tick: u64) -> Result<(), AllocError>
    ensures { OnOk result (run.new.items ≡ run.old.items ++ steady_tick tables.now tick) }
{
    for router in 0..tables.router_count() {
        push_router(run, tables, router)?;
    }
    for output in 0..tables.output_count() {
        push_output(run, tables, tick, output)?;
    }
    run.push(Event::Tick)?;
    Ok(())
}

/// The events of so many ticks.
#[tactic(auto, unfolding(dc_event::specs::Steady::steady))]
fn steady_ticks(alloc: Global, tables: &Tables, ticks: u64) -> Result<Vec<Event>, AllocError>
    ensures { IfOk result (λ run. run.items ≡ steady_of tables.now ticks) }
{
    let mut run = Vec::new(alloc);
    for tick in 0..ticks {
        push_tick(&mut run, tables, tick)?;
    }
    Ok(run)
}

/// The steady run of so many ticks: in each every router makes as many steps as it may, an output sends where its gap
/// divides the tick, and no word comes. It is admissible.
///
/// # Errors
/// `AllocError` where an allocation failed.
pub fn steady(alloc: Global, tables: &Tables, ticks: u64) -> Result<Vec<Event>, AllocError>
    ensures run { IfOk result (λ run. run.items ≡ steady_of tables.now ticks) }
    ensures admissible { IfOk result (λ run. IsAdmissible tables.now run.items) }
{
    steady_admissible(tables);
    steady_ticks(alloc, tables, ticks)
}
