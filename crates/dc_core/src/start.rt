//! The state before any event.

ghost use Rattle.std.specs.Prelude.{◌≡◌, ℕ, ◌<◌, [], length, IfOk, None, false};
ghost use Rattle.dc_route.specs.Routing.{no_queue};
ghost use Rattle.dc_core.specs.Fresh.{fresh_queue, fresh_router, fresh_output, AllMade};
ghost use Rattle.dc_core.specs.States.{no_router, no_output};

use crate::states::{OutputState, RouterState};
use dc_queue::queue::WordQueue;
use dc_queue::window::StepWindow;
use dc_route::Router;
use dc_tables::Tables;
use std::alloc::{AllocError, Global};

/// An empty queue for each bus.
pub fn fresh_queues(alloc: Global, tables: &Tables) -> Result<Vec<WordQueue>, AllocError>
    ensures { IfOk result (λ v. AllMade (fresh_queue tables.now) no_queue (length tables.now.buses) v.items) }
{
    tables.valid();
    let mut queues = Vec::new(alloc);
    for b in 0..tables.bus_count() {
        let queue = WordQueue::new(alloc, tables.queue(b))?;
        queues.push(queue)?;
    }
    Ok(queues)
}

/// No bus has latched.
pub fn no_latches(alloc: Global, count: usize) -> Result<Vec<bool>, AllocError>
    ensures { IfOk result (λ v. AllMade (λ _. false) false count v.items) }
{
    let mut latched = Vec::new(alloc);
    for _bus in 0..count {
        latched.push(false)?;
    }
    Ok(latched)
}

/// No stream has sent.
pub fn no_paces(alloc: Global, count: usize) -> Result<Vec<u64>, AllocError>
    ensures { IfOk result (λ v. AllMade (λ _. 0) 0 count v.items) }
{
    let mut paces = Vec::new(alloc);
    for _stream in 0..count {
        paces.push(0)?;
    }
    Ok(paces)
}

/// Each router before its first step.
pub fn fresh_routers(alloc: Global, tables: &Tables) -> Result<Vec<RouterState>, AllocError>
    ensures { IfOk result (λ v. AllMade (fresh_router tables.now) no_router (length tables.now.routers) v.items) }
{
    tables.valid();
    let mut routers = Vec::new(alloc);
    for r in 0..tables.router_count() {
        let row = tables.router(r);
        let window = StepWindow::new(alloc, row.within, row.most)?;
        let router = Router::new(r);
        routers.push(RouterState { router, window })?;
    }
    Ok(routers)
}

/// Each output before its first send.
pub fn fresh_outputs(alloc: Global, tables: &Tables) -> Result<Vec<OutputState>, AllocError>
    ensures { IfOk result (λ v. AllMade (fresh_output tables.now) no_output (length tables.now.outputs) v.items) }
{
    tables.valid();
    let mut outputs = Vec::new(alloc);
    for o in 0..tables.output_count() {
        let window = StepWindow::new(alloc, tables.output(o).within, 1)?;
        outputs.push(OutputState {
            sent: 0,
            last: None,
            window,
        })?;
    }
    Ok(outputs)
}
