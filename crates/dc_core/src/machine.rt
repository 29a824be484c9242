//! The state, and what each kind of event makes of it.

ghost use Rattle.std.specs.Prelude.{◌≡◌, ℕ, ◌+◌, ◌<◌, ◌≤◌, ◌^◌, [], ◌∷◌, ◌++◌, length, List, OnErr, slice_index_or, MatchOption, EachIndex, IfOk, true, false};
ghost use Rattle.dc_core.specs.Standing.{refuses_early_now, paces_after};
ghost use Rattle.dc_event.specs.Replies.{reply};
ghost use Rattle.dc_core.specs.Lacking.{too_soon};
ghost use Rattle.dc_core.specs.States.{no_router, no_output, router_turned, output_turned};
ghost use Rattle.dc_transmit.specs.declared.limits.TheConstants.{LAST_TICK};

use crate::fault::StepFault;
use crate::start::{fresh_outputs, fresh_queues, fresh_routers, no_latches, no_paces};
use crate::states::{OutputState, RouterState, receive, visit_reply};
use dc_event::{Actor, Event, Reply};
use dc_queue::queue::WordQueue;
use dc_route::{Latest, choose};
use dc_tables::Tables;
use dc_transmit::{LAST_TICK, Schedule};
use dc_word::Word;
use std::alloc::{AllocError, Global};

/// The state of the concentrator, without its tables, which each call is lent.
#[derive(Drop)]
pub struct State {
    tick: u64,
    queues: Vec<WordQueue>,
    latched: Vec<bool>,
    paces: Vec<u64>,
    latest: Latest,
    routers: Vec<RouterState>,
    outputs: Vec<OutputState>,
}

impl State {
    ghost use Rattle.dc_core.specs.Steps.{IsSized, StandsFor, StepsTo};
    ghost use Rattle.dc_core.specs.Lacking.{NoneLacks, FirstLacks};
    ghost use Rattle.dc_event.specs.declared.event.Event.{Event};

    /// The state before any event.
    ///
    /// # Errors
    /// `AllocError` where an allocation failed.
    pub fn new(alloc: Global, tables: &Tables) -> Result<State, AllocError>
        ensures sized { IfOk result (λ s. IsSized tables.now s) }
        ensures stands { IfOk result (λ s. StandsFor tables.now s []) }
    {
        tables.valid();
        Ok(State {
            tick: 0,
            queues: fresh_queues(alloc, tables)?,
            latched: no_latches(alloc, tables.bus_count())?,
            paces: no_paces(alloc, tables.stream_count())?,
            latest: Latest::new(alloc, tables)?,
            routers: fresh_routers(alloc, tables)?,
            outputs: fresh_outputs(alloc, tables)?,
        })
    }

    /// A word arrives.
    fn arrive(&mut self, tables: &Tables, bus: usize, word: Word) -> Result<Reply, StepFault>
        requires sized { IsSized tables.now self.old }
        ensures sized { IsSized tables.now self.new }
        ensures err { OnErr result (self.new ≡ self.old) }
        ensures step { (run : List Event) → StandsFor tables.now self.old run → StepsTo tables.now self.new run (Event.Arrive word bus) result }
    {
        if bus >= self.queues.len() {
            return Err(StepFault::Unknown);
        }
        if !word.is_odd() {
            return Ok(Reply::BadParity);
        }
        let Some(stream) = tables.stream_of(bus, word) else {
            return Ok(Reply::Undeclared);
        };
        tables.valid();
        if refuses_early(tables, &mut self.paces, self.tick, bus, stream) {
            return Ok(Reply::TooEarly);
        }
        let queue = &mut self.queues[bus];
        let latched = &mut self.latched[bus];
        Ok(receive(queue, latched, word))
    }

    /// A router makes a step.
    fn route(&mut self, tables: &Tables, router: usize) -> Result<Reply, StepFault>
        requires sized { IsSized tables.now self.old }
        ensures sized { IsSized tables.now self.new }
        ensures err { OnErr result (self.new ≡ self.old) }
        ensures step { (run : List Event) → StandsFor tables.now self.old run → StepsTo tables.now self.new run (Event.Route router) result }
    {
        if router >= self.routers.len() {
            return Err(StepFault::Unknown);
        }
        if self.routers[router].window.is_spent() {
            return Err(StepFault::Spent);
        }
        let actor = &mut self.routers[router];
        let (bus, taken) = actor.step(tables, &mut self.queues, &mut self.latest, self.tick);
        Ok(visit_reply(bus, taken))
    }

    /// An output makes a send step.
    fn send(&mut self, tables: &Tables, output: usize) -> Result<Reply, StepFault>
        requires sized { IsSized tables.now self.old }
        ensures sized { IsSized tables.now self.new }
        ensures err { OnErr result (self.new ≡ self.old) }
        ensures step { (run : List Event) → StandsFor tables.now self.old run → StepsTo tables.now self.new run (Event.Send output) result }
    {
        tables.valid();
        if output >= self.outputs.len() {
            return Err(StepFault::Unknown);
        }
        let gap = tables.output(output).gap as u64;
        if is_soon(gap, self.tick, self.outputs[output].last) {
            return Err(StepFault::TooSoon);
        }
        if self.outputs[output].window.is_spent() {
            return Err(StepFault::TooSoon);
        }
        let schedule = Schedule::of(tables, output);
        let sent = self.outputs[output].sent;
        let due = schedule.due_by(self.tick);
        if sent >= due {
            self.outputs[output].send(self.tick, false);
            return Ok(Reply::Idle);
        }
        let (label, _due_tick) = schedule.next(sent);
        let word = choose(tables, &self.latest, &self.latched, label, self.tick);
        self.outputs[output].send(self.tick, true);
        Ok(Reply::Sent(tables.label(label).label, word))
    }

    /// The first actor, routers before outputs, that lacks steps for a Tick.
    fn lacking(&self, tables: &Tables) -> Option<Actor>
        requires sized { IsSized tables.now self.now }
        ensures { MatchOption result (NoneLacks tables.now self.now.routers.items self.now.outputs.items)
            (λ a. FirstLacks tables.now self.now.routers.items self.now.outputs.items a) }
    {
        for r in 0..self.routers.len() {
            if self.routers[r].window.lacks(tables.router(r).steps) {
                return Some(Actor::Router(r));
            }
        }
        for o in 0..self.outputs.len() {
            if self.outputs[o].window.lacks(tables.output(o).steps) {
                return Some(Actor::Output(o));
            }
        }
        None
    }

    /// The tick ends.
    fn end_tick(&mut self, tables: &Tables) -> Result<Reply, StepFault>
        requires sized { IsSized tables.now self.old }
        ensures sized { IsSized tables.now self.new }
        ensures err { OnErr result (self.new ≡ self.old) }
        ensures step { (run : List Event) → StandsFor tables.now self.old run → StepsTo tables.now self.new run Event.Tick result }
    {
        tables.valid();
        if self.tick >= LAST_TICK {
            return Err(StepFault::TickLimit);
        }
        if let Some(actor) = self.lacking(tables) {
            return Err(StepFault::Owed(actor));
        }
        turn_routers(&mut self.routers);
        turn_outputs(&mut self.outputs);
        self.tick += 1;
        Ok(Reply::Now(self.tick))
    }

    /// Applies one event: the reply is the one that the run calls for.
    ///
    /// # Errors
    /// Exactly where the event's number is not in the tables, the tick would pass
    /// [`LAST_TICK`](dc_transmit::LAST_TICK), or the run with the event would break a budget. The state is unchanged
    /// then.
    pub fn apply(&mut self, tables: &Tables, event: Event) -> Result<Reply, StepFault>
        requires sized { IsSized tables.now self.old }
        ensures sized { IsSized tables.now self.new }
        ensures err { OnErr result (self.new ≡ self.old) }
        ensures step { (run : List Event) → StandsFor tables.now self.old run → StepsTo tables.now self.new run event result }
    {
        match event {
            Event::Arrive(word, bus) => self.arrive(tables, bus, word),
            Event::Route(router) => self.route(tables, router),
            Event::Send(output) => self.send(tables, output),
            Event::Tick => self.end_tick(tables),
        }
    }
}

/// Whether the bus refuses a word of the stream in this tick. A word of a policed bus that is let in moves its stream's
/// number.
fn refuses_early(
    tables: &Tables,
    paces: &mut Vec<u64>,
    tick: u64,
    bus: usize,
    stream: usize,
) -> bool
    requires bus { bus < length tables.now.buses }
    requires stream { stream < length tables.now.streams }
    requires sized { length paces.old.items ≡ length tables.now.streams }
    requires early { tick ≤ LAST_TICK }
    ensures test { result ≡ refuses_early_now tables.now paces.old.items tick bus stream }
    ensures refused { result ≡ true → paces.new.items ≡ paces.old.items }
    ensures let_in { result ≡ false → paces.new.items ≡ paces_after tables.now paces.old.items tick bus stream }
{
    if !tables.bus(bus).police {
        return false;
    }
    let row = tables.stream(stream);
    let pace = paces[stream];
    if tick + (row.jitter as u64) < pace {
        return true;
    }
    paces[stream] = tick.max(pace) + row.minimum as u64;
    false
}

/// Whether a send in this tick lies less than the gap after the last.
fn is_soon(gap: u64, tick: u64, last: Option<u64>) -> bool
    ensures { result ≡ too_soon gap tick last }
{
    match last {
        Some(k) => tick.saturating_sub(k) < gap,
        None => false,
    }
}

/// Ends the tick of each router.
fn turn_routers(routers: &mut Vec<RouterState>)
    ensures len { length routers.new.items ≡ length routers.old.items }
    ensures turned { EachIndex routers.old.items (λ k. slice_index_or routers.new.items k no_router
        ≡ router_turned (slice_index_or routers.old.items k no_router)) }
{
    for i in 0..routers.len() {
        routers[i].turn();
    }
}

/// Ends the tick of each output.
fn turn_outputs(outputs: &mut Vec<OutputState>)
    ensures len { length outputs.new.items ≡ length outputs.old.items }
    ensures turned { EachIndex outputs.old.items (λ k. slice_index_or outputs.new.items k no_output
        ≡ output_turned (slice_index_or outputs.old.items k no_output)) }
{
    for i in 0..outputs.len() {
        outputs[i].turn();
    }
}
