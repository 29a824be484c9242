//! The events of a trace, carried out one after the other.
ghost use Rattle.std.specs.Prelude.{◌≡◌, List, ◌+◌, ◌≤◌, ◌<◌, ◌^◌};
ghost use Rattle.dc_core.specs.CoreSteps.{rows_of};
ghost use Rattle.dc_event.specs.Time.{ends};
ghost use Rattle.dc_event.specs.declared.event.Event.{Event};
ghost use Rattle.dc_run.specs.Steps.{StandsAt, Steps};
ghost use Rattle.dc_transmit.specs.declared.limits.TheConstants.{LAST_TICK};

use dc_core::{Core, StepFault};
use dc_event::{Event, Reply};

/// A concentrator, and how far the trace was carried out.
#[derive(Drop)]
pub struct Progress {
    /// The concentrator.
    pub core: Core,
    /// The running tick, up to [`LAST_TICK`](dc_transmit::LAST_TICK).
    pub tick: u64,
    /// The number of the trace's next line, from 1.
    pub number: u64,
}

/// An event that was carried out.
#[derive(Clone, Copy, Debug, PartialEq, Eq)]
pub struct Step {
    /// Its tick, for a Tick the new one.
    pub tick: u64,
    /// The event.
    pub event: Event,
    /// Its reply.
    pub reply: Reply,
}

/// An event that was refused.
#[derive(Clone, Copy, Debug, PartialEq, Eq)]
pub struct Refusal {
    /// The event.
    pub event: Event,
    /// Why it may not follow those before it.
    pub fault: StepFault,
    /// The number of its line, from 1.
    pub number: u64,
}

/// The tick after an event.
#[inline(always)]
fn tick_behind(tick: u64, event: &Event) -> u64
    requires { tick + 1 < 2 ^ 64 }
    ensures { result ≡ tick + ends event.now }
{
    match event {
        Event::Tick => tick + 1,
        _ => tick,
    }
}

impl Progress {
    /// Carries out the event of the next line.
    ///
    /// # Errors
    /// Exactly where it may not follow the events before it.
    #[inline(always)]
    pub fn step(&mut self, event: Event) -> Result<Step, Refusal>
        requires early { self.old.tick ≤ LAST_TICK }
        requires number { self.old.number + 1 < 2 ^ 64 }
        ensures rows { rows_of self.new.core ≡ rows_of self.old.core }
        ensures step { (done : List Event) → StandsAt self.old done → Steps (rows_of self.old.core) self.new done event result }
    {
        let next_tick = tick_behind(self.tick, &event);
        match self.core.apply(event) {
            Ok(reply) => {
                self.tick = next_tick;
                self.number += 1;
                Ok(Step {
                    tick: self.tick,
                    event,
                    reply,
                })
            }
            Err(fault) => Err(Refusal {
                event,
                fault,
                number: self.number,
            }),
        }
    }
}
