//! The concentrator: the tables and the state.

ghost use Rattle.std.specs.Prelude.{◌≡◌, [], List, IfOk, OnErr};
ghost use Rattle.std.specs.Arc.{arc_value};
ghost use Rattle.dc_core.specs.Steps.{IsSized};

use crate::fault::StepFault;
use crate::machine::State;
use dc_event::{Event, Reply};
use dc_tables::Tables;
use std::alloc::{AllocError, Global};
use std::sync::Arc;

/// The concentrator: its tables, and the state that stands for the run of the events applied to it.
#[derive(Drop)]
pub struct Core {
    tables: Arc<Tables>,
    state: State,
    ghost sized: { IsSized (arc_value tables) state },
}

impl Core {
    ghost use Rattle.dc_core.specs.CoreSteps.{rows_of, CoreStandsFor, CoreStepsTo};
    ghost use Rattle.dc_event.specs.declared.event.Event.{Event};

    /// The concentrator of these tables before any event.
    ///
    /// # Errors
    /// `AllocError` where an allocation failed.
    pub fn new(alloc: Global, tables: Arc<Tables>) -> Result<Core, AllocError>
        ensures tables { IfOk result (λ c. rows_of c ≡ arc_value tables) }
        ensures stands { IfOk result (λ c. CoreStandsFor c []) }
    {
        let state = State::new(alloc, &tables)?;
        Ok(Core { tables, state })
    }

    /// Applies one event: the reply is the one that the run calls for.
    ///
    /// # Errors
    /// Exactly where the event may not follow the run: its number is not in the tables, the tick would pass
    /// [`LAST_TICK`](dc_transmit::LAST_TICK), or the run with it would break a budget. The core is unchanged then.
    pub fn apply(&mut self, event: Event) -> Result<Reply, StepFault>
        ensures tables { rows_of self.new ≡ rows_of self.old }
        ensures err { OnErr result (self.new ≡ self.old) }
        ensures step { (run : List Event) → CoreStandsFor self.old run → CoreStepsTo self.new run event result }
    {
        self.state.apply(&self.tables, event)
    }
}
