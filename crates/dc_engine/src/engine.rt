//! Certified tables, and the concentrator of them after a run.
ghost use Rattle.std.specs.Prelude.{◌≡◌, ◌≤◌, ◌<◌, [], length, slice_index_or, IfOk, MatchOption};
ghost use Rattle.dc_core.specs.Steps.{IsSized};
ghost use Rattle.dc_check.specs.Lent.{tables_of};

use crate::name_list::NameList;
use dc_check::Certified;
use dc_core::{State, StepFault};
use dc_document::Name;
use dc_event::{Event, Reply};
use dc_tables::Tables;
use std::alloc::{AllocError, Global};

/// Certified tables, and the state of their concentrator after the run of the events that were carried out.
#[derive(Drop)]
pub struct Engine {
    certified: Certified,
    state: State,
    ghost sized: { IsSized (tables_of certified) state },
}

impl Engine {
    ghost use Rattle.dc_check.specs.Certified.{KeepsItsClaims};
    ghost use Rattle.dc_check.specs.Numbers.{KeepsItsNumbers};
    ghost use Rattle.dc_engine.specs.Engine.{rows_of, claims_of, StandsForRun, StepsOn};
    ghost use Rattle.dc_engine.specs.NameLists.{names_in, number_named};

    /// The concentrator of certified tables before any event.
    ///
    /// # Errors
    /// `AllocError` where an allocation failed.
    pub fn new(alloc: Global, certified: Certified) -> Result<Engine, AllocError>
        ensures certified { IfOk result (λ e. e.certified ≡ certified) }
        ensures stands { IfOk result (λ e. StandsForRun e []) }
    {
        let state = State::new(alloc, certified.tables())?;
        Ok(Engine { certified, state })
    }

    /// Applies one event: the reply is the one that the run calls for.
    ///
    /// # Errors
    /// Exactly where the event may not follow the run. The engine is unchanged then.
    pub fn step(&mut self, event: Event) -> Result<Reply, StepFault>
        ensures { StepsOn self.old self.new event result }
    {
        self.state.apply(self.certified.tables(), event)
    }

    /// The number of the member of a list with this name, where there is one.
    pub fn number_of(&self, list: NameList, text: &[u8]) -> Option<usize>
        ensures { result ≡ number_named (names_in (rows_of self.now) list) text.now }
    {
        let tables = self.tables();
        match Name::new(text) {
            None => None,
            Some(name) => match list {
                NameList::Buses => tables.bus_named(&name),
                NameList::Streams => tables.stream_named(&name),
                NameList::Routers => tables.router_named(&name),
                NameList::Outputs => tables.output_named(&name),
                NameList::Labels => tables.label_named(&name),
            },
        }
    }

    /// The name of the member of a list with this number, where there is one.
    pub fn name_of(&self, list: NameList, number: usize) -> Option<&Name>
        ensures { MatchOption result (length (names_in (rows_of self.now) list) ≤ number)
            (λ name. (number < length (names_in (rows_of self.now) list)) × (name.now ≡ slice_index_or (names_in (rows_of self.now) list) number [])) }
    {
        let tables = self.tables();
        tables.named();
        match list {
            NameList::Buses => {
                if number < tables.bus_count() {
                    return Some(tables.bus_name(number));
                }
            }
            NameList::Streams => {
                if number < tables.stream_count() {
                    return Some(tables.stream_name(number));
                }
            }
            NameList::Routers => {
                if number < tables.router_count() {
                    return Some(tables.router_name(number));
                }
            }
            NameList::Outputs => {
                if number < tables.output_count() {
                    return Some(tables.output_name(number));
                }
            }
            NameList::Labels => {
                if number < tables.label_count() {
                    return Some(tables.label_name(number));
                }
            }
        }
        None
    }

    /// The tables.
    pub fn tables(&self) -> &Tables
        ensures { result.now ≡ rows_of self.now }
    {
        self.certified.tables()
    }

    /// What the certificate claims holds in every admissible run of the tables, and so do its windows, backlogs and
    /// delays. The call does nothing.
    pub fn keeps_its_claims(&self)
        ensures claims { KeepsItsClaims (rows_of self.now) (claims_of self.now) }
        ensures numbers { KeepsItsNumbers (rows_of self.now) (claims_of self.now) }
    {
        self.certified.keeps_its_claims();
    }
}
