//! The most words that waited in the queue of each bus.

ghost use Rattle.std.specs.Prelude.{◌≡◌, ◌<◌, List, [], ◌∷◌, ◌++◌, length, slice_index_or, IfOk};
ghost use Rattle.dc_event.specs.Admissible.{IsNumbered};
ghost use Rattle.dc_observe.specs.Backlogs.{word_bus};

use crate::parts::all_of;
use dc_event::Event;
use dc_oracle::ReplyWatch;
use dc_tables::Tables;
use std::alloc::{AllocError, Global};

/// The most words that waited in each bus's queue at any place of the run so far.
#[derive(Drop)]
pub struct BacklogGauge {
    greatest: Vec<u64>,
}

/// The bus that the event brings a word to.
fn word_bus(event: &Event) -> Option<usize>
    ensures { result ≡ word_bus event.now }
{
    match *event {
        Event::Arrive(_, bus) => Some(bus),
        _ => None,
    }
}

impl BacklogGauge {
    ghost use Rattle.dc_observe.specs.Backlogs.{IsSized, Observes};
    ghost use Rattle.dc_oracle.specs.Replies.{Holds, IsSized as AreReplies};
    ghost use Rattle.dc_event.specs.declared.event.Event.{Event};

    /// Before any event.
    ///
    /// # Errors
    /// Out of memory.
    pub fn new(alloc: Global, tables: &Tables) -> Result<BacklogGauge, AllocError>
        ensures sized { IfOk result (λ g. IsSized tables.now g) }
        ensures observes { IfOk result (λ g. Observes tables.now g []) }
    {
        Ok(BacklogGauge {
            greatest: all_of(alloc, tables.bus_count(), 0)?,
        })
    }

    /// Takes the event, with the state of the replies after it.
    pub fn see(&mut self, tables: &Tables, replies: &ReplyWatch, event: &Event)
        requires sized { IsSized tables.now self.old }
        requires replies { AreReplies tables.now replies.now }
        ensures sized { IsSized tables.now self.new }
        ensures observes { (run : List Event) → Observes tables.now self.old run → Holds tables.now replies.now (run ++ event.now ∷ []) → IsNumbered tables.now event.now
            → Observes tables.now self.new (run ++ event.now ∷ []) }
    {
        let Some(bus) = word_bus(event) else {
            return;
        };
        if bus >= self.greatest.len() {
            return;
        }
        let backlog = replies.log(bus).backlog();
        self.greatest[bus] = self.greatest[bus].max(backlog);
    }

    /// The greatest backlog of a bus.
    pub fn greatest(&self, bus: usize) -> u64
        requires { bus < length self.now.greatest.items }
        ensures { result ≡ slice_index_or self.now.greatest.items bus 0 }
    {
        self.greatest[bus]
    }
}
