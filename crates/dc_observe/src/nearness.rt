//! How near a run came to its bounds, event by event.
ghost use Rattle.std.specs.Prelude.{◌≡◌, ◌+◌, ◌-◌, ◌<◌, ◌^◌, List, [], ◌∷◌, ◌++◌, length, IfOk};
ghost use Rattle.dc_event.specs.Admissible.{IsNumbered};
ghost use Rattle.dc_observe.specs.Labels.{label_numbers};
ghost use Rattle.dc_observe.specs.Observed.{greatest_backlog, greatest_late, greatest_wait};

use crate::backlogs::BacklogGauge;
use crate::labels::{LabelGauges, LabelNumbers};
use crate::lates::LateGauge;
use crate::waits::WaitGauge;
use dc_event::Event;
use dc_oracle::{ArrivalWatch, Police, ReplyWatch, answer};
use dc_tables::Tables;
use std::alloc::{AllocError, Global};

/// How near the run so far came to its bounds.
#[derive(Drop)]
pub struct Nearness {
    replies: ReplyWatch,
    police: Police,
    arrivals: ArrivalWatch,
    backlogs: BacklogGauge,
    waits: WaitGauge,
    lates: LateGauge,
    labels: LabelGauges,
    events: u64,
}

impl Nearness {
    ghost use Rattle.dc_observe.specs.Near.{IsSized, IsNearness};
    ghost use Rattle.dc_event.specs.declared.event.Event.{Event};

    /// Before any event.
    ///
    /// # Errors
    /// Out of memory.
    pub fn new(alloc: Global, tables: &Tables) -> Result<Nearness, AllocError>
        ensures sized { IfOk result (λ n. IsSized tables.now n) }
        ensures none { IfOk result (λ n. n.events ≡ 0) }
        ensures near { IfOk result (λ n. IsNearness tables.now n []) }
    {
        Ok(Nearness {
            replies: ReplyWatch::new(alloc, tables)?,
            police: Police::new(alloc, tables)?,
            arrivals: ArrivalWatch::new(alloc, tables)?,
            backlogs: BacklogGauge::new(alloc, tables)?,
            waits: WaitGauge::new(alloc, tables)?,
            lates: LateGauge::new(alloc, tables)?,
            labels: LabelGauges::new(alloc, tables)?,
            events: 0,
        })
    }

    /// The next event, whose number is in the tables.
    pub fn see(&mut self, tables: &Tables, event: &Event)
        requires sized { IsSized tables.now self.old }
        requires few { self.old.events < 2 ^ 64 - 1 }
        ensures sized { IsSized tables.now self.new }
        ensures count { self.new.events ≡ self.old.events + 1 }
        ensures near { (run : List Event) → IsNearness tables.now self.old run → IsNumbered tables.now event.now → IsNearness tables.now self.new (run ++ event.now ∷ []) }
    {
        let tick = self.replies.tick();
        let emitted = self.replies.emits(tables, event);
        self.lates.see(tables, &self.replies, event);
        let reply = answer(&mut self.replies, &mut self.police, tables, event);
        self.arrivals
            .follow(tables, &self.replies, event, &reply, tick);
        self.backlogs.see(tables, &self.replies, event);
        self.waits.see(tables, &self.replies, event, &reply, tick);
        self.labels
            .see(tables, &self.replies, &self.arrivals, emitted, tick);
        self.events += 1;
    }

    /// The most words that waited in the queue of a bus at any place of the run.
    pub fn backlog(&self, tables: &Tables, bus: usize) -> u64
        requires sized { IsSized tables.now self.now }
        requires there { bus < length tables.now.buses }
        ensures { (run : List Event) → IsNearness tables.now self.now run → result ≡ greatest_backlog tables.now bus run }
    {
        let _ = tables;
        self.backlogs.greatest(bus)
    }

    /// The most ticks that a word of a bus waited for its visit, or has waited for it.
    pub fn wait(&self, tables: &Tables, bus: usize) -> u64
        requires sized { IsSized tables.now self.now }
        requires there { bus < length tables.now.buses }
        ensures { (run : List Event) → IsNearness tables.now self.now run → result ≡ greatest_wait tables.now bus run }
    {
        self.waits.greatest(tables, &self.replies, bus)
    }

    /// The most ticks after its due tick that an entry of an output left, or has not left.
    pub fn late(&self, tables: &Tables, output: usize) -> u64
        requires sized { IsSized tables.now self.now }
        requires there { output < length tables.now.outputs }
        ensures { (run : List Event) → IsNearness tables.now self.now run → result ≡ greatest_late tables.now output run }
    {
        self.lates.greatest(tables, &self.replies, output)
    }

    /// The numbers of a label.
    pub fn label(&self, tables: &Tables, label: usize) -> LabelNumbers
        requires sized { IsSized tables.now self.now }
        requires there { label < length tables.now.labels }
        ensures { (run : List Event) → IsNearness tables.now self.now run → result ≡ label_numbers tables.now label run }
    {
        self.labels.numbers(tables, &self.replies, label)
    }
}
