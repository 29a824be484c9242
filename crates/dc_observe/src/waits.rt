//! How long words waited for their visits.
ghost use Rattle.std.specs.Prelude.{◌≡◌, ◌<◌, List, [], ◌∷◌, ◌++◌, length, slice_index_or, IfOk};
ghost use Rattle.dc_event.specs.Admissible.{IsNumbered};
ghost use Rattle.dc_event.specs.Replies.{reply as reply_to};
ghost use Rattle.dc_event.specs.Time.{tick_after};
ghost use Rattle.dc_observe.specs.Observed.{greatest_wait};
ghost use Rattle.dc_oracle.specs.Arrivals.{taken_bus};

use crate::parts::all_of;
use dc_event::laws::queues_grow;
use dc_event::{Event, Reply};
use dc_oracle::ReplyWatch;
use dc_tables::Tables;
use std::alloc::{AllocError, Global};

/// The most ticks that a word of each bus waited which was taken so far.
#[derive(Drop)]
pub struct WaitGauge {
    longest: Vec<u64>,
}

/// The bus from which the reply tells a word to be taken.
fn taken_bus(reply: &Reply) -> Option<usize>
    ensures { result ≡ taken_bus reply.now }
{
    match *reply {
        Reply::Took(_, bus) => Some(bus),
        _ => None,
    }
}

impl WaitGauge {
    ghost use Rattle.dc_observe.specs.Waits.{IsSized, Waits};
    ghost use Rattle.dc_oracle.specs.Replies.{Holds, IsSized as AreReplies};
    ghost use Rattle.dc_event.specs.declared.event.Event.{Event};

    /// Before any event.
    ///
    /// # Errors
    /// Out of memory.
    pub fn new(alloc: Global, tables: &Tables) -> Result<WaitGauge, AllocError>
        ensures sized { IfOk result (λ g. IsSized tables.now g) }
        ensures waits { IfOk result (λ g. Waits tables.now g []) }
    {
        Ok(WaitGauge {
            longest: all_of(alloc, tables.bus_count(), 0)?,
        })
    }

    /// A router makes a step in this tick: its reply, and the state of the replies after it.
    fn visit(
        &mut self,
        tables: &Tables,
        replies: &ReplyWatch,
        router: usize,
        reply: &Reply,
        tick: u64,
    )
        requires sized { IsSized tables.now self.old }
        requires replies { AreReplies tables.now replies.now }
        ensures sized { IsSized tables.now self.new }
        ensures waits { (run : List Event) → Waits tables.now self.old run → tick ≡ tick_after run
            → Holds tables.now replies.now (run ++ Event.Route router ∷ []) → router < length tables.now.routers → reply.now ≡ reply_to tables.now run (Event.Route router)
            → Waits tables.now self.new (run ++ Event.Route router ∷ []) }
    {
        tables.valid();
        queues_grow(tables);
        let Some(bus) = taken_bus(reply) else {
            return;
        };
        if bus >= self.longest.len() {
            return;
        }
        let Some((came, _)) = replies.log(bus).last_taken() else {
            return;
        };
        let wait = tick.saturating_sub(came);
        self.longest[bus] = self.longest[bus].max(wait);
    }

    /// Takes the event of this tick, with the reply to it and the state of the replies after it.
    pub fn see(
        &mut self,
        tables: &Tables,
        replies: &ReplyWatch,
        event: &Event,
        reply: &Reply,
        tick: u64,
    )
        requires sized { IsSized tables.now self.old }
        requires replies { AreReplies tables.now replies.now }
        ensures sized { IsSized tables.now self.new }
        ensures waits { (run : List Event) → Waits tables.now self.old run → tick ≡ tick_after run
            → Holds tables.now replies.now (run ++ event.now ∷ []) → IsNumbered tables.now event.now → reply.now ≡ reply_to tables.now run event.now
            → Waits tables.now self.new (run ++ event.now ∷ []) }
    {
        match *event {
            Event::Route(router) => self.visit(tables, replies, router, reply, tick),
            Event::Tick | Event::Arrive(_, _) | Event::Send(_) => {}
        }
    }

    /// The greatest wait of a word of the bus, of those that still wait too, by the state of the replies.
    pub fn greatest(&self, tables: &Tables, replies: &ReplyWatch, bus: usize) -> u64
        requires sized { IsSized tables.now self.now }
        requires replies { AreReplies tables.now replies.now }
        requires there { bus < length tables.now.buses }
        ensures { (run : List Event) → Waits tables.now self.now run → Holds tables.now replies.now run → result ≡ greatest_wait tables.now bus run }
    {
        let longest = self.longest[bus];
        match replies.log(bus).oldest() {
            Some(came) => longest.max(replies.tick().saturating_sub(came)),
            None => longest,
        }
    }
}
