//! How late entries left.
ghost use Rattle.std.specs.Prelude.{◌≡◌, ◌-◌, ◌^◌, ◌<◌, List, [], ◌∷◌, ◌++◌, length, slice_index_or, IfOk};
ghost use Rattle.dc_event.specs.Admissible.{IsNumbered};
ghost use Rattle.dc_observe.specs.Observed.{greatest_late};

use crate::parts::all_of;
use dc_event::Event;
use dc_oracle::ReplyWatch;
use dc_tables::Tables;
use std::alloc::{AllocError, Global};

/// The most ticks after its due tick that an entry of each output left so far.
#[derive(Drop)]
pub struct LateGauge {
    latest: Vec<u64>,
}

impl LateGauge {
    ghost use Rattle.dc_observe.specs.Lates.{IsSized, AreLate};
    ghost use Rattle.dc_oracle.specs.Replies.{Holds, IsSized as AreReplies};
    ghost use Rattle.dc_event.specs.declared.event.Event.{Event};

    /// Before any event.
    ///
    /// # Errors
    /// Out of memory.
    pub fn new(alloc: Global, tables: &Tables) -> Result<LateGauge, AllocError>
        ensures sized { IfOk result (λ g. IsSized tables.now g) }
        ensures late { IfOk result (λ g. AreLate tables.now g []) }
    {
        Ok(LateGauge {
            latest: all_of(alloc, tables.output_count(), 0)?,
        })
    }

    /// An output makes a send step, after this state of the replies.
    fn send(&mut self, tables: &Tables, replies: &ReplyWatch, output: usize)
        requires sized { IsSized tables.now self.old }
        requires replies { AreReplies tables.now replies.now }
        requires early { replies.now.tick < 2 ^ 64 - 1 }
        ensures sized { IsSized tables.now self.new }
        ensures late { (run : List Event) → AreLate tables.now self.old run → Holds tables.now replies.now run → output < length tables.now.outputs
            → AreLate tables.now self.new (run ++ Event.Send output ∷ []) }
    {
        tables.valid();
        if output >= self.latest.len() {
            return;
        }
        let due = replies.next_due(tables, output);
        let tick = replies.tick();
        if due > tick {
            return;
        }
        self.latest[output] = self.latest[output].max(tick - due);
    }

    /// Takes the event, with the state of the replies before it.
    pub fn see(&mut self, tables: &Tables, replies: &ReplyWatch, event: &Event)
        requires sized { IsSized tables.now self.old }
        requires replies { AreReplies tables.now replies.now }
        requires early { replies.now.tick < 2 ^ 64 - 1 }
        ensures sized { IsSized tables.now self.new }
        ensures late { (run : List Event) → AreLate tables.now self.old run → Holds tables.now replies.now run → IsNumbered tables.now event.now
            → AreLate tables.now self.new (run ++ event.now ∷ []) }
    {
        match *event {
            Event::Send(output) => self.send(tables, replies, output),
            Event::Tick | Event::Arrive(_, _) | Event::Route(_) => {}
        }
    }

    /// How late an entry of the output was at most, of those that are due and have not left too, by the state of the
    /// replies.
    pub fn greatest(&self, tables: &Tables, replies: &ReplyWatch, output: usize) -> u64
        requires sized { IsSized tables.now self.now }
        requires replies { AreReplies tables.now replies.now }
        requires there { output < length tables.now.outputs }
        ensures { (run : List Event) → AreLate tables.now self.now run → Holds tables.now replies.now run → result ≡ greatest_late tables.now output run }
    {
        tables.valid();
        let latest = self.latest[output];
        let due = replies.next_due(tables, output);
        let tick = replies.tick();
        if due > tick {
            return latest;
        }
        latest.max(tick - due)
    }
}
