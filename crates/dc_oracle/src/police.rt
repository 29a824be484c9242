//! Which words policed buses refuse.

ghost use Rattle.std.specs.Prelude.{◌≡◌, ◌+◌, ◌-◌, ◌<◌, ◌≤◌, ◌^◌, List, [], length, IfOk};
ghost use Rattle.dc_event.specs.Admissible.{IsNumbered};

use crate::pace::Pace;
use crate::sources::no_paces;
use dc_event::Event;
use dc_tables::Tables;
use dc_word::Word;
use std::alloc::{AllocError, Global};

/// What policed buses have let in so far: the tick, and the pace of each of their streams.
#[derive(Drop)]
pub struct Police {
    tick: u64,
    paces: Vec<Pace>,
}

impl Police {
    ghost use Rattle.dc_oracle.specs.Police.{Polices, Judges};
    ghost use Rattle.dc_event.specs.declared.event.Event.{Event};

    /// Before any event.
    pub fn new(alloc: Global, tables: &Tables) -> Result<Police, AllocError>
        ensures sized { IfOk result (λ p. length p.paces.items ≡ length tables.now.streams) }
        ensures holds { IfOk result (λ p. Polices tables.now p []) }
        ensures tick { IfOk result (λ p. p.tick ≡ 0) }
    {
        let paces = no_paces(alloc, tables.stream_count())?;
        Ok(Police { tick: 0, paces })
    }

    /// A word arrives. Whether its bus refuses it.
    pub(crate) fn arrive(&mut self, tables: &Tables, bus: usize, word: Word) -> bool
        requires sized { length self.old.paces.items ≡ length tables.now.streams }
        ensures sized { length self.new.paces.items ≡ length tables.now.streams }
        ensures tick { self.new.tick ≡ self.old.tick }
        ensures judges { (run : List Event) → Polices tables.now self.old run → bus < length tables.now.buses
            → Judges tables.now self.new run (Event.Arrive word bus) result }
    {
        tables.valid();
        if bus >= tables.bus_count() {
            return false;
        }
        if !tables.bus(bus).police {
            return false;
        }
        if !word.is_odd() {
            return false;
        }
        let Some(stream) = tables.stream_of(bus, word) else {
            return false;
        };
        let row = tables.stream(stream);
        self.paces[stream].refuses(self.tick, row.minimum, row.jitter)
    }

    /// The tick ends.
    pub(crate) fn turn(&mut self)
        requires early { self.old.tick < 2 ^ 64 - 1 }
        ensures tick { self.new.tick ≡ self.old.tick + 1 }
        ensures paces { self.new.paces ≡ self.old.paces }
    {
        self.tick += 1;
    }

    /// Whether the event brings a word that its bus refuses.
    pub fn refuses(&mut self, tables: &Tables, event: &Event) -> bool
        requires sized { length self.old.paces.items ≡ length tables.now.streams }
        requires early { self.old.tick < 2 ^ 64 - 1 }
        ensures sized { length self.new.paces.items ≡ length tables.now.streams }
        ensures tick { self.new.tick ≤ self.old.tick + 1 }
        ensures judges { (run : List Event) → Polices tables.now self.old run → IsNumbered tables.now event.now
            → Judges tables.now self.new run event.now result }
    {
        match *event {
            Event::Arrive(word, bus) => self.arrive(tables, bus, word),
            Event::Route(_) | Event::Send(_) => false,
            Event::Tick => {
                self.turn();
                false
            }
        }
    }
}
