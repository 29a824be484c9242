//! Whether the sources of buses that are not policed keep their caps and their wires.

ghost use Rattle.std.specs.Prelude.{◌≡◌, ◌+◌, ◌-◌, ◌<◌, ◌≤◌, ◌^◌, List, [], IfOk};
ghost use Rattle.dc_event.specs.Breaks.{BreaksSourcesAt};
ghost use Rattle.dc_oracle.specs.Fresh.{AllMade};
ghost use Rattle.dc_oracle.specs.Pace.{no_pace};
ghost use Rattle.dc_oracle.specs.WireLoad.{no_load};

use crate::pace::Pace;
use crate::wire::WireLoad;
use dc_event::Event;
use dc_tables::Tables;
use dc_word::Word;
use std::alloc::{AllocError, Global};

/// What the sources of buses that are not policed have done so far: the pace of each stream, and the load of each wire.
#[derive(Drop)]
pub struct SourceWatch {
    tick: u64,
    streams: Vec<Pace>,
    wires: Vec<WireLoad>,
}

/// So many streams that brought nothing.
pub fn no_paces(alloc: Global, count: usize) -> Result<Vec<Pace>, AllocError>
    ensures { IfOk result (λ v. AllMade (λ _. no_pace) no_pace count v.items) }
{
    let mut paces = Vec::new(alloc);
    for _stream in 0..count {
        paces.push(Pace { tick: 0, ahead: 0 })?;
    }
    Ok(paces)
}

/// So many wires that carried nothing.
fn free_wires(alloc: Global, count: usize) -> Result<Vec<WireLoad>, AllocError>
    ensures { IfOk result (λ v. AllMade (λ _. no_load) no_load count v.items) }
{
    let mut wires = Vec::new(alloc);
    for _bus in 0..count {
        wires.push(WireLoad {
            tick: 0,
            load_us: 0,
        })?;
    }
    Ok(wires)
}

impl SourceWatch {
    ghost use Rattle.dc_oracle.specs.Sources.{IsSized, Watches, Seen};
    ghost use Rattle.dc_event.specs.declared.event.Event.{Event};

    /// Before any event.
    pub fn new(alloc: Global, tables: &Tables) -> Result<SourceWatch, AllocError>
        ensures sized { IfOk result (λ w. IsSized tables.now w) }
        ensures tick { IfOk result (λ w. w.tick ≡ 0) }
        ensures watches { IfOk result (λ w. Watches tables.now w []) }
    {
        tables.valid();
        Ok(SourceWatch {
            tick: 0,
            streams: no_paces(alloc, tables.stream_count())?,
            wires: free_wires(alloc, tables.bus_count())?,
        })
    }

    /// A word arrives. Whether its stream and its wire keep their rest.
    fn arrive(&mut self, tables: &Tables, bus: usize, word: Word) -> bool
        requires sized { IsSized tables.now self.old }
        ensures sized { IsSized tables.now self.new }
        ensures tick { self.new.tick ≡ self.old.tick }
        ensures seen { (run : List Event) → Watches tables.now self.old run → Seen tables.now self.new run (Event.Arrive word bus) result }
    {
        tables.valid();
        if bus >= self.wires.len() || !word.is_odd() {
            return true;
        }
        if tables.bus(bus).police {
            return true;
        }
        let Some(stream) = tables.stream_of(bus, word) else {
            return true;
        };
        let row = tables.stream(stream);
        if self.streams[stream].refuses(self.tick, row.minimum, row.jitter) {
            return false;
        }
        let spacing = tables.bus(bus).spacing;
        self.wires[bus].carry(self.tick, tables.tick_us(), spacing)
    }

    /// Whether the run with this event keeps what is asked of the sources, where the run before it does.
    pub fn see(&mut self, tables: &Tables, event: Event) -> bool
        requires sized { IsSized tables.now self.old }
        requires early { self.old.tick < 2 ^ 64 - 1 }
        ensures sized { IsSized tables.now self.new }
        ensures tick { self.new.tick ≤ self.old.tick + 1 }
        ensures seen { (run : List Event) → Watches tables.now self.old run → Seen tables.now self.new run event result }
    {
        tables.valid();
        match event {
            Event::Arrive(word, bus) => self.arrive(tables, bus, word),
            Event::Route(_) | Event::Send(_) => true,
            Event::Tick => {
                self.tick += 1;
                true
            }
        }
    }
}

/// The first event, counted from 1, at which a source of a bus that is not policed breaks what is asked of it: a word
/// sooner than its stream's interval and jitter let it, or more words than the wire carries. `None` where none does.
///
/// # Errors
/// `AllocError` where an allocation failed.
pub fn keeps_sources(
    alloc: Global,
    tables: &Tables,
    run: &[Event],
) -> Result<Option<usize>, AllocError>
    ensures { IfOk result (BreaksSourcesAt tables.now run.now) }
{
    let mut watch = SourceWatch::new(alloc, tables)?;
    for (i, event) in run.iter().enumerate() {
        if !watch.see(tables, *event) {
            return Ok(Some(i + 1));
        }
    }
    Ok(None)
}
