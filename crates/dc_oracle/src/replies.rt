//! The reply to each event, from the run so far.

ghost use Rattle.std.specs.Prelude.{◌≡◌, ◌+◌, ◌-◌, ◌<◌, ◌≤◌, ◌^◌, ◌∷◌, ◌++◌, [], List, length, filter, slice_set, slice_index_or};
ghost use Rattle.std.specs.Prelude.{Some, None, IfOk, IfSome, false, min};
ghost use Rattle.dc_tables.specs.Declares.{stream_of};
ghost use Rattle.dc_event.specs.Outputs.{due_tick, entry_label};
ghost use Rattle.dc_event.specs.Choice.{head, choice, word_for};
ghost use Rattle.dc_event.specs.Emissions.{emission};
ghost use Rattle.dc_event.specs.Replies.{outputs_of};
ghost use Rattle.dc_event.specs.Admissible.{IsRun, IsNumbered};
ghost use Rattle.dc_oracle.specs.Fresh.{AllMade};
ghost use Rattle.dc_oracle.specs.Replies.{is_wanted, IsSized, Holds, Replies};
ghost use Rattle.dc_oracle.specs.Police.{Polices};
ghost use Rattle.dc_event.specs.declared.event.Event.{Event};

use crate::bus_log::{BusLog, no_logs};
use crate::police::Police;
use dc_event::{Event, Reply};
use dc_tables::Tables;
use dc_word::Word;
use std::alloc::{AllocError, Global};

/// What came of the run so far: the tick, the log of each bus, the latest word of each stream with the tick in which it
/// was routed, each router's place in its list of visits, and how many entries of each output have left.
#[derive(Drop)]
pub struct ReplyWatch {
    tick: u64,
    buses: Vec<BusLog>,
    latest: Vec<Option<((usize, Word), u64)>>,
    cursors: Vec<usize>,
    sent: Vec<u64>,
}

/// So many of the same value.
pub fn all_of<T: Copy>(alloc: Global, count: usize, value: T) -> Result<Vec<T>, AllocError>
    ensures { IfOk result (λ v. AllMade (λ _. value) value count v.items) }
{
    let mut values = Vec::new(alloc);
    for _number in 0..count {
        values.push(value)?;
    }
    Ok(values)
}

/// The label of the output's entry of this number, from 0, and the tick in which it is due, at most 2^64 - 1.
fn entry(tables: &Tables, output: usize, number: u64) -> (usize, u64)
    requires { output < length tables.now.outputs }
    ensures label { result.0 ≡ entry_label tables.now output number }
    ensures there { result.0 < length tables.now.labels }
    ensures due { result.1 ≡ min (due_tick tables.now output number) (2 ^ 64 - 1) }
{
    tables.valid();
    let row = tables.output(output);
    let entries = row.entries.as_slice();
    let len = entries.len() as u64;
    let entry = entries[(number % len) as usize];
    let frames = (number / len).saturating_mul(row.frame as u64);
    (entry.label, frames.saturating_add(entry.offset as u64))
}

/// The word that the label sends for its choice: a copy, or its fallback.
pub fn word_for(tables: &Tables, label: usize, choice: Option<(usize, Word)>) -> Word
    requires { label < length tables.now.labels }
    ensures { result ≡ word_for tables.now label choice }
{
    let row = tables.label(label);
    match choice {
        Some((_, word)) => Word::copy_as(word, row.label, row.sdi),
        None => Word::fallback(row.label, row.sdi),
    }
}

/// Keeps a word of the stream as its latest, routed in this tick.
fn note(latest: &mut Vec<Option<((usize, Word), u64)>>, stream: usize, word: Word, tick: u64)
    ensures { latest.new.items ≡ slice_set latest.old.items stream (Some ((stream, word), tick)) }
{
    if stream < latest.len() {
        latest[stream] = Some(((stream, word), tick));
    }
}

impl ReplyWatch {
    ghost use Rattle.dc_oracle.specs.BusLog.{no_log};
    ghost use Rattle.dc_oracle.specs.Replies.{IsSized, Holds, Replies, fresh_now, fresh_sources};
    ghost use Rattle.dc_oracle.specs.Police.{is_refused};
    ghost use Rattle.dc_event.specs.declared.event.Event.{Event};

    /// Before any event.
    pub fn new(alloc: Global, tables: &Tables) -> Result<ReplyWatch, AllocError>
        ensures sized { IfOk result (λ w. IsSized tables.now w) }
        ensures holds { IfOk result (λ w. Holds tables.now w []) }
        ensures tick { IfOk result (λ w. w.tick ≡ 0) }
    {
        tables.valid();
        Ok(ReplyWatch {
            tick: 0,
            buses: no_logs(alloc, tables)?,
            latest: all_of(alloc, tables.stream_count(), None)?,
            cursors: all_of(alloc, tables.router_count(), 0)?,
            sent: all_of(alloc, tables.output_count(), 0)?,
        })
    }

    /// A word arrives, with the stream of the bus that declares it, if one does.
    pub(crate) fn arrive(
        &mut self,
        tables: &Tables,
        bus: usize,
        word: Word,
        stream: Option<usize>,
    ) -> Reply
        requires sized { IsSized tables.now self.old }
        requires stream { stream ≡ stream_of tables.now bus word }
        ensures sized { IsSized tables.now self.new }
        ensures tick { self.new.tick ≡ self.old.tick }
        ensures reply { (run : List Event) → Holds tables.now self.old run → bus < length tables.now.buses
            → is_refused tables.now run (Event.Arrive word bus) ≡ false → Replies tables.now self.new run (Event.Arrive word bus) result }
    {
        let _ = tables;
        if !word.is_odd() {
            return Reply::BadParity;
        }
        let Some(stream) = stream else {
            return Reply::Undeclared;
        };
        if bus >= self.buses.len() {
            return Reply::Undeclared;
        }
        self.buses[bus].receive(stream, word, self.tick)
    }

    /// A router makes a step. A step of a router that is not there is reported as idle.
    pub(crate) fn route(&mut self, tables: &Tables, router: usize) -> Reply
        requires sized { IsSized tables.now self.old }
        ensures sized { IsSized tables.now self.new }
        ensures tick { self.new.tick ≡ self.old.tick }
        ensures reply { (run : List Event) → Holds tables.now self.old run → router < length tables.now.routers
            → Replies tables.now self.new run (Event.Route router) result }
    {
        tables.valid();
        if router >= self.cursors.len() {
            return Reply::Idle;
        }
        let cursor = self.cursors[router];
        let (bus, next) = tables.visit(router, cursor);
        self.cursors[router] = next;
        let taken = self.buses[bus].take();
        let Some((stream, word)) = taken else {
            return Reply::Empty(bus);
        };
        note(&mut self.latest, stream, word, self.tick);
        Reply::Took(word, bus)
    }

    /// The source with its latest word, where it is fresh for the label.
    fn fresh(&self, tables: &Tables, label: usize, source: usize) -> Option<(usize, Word)>
        requires sized { IsSized tables.now self.now }
        requires label { label < length tables.now.labels }
        requires source { source < length tables.now.streams }
        ensures { result ≡ head (fresh_now tables.now self.now label source) }
    {
        if self.buses[tables.bus_of(source)].is_latched() {
            return None;
        }
        let stale = tables.label(label).stale;
        match self.latest[source] {
            Some((item, routed)) if self.tick.saturating_sub(routed) <= stale as u64 => Some(item),
            _ => None,
        }
    }

    /// The first by priority of the label's fresh sources, or of those with a usable word alone, with its latest word.
    fn first_fresh(&self, tables: &Tables, label: usize, usable: bool) -> Option<(usize, Word)>
        requires sized { IsSized tables.now self.now }
        requires label { label < length tables.now.labels }
        ensures { result ≡ head (filter (λ c. is_wanted usable tables.now label c.1) (fresh_sources tables.now self.now label)) }
    {
        tables.valid();
        let row = tables.label(label);
        for source in row.sources.as_slice() {
            if let Some((stream, word)) = self.fresh(tables, label, *source) {
                if is_wanted(usable, tables, label, word) {
                    return Some((stream, word));
                }
            }
        }
        None
    }

    /// What the label copies: of its fresh sources by priority the first whose word is usable; else the first.
    pub fn choice(&self, tables: &Tables, label: usize) -> Option<(usize, Word)>
        requires sized { IsSized tables.now self.now }
        requires label { label < length tables.now.labels }
        ensures { result ≡ choice tables.now label (fresh_sources tables.now self.now label) }
    {
        let usable = self.first_fresh(tables, label, true);
        if usable.is_some() {
            return usable;
        }
        self.first_fresh(tables, label, false)
    }

    /// The word that the label sends: a copy of its choice, or its fallback.
    fn chosen(&self, tables: &Tables, label: usize) -> Word
        requires sized { IsSized tables.now self.now }
        requires label { label < length tables.now.labels }
        ensures { result ≡ word_for tables.now label (choice tables.now label (fresh_sources tables.now self.now label)) }
    {
        word_for(tables, label, self.choice(tables, label))
    }

    /// The tick.
    pub fn tick(&self) -> u64
        ensures { result ≡ self.now.tick }
    {
        self.tick
    }

    /// The log of a bus.
    pub fn log(&self, bus: usize) -> &BusLog
        requires { bus < length self.now.buses.items }
        ensures { result.now ≡ slice_index_or self.now.buses.items bus no_log }
    {
        &self.buses[bus]
    }

    /// The tick in which the output's next entry is due, at most 2^64 - 1.
    pub fn next_due(&self, tables: &Tables, output: usize) -> u64
        requires sized { IsSized tables.now self.now }
        requires there { output < length tables.now.outputs }
        ensures { result ≡ min (due_tick tables.now output (slice_index_or self.now.sent.items output 0)) (2 ^ 64 - 1) }
    {
        let (_, due) = entry(tables, output, self.sent[output]);
        due
    }

    /// The number of the label that the event emits, if it emits one.
    pub fn emits(&self, tables: &Tables, event: &Event) -> Option<usize>
        requires sized { IsSized tables.now self.now }
        requires early { self.now.tick < 2 ^ 64 - 1 }
        ensures there { IfSome result (λ x. x < length tables.now.labels) }
        ensures emission { (run : List Event) → Holds tables.now self.now run → IsNumbered tables.now event.now → result ≡ emission tables.now run event.now }
    {
        match *event {
            Event::Send(output) => self.sends(tables, output),
            _ => None,
        }
    }

    /// The number of the label that a send of the output emits, if it emits one.
    pub(crate) fn sends(&self, tables: &Tables, output: usize) -> Option<usize>
        requires sized { IsSized tables.now self.now }
        requires early { self.now.tick < 2 ^ 64 - 1 }
        ensures there { IfSome result (λ x. x < length tables.now.labels) }
        ensures emission { (run : List Event) → Holds tables.now self.now run → output < length tables.now.outputs
            → result ≡ emission tables.now run (Event.Send output) }
    {
        tables.valid();
        if output >= self.sent.len() {
            return None;
        }
        let number = self.sent[output];
        let (label, due) = entry(tables, output, number);
        if due > self.tick {
            return None;
        }
        Some(label)
    }

    /// An output makes a send step. A step of an output that is not there is reported as idle.
    pub(crate) fn send(&mut self, tables: &Tables, output: usize) -> Reply
        requires sized { IsSized tables.now self.old }
        requires early { self.old.tick < 2 ^ 64 - 1 }
        ensures sized { IsSized tables.now self.new }
        ensures tick { self.new.tick ≡ self.old.tick }
        ensures reply { (run : List Event) → Holds tables.now self.old run → output < length tables.now.outputs
            → Replies tables.now self.new run (Event.Send output) result }
    {
        tables.valid();
        if output >= self.sent.len() {
            return Reply::Idle;
        }
        let number = self.sent[output];
        let (label, due) = entry(tables, output, number);
        if due > self.tick {
            return Reply::Idle;
        }
        self.sent[output] = number.saturating_add(1);
        Reply::Sent(tables.label(label).label, self.chosen(tables, label))
    }

    /// The tick ends.
    pub(crate) fn turn(&mut self, tables: &Tables) -> Reply
        requires sized { IsSized tables.now self.old }
        requires early { self.old.tick < 2 ^ 64 - 1 }
        ensures sized { IsSized tables.now self.new }
        ensures tick { self.new.tick ≡ self.old.tick + 1 }
        ensures reply { (run : List Event) → Holds tables.now self.old run → Replies tables.now self.new run Event.Tick result }
    {
        let _ = tables;
        self.tick += 1;
        Reply::Now(self.tick)
    }

    /// The reply to an event.
    fn see(&mut self, tables: &Tables, event: Event) -> Reply
        requires sized { IsSized tables.now self.old }
        requires early { self.old.tick < 2 ^ 64 - 1 }
        ensures sized { IsSized tables.now self.new }
        ensures tick { self.new.tick ≤ self.old.tick + 1 }
        ensures reply { (run : List Event) → Holds tables.now self.old run → IsNumbered tables.now event → is_refused tables.now run event ≡ false
            → Replies tables.now self.new run event result }
    {
        match event {
            Event::Arrive(word, bus) => {
                self.arrive(tables, bus, word, tables.stream_of(bus, word))
            }
            Event::Route(router) => self.route(tables, router),
            Event::Send(output) => self.send(tables, output),
            Event::Tick => self.turn(tables),
        }
    }
}

/// Whether the source is asked for: each, or those with a usable word alone.
fn is_wanted(usable: bool, tables: &Tables, label: usize, word: Word) -> bool
    requires { label < length tables.now.labels }
    ensures { result ≡ is_wanted usable tables.now label word }
{
    if !usable {
        return true;
    }
    word.usable(tables.label(label).format)
}

/// The reply to an event: a word that its bus refuses comes no further.
pub fn answer(watch: &mut ReplyWatch, police: &mut Police, tables: &Tables, event: &Event) -> Reply
    requires sized { IsSized tables.now watch.old }
    requires paces { length police.old.paces.items ≡ length tables.now.streams }
    requires early { watch.old.tick < 2 ^ 64 - 1 }
    requires police_early { police.old.tick < 2 ^ 64 - 1 }
    ensures sized { IsSized tables.now watch.new }
    ensures paces { length police.new.paces.items ≡ length tables.now.streams }
    ensures tick { watch.new.tick ≤ watch.old.tick + 1 }
    ensures police_tick { police.new.tick ≤ police.old.tick + 1 }
    ensures reply { (run : List Event) → Holds tables.now watch.old run → Polices tables.now police.old run → IsNumbered tables.now event.now
        → Replies tables.now watch.new run event.now result }
    ensures judges { (run : List Event) → Polices tables.now police.old run → IsNumbered tables.now event.now
        → Polices tables.now police.new (run ++ event.now ∷ []) }
{
    if police.refuses(tables, event) {
        return Reply::TooEarly;
    }
    watch.see(tables, *event)
}

/// What should have come out of a run of these tables: the reply to each of its events, in order. Of a run that names a
/// bus, router or output that is not in the tables nothing is said.
///
/// # Errors
/// `AllocError` where an allocation failed.
pub fn outputs(alloc: Global, tables: &Tables, run: &[Event]) -> Result<Vec<Reply>, AllocError>
    ensures { IsRun tables.now run.now → IfOk result (λ replies. replies.items ≡ outputs_of tables.now run.now) }
{
    let mut watch = ReplyWatch::new(alloc, tables)?;
    let mut police = Police::new(alloc, tables)?;
    let mut replies = Vec::new(alloc);
    for event in run {
        let reply = answer(&mut watch, &mut police, tables, event);
        replies.push(reply)?;
    }
    Ok(replies)
}
