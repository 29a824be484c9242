//! The events of a trace, in the bytes that are held of it.
ghost use Rattle.std.specs.Prelude.{◌≡◌, ◌≢◌, ℕ, List, Option, [], ◌+◌, ◌^◌, ◌<◌, Some, None, IfSome, IfOk, MatchOption, false};
ghost use Rattle.dc_device.specs.Device.{IsSnapshot};
ghost use Rattle.dc_device.specs.States.{IsCountable};
ghost use Rattle.dc_event.specs.TraceText.{trace_of};
ghost use Rattle.dc_event.specs.Ahead.{HoldsEvent};
ghost use Rattle.dc_event.specs.Reading.{AsksFor, IsOfLine, NeedsMore, ReadsNext, Stays, StopsBehind, Tells, ahead, at_start, failures_at, stop_behind, stop_of};

use crate::ahead::event_ahead;
use crate::event::Event;
use crate::line::read_line;
use crate::names::KnownNames;
use crate::trace::{LineRule, TraceFault, TraceStop};
use dc_device::{Line, LineEnd, LineReader, LineWriter, Sink, Source};
use dc_tables::Tables;
use std::marker::Model;

/// A reader stops at this fault of a line.
fn fault(rule: LineRule, line: u64) -> TraceStop
    ensures { result ≡ TraceStop.Fault (record { rule = rule; line = line }) }
{
    TraceStop::Fault(TraceFault { rule, line })
}

/// A text ended after these bytes of a line.
fn end_inside(line: &[u8], number: u64) -> TraceStop
    ensures { result ≡ stop_behind number line.now }
{
    match line {
        [] => TraceStop::End,
        _ => fault(LineRule::LineNotEnded, number),
    }
}

/// The event of the line that the held bytes begin with, and how many of them it takes, where that is told at once.
#[inline(always)]
fn event_held(names: &KnownNames, reader: &LineReader) -> Option<(Event, usize)>
    ensures { IfSome result (λ held. HoldsEvent names.now reader.now held.0 held.1) }
{
    let (event, count) = event_ahead(names, reader.held())?;
    if count as u64 > reader.room() {
        return None;
    }
    Some((event, count))
}

/// The event of the next line, or its fault, as far as the held bytes go. A line is read where it stands if all of it
/// is held; else its bytes are gathered. It serves the lines that are not told at once.
#[inline(never)]
fn read_any(
    tables: &Tables,
    reader: &mut LineReader,
    line: &mut Line,
) -> Option<Result<Event, LineRule>>
    ensures { ReadsNext tables.now reader.old reader.new line.old.items line.new.items result }
{
    if line.is_empty() {
        if let Some(held) = reader.held_line() {
            let length = held.len();
            let read = read_line(tables, held);
            reader.pass(length + 1);
            return Some(read);
        }
    }
    match reader.read_on(line)? {
        LineEnd::Long => Some(Err(LineRule::LineTooLong)),
        LineEnd::Whole => {
            let read = read_line(tables, line.as_slice());
            line.clear();
            Some(read)
        }
    }
}

/// The event of the next line, or its fault, as far as the held bytes go. An event that the held bytes tell at once is
/// read where it stands.
#[inline(always)]
fn read_next(
    names: &KnownNames,
    reader: &mut LineReader,
    line: &mut Line,
) -> Option<Result<Event, LineRule>>
    ensures { ReadsNext names.now reader.old reader.new line.old.items line.new.items result }
{
    if line.is_empty() {
        if let Some((event, count)) = event_held(names, reader) {
            reader.pass(count);
            return Some(Ok(event));
        }
    }
    read_any(names.tables(), reader, line)
}

/// Reads the lines of a trace in the bytes that it holds, and pulls where its owner says so: who knows when the source
/// is asked, and can first show what was answered so far.
#[derive(Drop)]
pub struct TraceLines<'t> {
    names: KnownNames<'t>,
    reader: LineReader,
    line: Line,
    number: u64,
    stopped: Option<TraceStop>,
}

impl<'t> Model for TraceLines<'t> {
    ghost use Rattle.dc_event.specs.Reading.{Reading};
    ghost use Rattle.dc_event.specs.ReadingFits.{Fits};

    ghost Value = { Reading };

    ghost view = { λ r. record { tables = r.names; line = r.line.items; held = r.reader.bytes; room = r.reader.room; number = r.number; stopped = r.stopped } };

    ghost invariant = { λ r. Fits r.stopped r.line.items r.reader.room r.number };
}

impl<'t> TraceLines<'t> {
    /// Nothing is read yet of a text of at most `limit` bytes.
    pub fn new(tables: &'t Tables, limit: u64) -> Self
        requires { limit + 1 < 2 ^ 64 }
        ensures start { result ≡ at_start tables.now limit }
        ensures whole { (text : List ℕ) → ahead result (Some text) ≡ Some (trace_of tables.now limit text) }
    {
        let names = KnownNames::of(tables);
        let reader = LineReader::new(limit);
        let line = Line::new();
        TraceLines {
            names,
            reader,
            line,
            number: 1,
            stopped: None,
        }
    }

    /// Tells the next event, or why there is none, as far as the held bytes go. None where they end before the line
    /// does: then pull, and call again. Once it reported why there is none, it tells that same from then on.
    #[inline(always)]
    pub fn advance(&mut self) -> Option<Result<Event, TraceStop>>
        ensures reported { (coming : Option (List ℕ)) →
            MatchOption result (Stays (ahead self.old coming) (ahead self.new coming))
            (λ reported. Tells (ahead self.old coming) (ahead self.new coming) reported) }
        ensures more { MatchOption result (NeedsMore self.old self.new) (λ reported. self.new.stopped ≡ stop_of reported) }
        ensures again { IfSome self.old.stopped (λ stop. (result ≡ Some (Err stop)) × (self.new ≡ self.old)) }
        ensures shorter { IfSome result (λ reported. IfOk reported (λ e. self.new.room < self.old.room)) }
        ensures line { self.old.stopped ≡ None → IfSome result (λ reported. IsOfLine reported) }
        ensures tables { self.new.tables ≡ self.old.tables }
    {
        if let Some(stop) = self.stopped {
            return Some(Err(stop));
        }
        match read_next(&self.names, &mut self.reader, &mut self.line)? {
            Ok(event) => {
                self.number += 1;
                Some(Ok(event))
            }
            Err(rule) => {
                let refused = fault(rule, self.number);
                self.stopped = Some(refused);
                Some(Err(refused))
            }
        }
    }

    /// Pulls the next bytes, where none is held. What was written must not wait any more, nor be hidden: who reads the
    /// answers sees each before the source is asked again. Where nothing came, `advance` tells why.
    pub fn pull<S: Source, K: Sink>(&mut self, source: &mut S, written: &LineWriter, sink: &mut K)
        requires read { self.old.held ≡ [] }
        requires runs { self.old.stopped ≡ None }
        requires seen { written.now ≡ [] }
        requires shown { (K.state sink.old).hidden ≡ false }
        requires countable { IsCountable (S.state source.old) }
        ensures kept { Stays (ahead self.old (S.state source.old).remaining) (ahead self.new (S.state source.new).remaining) }
        ensures came { self.new.stopped ≡ None → self.new.held ≢ [] }
        ensures room { self.new.room ≡ self.old.room }
        ensures tables { self.new.tables ≡ self.old.tables }
        ensures end { StopsBehind self.old.number self.old.line self.new.stopped }
        ensures count { (S.state source.new).failed ≡ (S.state source.old).failed + failures_at self.new.stopped }
        ensures asks { AsksFor self.old self.new (S.state source.old).asked (S.state source.new).asked (S.state source.old).dry (S.state source.new).dry }
        ensures answered { IsSnapshot (K.state sink.old).contents (K.state sink.new).answered }
        ensures shows { (K.state sink.new).contents ≡ (K.state sink.old).contents }
        ensures sink { (K.state sink.new).failed ≡ (K.state sink.old).failed }
        ensures last { (K.state sink.new).last_failed ≡ (K.state sink.old).last_failed }
        ensures hidden { (K.state sink.new).hidden ≡ false }
    {
        match self.reader.fill(source, written, sink) {
            Ok(true) => {}
            Ok(false) => self.stopped = Some(end_inside(self.line.as_slice(), self.number)),
            Err(_) => self.stopped = Some(TraceStop::Broken),
        }
    }
}
