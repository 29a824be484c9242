//! The events of a trace, from its source.
ghost use Rattle.std.specs.Prelude.{◌≡◌, ◌≢◌, [], ◌+◌, ◌^◌, ◌<◌, ◌≤◌, Some, None, IfSome, option_map};
ghost use Rattle.dc_event.specs.TraceText.{trace_of};
ghost use Rattle.dc_event.specs.Reading.{AsksFor, Stays, Tells, ahead, at_start, failures_at, left, new_failures, stop_of};
ghost use Rattle.dc_event.specs.declared.trace_reader.TheConstants.{TRACE_LIMIT};
ghost use Rattle.dc_device.specs.States.{IsCountable};

use crate::event::Event;
use crate::trace::TraceStop;
use crate::trace_lines::TraceLines;
use dc_device::{LineWriter, Nowhere, Source};
use dc_tables::Tables;
use std::marker::Model;

/// How many bytes a trace may have, where nothing else is said: this project's own number.
pub const TRACE_LIMIT: u64 = 1_073_741_824;

/// Reads the events of a trace from a source.
#[derive(Drop)]
pub struct TraceReader<'t, S: Source + Drop> {
    lines: TraceLines<'t>,
    source: S,
}

impl<'t, S: Source + Drop> Model for TraceReader<'t, S> {
    ghost use Rattle.dc_event.specs.Reading.{Reader};

    ghost Value = { Reader };

    ghost view = { λ r. record {
      lines = r.lines;
      coming = (S.state r.source).remaining;
      failed = (S.state r.source).failed;
      asked = (S.state r.source).asked;
      dry = (S.state r.source).dry;
    } };
}

/// Pulls for a reader whose owner writes nothing.
fn pull_unwatched<S: Source>(lines: &mut TraceLines, source: &mut S)
    requires read { lines.old.held ≡ [] }
    requires runs { lines.old.stopped ≡ None }
    requires countable { IsCountable (S.state source.old) }
    ensures kept { Stays (ahead lines.old (S.state source.old).remaining) (ahead lines.new (S.state source.new).remaining) }
    ensures came { lines.new.stopped ≡ None → lines.new.held ≢ [] }
    ensures room { lines.new.room ≡ lines.old.room }
    ensures tables { lines.new.tables ≡ lines.old.tables }
    ensures count { (S.state source.new).failed ≡ (S.state source.old).failed + failures_at lines.new.stopped }
    ensures asks { AsksFor lines.old lines.new (S.state source.old).asked (S.state source.new).asked (S.state source.old).dry (S.state source.new).dry }
{
    let nothing = LineWriter::new();
    lines.pull(source, &nothing, &mut Nowhere);
}

impl<'t, S: Source + Drop> TraceReader<'t, S> {
    /// Reads a trace of at most [`TRACE_LIMIT`] bytes.
    pub fn new(tables: &'t Tables, source: S) -> Self
        ensures start { result.lines ≡ at_start tables.now TRACE_LIMIT }
        ensures trace { left result ≡ option_map (λ text. trace_of tables.now TRACE_LIMIT text) (S.state source).remaining }
        ensures failed { result.failed ≡ (S.state source).failed }
        ensures asked { result.asked ≡ (S.state source).asked }
        ensures dry { result.dry ≡ (S.state source).dry }
    {
        TraceReader::limited(tables, source, TRACE_LIMIT)
    }

    /// Reads a trace of at most `bytes` bytes.
    pub fn limited(tables: &'t Tables, source: S, bytes: u64) -> Self
        requires { bytes + 1 < 2 ^ 64 }
        ensures start { result.lines ≡ at_start tables.now bytes }
        ensures trace { left result ≡ option_map (λ text. trace_of tables.now bytes text) (S.state source).remaining }
        ensures failed { result.failed ≡ (S.state source).failed }
        ensures asked { result.asked ≡ (S.state source).asked }
        ensures dry { result.dry ≡ (S.state source).dry }
    {
        TraceReader {
            lines: TraceLines::new(tables, bytes),
            source,
        }
    }

    /// Tells the next event, or why there is none: the text ended, a line is refused, or the source failed. Once it
    /// reported why there is none, it tells that same from then on. In all its calls it pulls at most once more than
    /// the trace may have bytes, and where a pull gave none it has stopped.
    pub fn next(&mut self) -> Result<Event, TraceStop>
        requires { self.old.failed + 1 < 2 ^ 64 }
        ensures reported { Tells (left self.old) (left self.new) result }
        ensures again { IfSome self.old.lines.stopped (λ stop. (result ≡ Err stop) × (self.new ≡ self.old)) }
        ensures stopped { self.new.lines.stopped ≡ stop_of result }
        ensures count { self.new.failed ≡ self.old.failed + new_failures self.old.lines.stopped self.new.lines.stopped }
        ensures tables { self.new.lines.tables ≡ self.old.lines.tables }
        ensures asks { AsksFor self.old.lines self.new.lines self.old.asked self.new.asked self.old.dry self.new.dry }
    {
        loop {
            match self.lines.advance() {
                Some(reported) => return reported,
                None => pull_unwatched(&mut self.lines, &mut self.source),
            }
        }
    }

    /// How many calls of the source have failed so far.
    pub fn failures(&self) -> u64
        ensures { result ≡ self.now.failed }
    {
        self.source.failures()
    }
}
