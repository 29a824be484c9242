//! The words of a capture, in the bytes that are held of it.
ghost use Rattle.std.specs.Prelude.{◌≡◌, ◌≢◌, ℕ, List, Option, [], ◌+◌, ◌^◌, ◌<◌, Some, None, IfSome, IfOk, MatchOption, false};
ghost use Rattle.dc_device.specs.Device.{IsSnapshot};
ghost use Rattle.dc_device.specs.States.{IsCountable};
ghost use Rattle.dc_capture.specs.Ahead.{HoldsWord};
ghost use Rattle.dc_capture.specs.CaptureText.{capture_of};
ghost use Rattle.dc_capture.specs.Reading.{AsksFor, IsNext, IsOfLine, NeedsMore, ReadsNext, Stays, StopsBehind, Tells};
ghost use Rattle.dc_capture.specs.Reading.{ahead, at_start, at_start_from, capture_from, failures_at, stop_behind, stop_of};

use crate::ahead::word_ahead;
use crate::buses::KnownBuses;
use crate::fault::{CaptureFault, CaptureRule, CaptureStop};
use crate::line::{CapturedWord, read_line};
use dc_device::{Line, LineEnd, LineReader, LineWriter, Sink, Source};
use dc_tables::Tables;
use std::marker::Model;

/// How many bytes a capture may have, where nothing else is said: what a gigabyte a second makes in three centuries.
pub const CAPTURE_LIMIT: u64 = 9_223_372_036_854_775_807;

/// A reader stops at this fault of a line.
fn fault(rule: CaptureRule, line: u64) -> CaptureStop
    ensures { result ≡ CaptureStop.Fault (record { rule = rule; line = line }) }
{
    CaptureStop::Fault(CaptureFault { rule, line })
}

/// A text ended after these bytes of a line.
fn end_inside(line: &[u8], number: u64) -> CaptureStop
    ensures { result ≡ stop_behind number line.now }
{
    match line {
        [] => CaptureStop::End,
        _ => fault(CaptureRule::LineNotEnded, number),
    }
}

/// The word of the line that the held bytes begin with, where the last time was this, and how many of them it takes,
/// where that is told at once.
#[inline(always)]
fn word_held(buses: &KnownBuses, latest: u64, reader: &LineReader) -> Option<(CapturedWord, usize)>
    ensures holds { IfSome result (λ held. HoldsWord buses.now latest reader.now held.0 held.1) }
    ensures next { IfSome result (λ held. IsNext buses.now latest held.0) }
{
    let (word, count) = word_ahead(buses, latest, reader.held())?;
    if count as u64 > reader.room() {
        return None;
    }
    Some((word, count))
}

/// The word of the next line, or its fault, as far as the held bytes go, where the last time was this. A line is read
/// where it stands if all of it is held; else its bytes are gathered. It serves the lines that are not told at once.
#[inline(never)]
fn read_any(
    buses: &KnownBuses,
    latest: u64,
    reader: &mut LineReader,
    line: &mut Line,
) -> Option<Result<CapturedWord, CaptureRule>>
    ensures reads { ReadsNext buses.now latest reader.old reader.new line.old.items line.new.items result }
    ensures next { IfSome result (λ read. IfOk read (λ x. IsNext buses.now latest x)) }
{
    if line.is_empty() {
        if let Some(held) = reader.held_line() {
            let length = held.len();
            let read = read_line(buses, latest, held);
            reader.pass(length + 1);
            return Some(read);
        }
    }
    match reader.read_on(line)? {
        LineEnd::Long => Some(Err(CaptureRule::LineTooLong)),
        LineEnd::Whole => {
            let read = read_line(buses, latest, line.as_slice());
            line.clear();
            Some(read)
        }
    }
}

/// The word of the next line, or its fault, as far as the held bytes go, where the last time was this. A word that the
/// held bytes tell at once is read where it stands.
#[inline(always)]
fn read_next(
    buses: &KnownBuses,
    latest: u64,
    reader: &mut LineReader,
    line: &mut Line,
) -> Option<Result<CapturedWord, CaptureRule>>
    ensures reads { ReadsNext buses.now latest reader.old reader.new line.old.items line.new.items result }
    ensures next { IfSome result (λ read. IfOk read (λ x. IsNext buses.now latest x)) }
{
    if line.is_empty() {
        if let Some((word, count)) = word_held(buses, latest, reader) {
            reader.pass(count);
            return Some(Ok(word));
        }
    }
    read_any(buses, latest, reader, line)
}

/// Reads the lines of a capture in the bytes that it holds, and pulls where its owner says so: who knows when the
/// source is asked, and can first show what was answered so far.
#[derive(Drop)]
pub struct CaptureLines<'t> {
    buses: KnownBuses<'t>,
    reader: LineReader,
    line: Line,
    number: u64,
    latest: u64,
    stopped: Option<CaptureStop>,
}

impl<'t> Model for CaptureLines<'t> {
    ghost use Rattle.dc_capture.specs.Reading.{Fits, Reading};

    ghost Value = { Reading };

    ghost view = { λ r. record {
      tables = r.buses;
      line = r.line.items;
      held = r.reader.bytes;
      room = r.reader.room;
      number = r.number;
      latest = r.latest;
      stopped = r.stopped;
    } };

    ghost invariant = { λ r. Fits r.stopped r.line.items r.reader.room r.number };
}

impl<'t> CaptureLines<'t> {
    /// Nothing is read yet of a text of at most `limit` bytes.
    pub fn new(tables: &'t Tables, limit: u64) -> Self
        requires { limit + 1 < 2 ^ 64 }
        ensures start { result ≡ at_start tables.now limit }
        ensures whole { (text : List ℕ) → ahead result (Some text) ≡ Some (capture_of tables.now limit text) }
    {
        CaptureLines::since(tables, limit, 0)
    }

    /// Nothing is read yet of a text of at most `limit` bytes, in which a time before `from` is one that falls.
    pub fn since(tables: &'t Tables, limit: u64, from: u64) -> Self
        requires { limit + 1 < 2 ^ 64 }
        ensures start { result ≡ at_start_from tables.now limit from }
        ensures whole { (text : List ℕ) → ahead result (Some text) ≡ Some (capture_from tables.now limit 1 from text) }
    {
        let buses = KnownBuses::of(tables);
        let reader = LineReader::new(limit);
        let line = Line::new();
        CaptureLines {
            buses,
            reader,
            line,
            number: 1,
            latest: from,
            stopped: None,
        }
    }

    /// Tells the next word, or why there is none, as far as the held bytes go. None where they end before the line
    /// does: then pull, and call again. Once it reported why there is none, it tells that same from then on.
    #[inline(always)]
    pub fn advance(&mut self) -> Option<Result<CapturedWord, CaptureStop>>
        ensures reported { (coming : Option (List ℕ)) →
            MatchOption result (Stays (ahead self.old coming) (ahead self.new coming))
            (λ reported. Tells (ahead self.old coming) (ahead self.new coming) reported) }
        ensures more { MatchOption result (NeedsMore self.old self.new) (λ reported. self.new.stopped ≡ stop_of reported) }
        ensures again { IfSome self.old.stopped (λ stop. (result ≡ Some (Err stop)) × (self.new ≡ self.old)) }
        ensures shorter { IfSome result (λ reported. IfOk reported (λ x. self.new.room < self.old.room)) }
        ensures line { self.old.stopped ≡ None → IfSome result (λ reported. IsOfLine reported) }
        ensures next { IfSome result (λ reported. IfOk reported (λ x. IsNext self.old.tables self.old.latest x)) }
        ensures latest { IfSome result (λ reported. IfOk reported (λ x. self.new.latest ≡ x.time)) }
        ensures tables { self.new.tables ≡ self.old.tables }
    {
        if let Some(stop) = self.stopped {
            return Some(Err(stop));
        }
        match read_next(&self.buses, self.latest, &mut self.reader, &mut self.line)? {
            Ok(word) => {
                self.number += 1;
                self.latest = word.time;
                Some(Ok(word))
            }
            Err(rule) => {
                let refused = fault(rule, self.number);
                self.stopped = Some(refused);
                Some(Err(refused))
            }
        }
    }

    /// Pulls the next bytes, where none is held. What was written must not wait any more, nor be hidden: who reads the
    /// answers sees each before the source is asked again. Where nothing came, `advance` tells why.
    pub fn pull<S: Source, K: Sink>(&mut self, source: &mut S, written: &LineWriter, sink: &mut K)
        requires read { self.old.held ≡ [] }
        requires runs { self.old.stopped ≡ None }
        requires seen { written.now ≡ [] }
        requires shown { (K.state sink.old).hidden ≡ false }
        requires countable { IsCountable (S.state source.old) }
        ensures kept { Stays (ahead self.old (S.state source.old).remaining) (ahead self.new (S.state source.new).remaining) }
        ensures came { self.new.stopped ≡ None → self.new.held ≢ [] }
        ensures room { self.new.room ≡ self.old.room }
        ensures latest { self.new.latest ≡ self.old.latest }
        ensures tables { self.new.tables ≡ self.old.tables }
        ensures end { StopsBehind self.old.number self.old.line self.new.stopped }
        ensures count { (S.state source.new).failed ≡ (S.state source.old).failed + failures_at self.new.stopped }
        ensures asks { AsksFor self.old self.new (S.state source.old).asked (S.state source.new).asked (S.state source.old).dry (S.state source.new).dry }
        ensures answered { IsSnapshot (K.state sink.old).contents (K.state sink.new).answered }
        ensures shows { (K.state sink.new).contents ≡ (K.state sink.old).contents }
        ensures sink { (K.state sink.new).failed ≡ (K.state sink.old).failed }
        ensures last { (K.state sink.new).last_failed ≡ (K.state sink.old).last_failed }
        ensures hidden { (K.state sink.new).hidden ≡ false }
    {
        match self.reader.fill(source, written, sink) {
            Ok(true) => {}
            Ok(false) => self.stopped = Some(end_inside(self.line.as_slice(), self.number)),
            Err(_) => self.stopped = Some(CaptureStop::Broken),
        }
    }
}
