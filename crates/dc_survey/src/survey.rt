//! The numbers of all streams and buses.
ghost use Rattle.std.specs.Prelude.{◌≡◌, ◌∷◌, ◌++◌, ◌<◌, ◌≤◌, ◌-◌, ◌^◌, ℕ, List, [], length, slice_index_or, IfOk, min, ◌+◌};
ghost use Rattle.dc_bound.specs.Window.{ticks_of};
ghost use Rattle.dc_gauge.specs.Times.{last_time};
ghost use Rattle.dc_gauge.specs.Steps.{no_stream_words};
ghost use Rattle.dc_survey.specs.States.{IsPaceState, IsWireState, pace_state_of, wire_state_of};
ghost use Rattle.dc_survey.specs.Surveys.{no_bus_words, no_timing, AllMade};
ghost use Rattle.dc_tables.specs.TableRows.{TableRows};

use crate::bus_gauge::BusGauge;
use crate::known_streams::KnownStreams;
use crate::states::{PaceState, WireState};
use dc_gauge::{StreamGauge, StreamTiming};
use dc_tables::Tables;
use dc_word::Word;
use std::alloc::{AllocError, Global};

/// The numbers of all streams and buses of tables, of the words so far: memory by the tables.
#[derive(Drop)]
pub struct Survey {
    line: u64,
    known: KnownStreams,
    timings: Vec<StreamTiming>,
    streams: Vec<StreamGauge>,
    buses: Vec<BusGauge>,
}

/// So many streams of which no word came.
fn no_streams(alloc: Global, count: usize) -> Result<Vec<StreamGauge>, AllocError>
    ensures { IfOk result (λ v. AllMade (λ _. no_stream_words) no_stream_words count v.items) }
{
    let mut streams = Vec::new(alloc);
    for _stream in 0..count {
        streams.push(StreamGauge::new())?;
    }
    Ok(streams)
}

/// So many buses on which no word came.
fn no_buses(alloc: Global, count: usize) -> Result<Vec<BusGauge>, AllocError>
    ensures { IfOk result (λ v. AllMade (λ _. no_bus_words) no_bus_words count v.items) }
{
    let mut buses = Vec::new(alloc);
    for _bus in 0..count {
        buses.push(BusGauge::new())?;
    }
    Ok(buses)
}

impl Survey {
    ghost use Rattle.dc_survey.specs.Surveys.{IsSized, Surveys, bus_gauge, stream_gauge, timing_of};

    /// Of no word, where the streams declare these timings, in the order of their rows.
    ///
    /// # Errors
    /// `AllocError` where memory is wanted.
    pub fn new(
        alloc: Global,
        tables: &Tables,
        timings: Vec<StreamTiming>,
    ) -> Result<Survey, AllocError>
        requires all { length timings.items ≡ length tables.now.streams }
        requires timed { (s : ℕ) → s < length tables.now.streams → 1 ≤ (slice_index_or timings.items s no_timing).min_us }
        ensures sized { IfOk result (λ w. IsSized tables.now w) }
        ensures surveys { IfOk result (λ w. Surveys tables.now [] w) }
        ensures timings { IfOk result (λ w. w.timings ≡ timings) }
    {
        let known = KnownStreams::new(alloc, tables)?;
        let streams = no_streams(alloc, tables.stream_count())?;
        let buses = no_buses(alloc, tables.bus_count())?;
        Ok(Survey {
            line: 0,
            known,
            timings,
            streams,
            buses,
        })
    }

    /// Takes the word of the next line, no earlier than the one before it.
    pub fn take(&mut self, tables: &Tables, time: u64, bus: usize, word: Word)
        requires sized { IsSized tables.now self.old }
        requires there { bus < length tables.now.buses }
        ensures sized { IsSized tables.now self.new }
        ensures timings { self.new.timings ≡ self.old.timings }
        ensures surveys { (capture : List (ℕ × (ℕ × ℕ))) → Surveys tables.now capture self.old → last_time (ticks_of capture) ≤ time
            → length capture < 2 ^ 64 - 1 → Surveys tables.now (capture ++ (time, (bus, word)) ∷ []) self.new }
    {
        tables.valid();
        let line = self.line.saturating_add(1);
        self.line = line;
        if !word.is_odd() {
            self.buses[bus].parity = self.buses[bus].parity.saturating_add(1);
            return;
        }
        let Some(stream) = self.known.stream_of(tables, bus, word) else {
            self.buses[bus].undeclared = self.buses[bus].undeclared.saturating_add(1);
            return;
        };
        let spacing = tables.bus(bus).spacing;
        self.buses[bus].wire.take(spacing, time, line);
        let timing = self.timings[stream];
        self.streams[stream].take(timing, time, line);
    }

    /// The numbers of a stream.
    pub fn stream(&self, stream: usize) -> StreamGauge
        requires { stream < length self.now.streams.items }
        ensures { result ≡ stream_gauge self.now stream }
    {
        self.streams[stream]
    }

    /// The numbers of a bus.
    pub fn bus(&self, bus: usize) -> BusGauge
        requires { bus < length self.now.buses.items }
        ensures { result ≡ bus_gauge self.now bus }
    {
        self.buses[bus]
    }

    /// How the words of a bus kept the spacing of its wire.
    pub fn wire(&self, tables: &Tables, bus: usize) -> WireState
        requires sized { IsSized tables.now self.now }
        requires there { bus < length tables.now.buses }
        ensures state { result ≡ wire_state_of tables.now self.now bus }
        ensures capture { (capture : List (ℕ × (ℕ × ℕ))) → Surveys tables.now capture self.now → IsWireState tables.now bus capture result }
    {
        if tables.bus(bus).police {
            return WireState::Policed;
        }
        match self.bus(bus).wire.broken {
            None => WireState::Kept,
            Some(line) => WireState::BrokenAt(line),
        }
    }

    /// How the words of a stream kept its minimum, with its jitter.
    pub fn pace(&self, stream: usize) -> PaceState
        requires { stream < length self.now.streams.items }
        ensures state { result ≡ pace_state_of self.now stream }
        ensures capture { (t : TableRows) (capture : List (ℕ × (ℕ × ℕ))) → stream < length t.streams → Surveys t capture self.now
            → IsPaceState t stream (timing_of self.now stream) capture result }
    {
        let gauge = self.stream(stream);
        if gauge.words == 0 {
            return PaceState::Silent;
        }
        match gauge.early {
            None => PaceState::Kept,
            Some(line) => PaceState::EarlyAt(line),
        }
    }
}
