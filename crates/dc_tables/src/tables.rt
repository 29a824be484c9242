//! Valid tables.

ghost use Rattle.std.specs.Prelude.{All, ◌≡◌, ◌+◌, ◌%◌, ◌<◌, ◌≤◌, length, position, IfSome};
ghost use Rattle.dc_tables.specs.TableRows.{visited, bus_row, router_row, bus_streams};
ghost use Rattle.dc_tables.specs.Declares.{declares, stream_of, fits};
ghost use Rattle.dc_tables.specs.Places.{AreFirst};

use crate::alike::BusKept;
use crate::bounds::{FrameOffsets, piece, wire_of};
use crate::index::Names;
use crate::made::{Rows, make_kept};
use crate::places::StreamPlaces;
use crate::rows::{Bus, Output, OutputLabel, Router, Stream};
use dc_bound::{Alike, ArrivalBound, Capped, Cyclic, Paced, ServiceBound, SumOf, Visits};
use dc_document::Name;
use dc_word::{Sdi, Word};
use std::alloc::{AllocError, Global};
use std::marker::Model;

/// Valid tables. A clause sees them as their rows, which are valid.
pub struct Tables {
    tick_us: u32,
    rows: Rows,
    names: Names,
    kept: Vec<BusKept>,
    offsets: Vec<FrameOffsets>,
}

// Dropped by one call, which is proved here and not in each crate that owns one.
impl Drop for Tables {
    fn drop(self) {
        let Tables {
            tick_us: _,
            rows: _,
            names: _,
            kept: _,
            offsets: _,
        } = self;
    }
}

impl Model for Tables {
    ghost use Rattle.std.specs.Prelude.{◌≡◌};
    ghost use Rattle.dc_tables.specs.TableRows.{TableRows};
    ghost use Rattle.dc_tables.specs.Bounds.{frame_offsets, table_names, table_rows};
    ghost use Rattle.dc_tables.specs.KeptOfBuses.{AreBusesKept};
    ghost use Rattle.dc_tables.specs.Named.{AreSound};

    ghost Value = { TableRows };

    ghost view = { λ t. table_rows t.tick_us (table_names t.names) t.rows };

    ghost invariant = { λ t. AreBusesKept t.kept.items t.rows.buses.items t.rows.streams.items × (t.offsets.items ≡ frame_offsets t.rows.outputs.items)
        × AreSound (table_rows t.tick_us (table_names t.names) t.rows) };
}

impl Tables {
    ghost use Rattle.dc_tables.specs.TableRows.{AreValid, stream_row, output_row, label_row, bus_cap, bus_floor, output_cap, output_floor};
    ghost use Rattle.std.specs.Prelude.{ℕ, IfOk, [], slice_index_or};
    ghost use Rattle.dc_tables.specs.Bounds.{table_names, table_rows};
    ghost use Rattle.dc_tables.specs.Named.{AreSound, HaveNames};
    ghost use Rattle.dc_document.specs.Names.{number_of};

    /// The tables of these rows and names, which are sound.
    pub fn of(alloc: Global, tick_us: u32, rows: Rows, names: Names) -> Result<Tables, AllocError>
        requires { AreSound (table_rows tick_us (table_names names) rows) }
        ensures { IfOk result (λ t. t ≡ table_rows tick_us (table_names names) rows) }
    {
        let kept = make_kept(alloc, &rows)?;
        Ok(Tables {
            tick_us,
            rows,
            names,
            kept: kept.buses,
            offsets: kept.offsets,
        })
    }

    /// The number of the bus of this name, from 0, where it is there.
    pub fn bus_named(&self, name: &Name) -> Option<usize>
        ensures { result ≡ number_of self.now.names.buses name.now }
    {
        self.names.buses.number_of(name)
    }

    /// The number of the router of this name, from 0, where it is there.
    pub fn router_named(&self, name: &Name) -> Option<usize>
        ensures { result ≡ number_of self.now.names.routers name.now }
    {
        self.names.routers.number_of(name)
    }

    /// The number of the output of this name, from 0, where it is there.
    pub fn output_named(&self, name: &Name) -> Option<usize>
        ensures { result ≡ number_of self.now.names.outputs name.now }
    {
        self.names.outputs.number_of(name)
    }

    /// The number of the stream of this name among the streams of all buses, from 0, where it is there.
    pub fn stream_named(&self, name: &Name) -> Option<usize>
        ensures { result ≡ number_of self.now.names.streams name.now }
    {
        self.names.streams.number_of(name)
    }

    /// The number of the label of this name among the labels of all outputs, from 0, where it is there.
    pub fn label_named(&self, name: &Name) -> Option<usize>
        ensures { result ≡ number_of self.now.names.labels name.now }
    {
        self.names.labels.number_of(name)
    }

    /// The name of a bus.
    pub fn bus_name(&self, bus: usize) -> &Name
        requires { bus < length self.now.buses }
        ensures { result.now ≡ slice_index_or self.now.names.buses bus [] }
    {
        self.names.buses.name(bus)
    }

    /// The name of a stream.
    pub fn stream_name(&self, stream: usize) -> &Name
        requires { stream < length self.now.streams }
        ensures { result.now ≡ slice_index_or self.now.names.streams stream [] }
    {
        self.names.streams.name(stream)
    }

    /// The name of a router.
    pub fn router_name(&self, router: usize) -> &Name
        requires { router < length self.now.routers }
        ensures { result.now ≡ slice_index_or self.now.names.routers router [] }
    {
        self.names.routers.name(router)
    }

    /// The name of an output.
    pub fn output_name(&self, output: usize) -> &Name
        requires { output < length self.now.outputs }
        ensures { result.now ≡ slice_index_or self.now.names.outputs output [] }
    {
        self.names.outputs.name(output)
    }

    /// The name of a label, of its number among the labels of all outputs.
    pub fn label_name(&self, label: usize) -> &Name
        requires { label < length self.now.labels }
        ensures { result.now ≡ slice_index_or self.now.names.labels label [] }
    {
        self.names.labels.name(label)
    }

    /// Each row has its name, and the names of a kind differ. The call does nothing.
    pub fn named(&self)
        ensures { HaveNames self.now }
    {
        let _ = &self.tick_us;
    }

    /// The rows meet their rules. The call does nothing.
    pub fn valid(&self)
        ensures { AreValid self.now }
    {
        let _ = &self.tick_us;
    }

    /// The length of a tick in microseconds, [`SHORTEST_TICK`](dc_document::SHORTEST_TICK) to
    /// [`LONGEST_TICK`](dc_bound::LONGEST_TICK).
    pub fn tick_us(&self) -> u32
        ensures { result ≡ self.now.tick_us }
    {
        let Tables { tick_us, .. } = self;
        *tick_us
    }

    /// How many buses there are, at most [`MOST_BUSES`](dc_document::MOST_BUSES).
    pub fn bus_count(&self) -> usize
        ensures { result ≡ length self.now.buses }
    {
        self.rows.buses.len()
    }

    /// How many streams all buses have, at most [`MOST_STREAMS`](dc_document::MOST_STREAMS).
    pub fn stream_count(&self) -> usize
        ensures { result ≡ length self.now.streams }
    {
        self.rows.streams.len()
    }

    /// How many routers there are, at most [`MOST_ROUTERS`](dc_document::MOST_ROUTERS).
    pub fn router_count(&self) -> usize
        ensures { result ≡ length self.now.routers }
    {
        self.rows.routers.len()
    }

    /// How many outputs there are, at most [`MOST_OUTPUTS`](dc_document::MOST_OUTPUTS).
    pub fn output_count(&self) -> usize
        ensures { result ≡ length self.now.outputs }
    {
        self.rows.outputs.len()
    }

    /// How many labels all outputs have, at most [`MOST_LABELS`](dc_document::MOST_LABELS).
    pub fn label_count(&self) -> usize
        ensures { result ≡ length self.now.labels }
    {
        self.rows.labels.len()
    }

    /// The row of a bus.
    pub fn bus(&self, bus: usize) -> &Bus
        requires { bus < length self.now.buses }
        ensures { result.now ≡ bus_row self.now bus }
    {
        let Rows { buses, .. } = &self.rows;
        &buses[bus]
    }

    /// The row of a stream; `stream` is its number among the streams of all buses.
    pub fn stream(&self, stream: usize) -> &Stream
        requires { stream < length self.now.streams }
        ensures { result.now ≡ stream_row self.now stream }
    {
        &self.rows.streams[stream]
    }

    /// The row of a router.
    pub fn router(&self, router: usize) -> &Router
        requires { router < length self.now.routers }
        ensures { result.now ≡ router_row self.now router }
    {
        let Rows { routers, .. } = &self.rows;
        &routers[router]
    }

    /// The row of an output.
    pub fn output(&self, output: usize) -> &Output
        requires { output < length self.now.outputs }
        ensures { result.now ≡ output_row self.now output }
    {
        let Rows { outputs, .. } = &self.rows;
        &outputs[output]
    }

    /// The row of a label; `label` is its number among the labels of all outputs.
    pub fn label(&self, label: usize) -> &OutputLabel
        requires { label < length self.now.labels }
        ensures { result.now ≡ label_row self.now label }
    {
        &self.rows.labels[label]
    }

    /// The capacity of a bus's queue in words, 1 to [`GREATEST_QUEUE`](dc_bound::GREATEST_QUEUE).
    pub fn queue(&self, bus: usize) -> u32
        requires { bus < length self.now.buses }
        ensures { result ≡ (bus_row self.now bus).queue }
    {
        self.rows.buses[bus].queue
    }

    /// The number of a stream's bus.
    pub fn bus_of(&self, stream: usize) -> usize
        requires { stream < length self.now.streams }
        ensures bus { result ≡ (stream_row self.now stream).bus }
        ensures there { result < length self.now.buses }
    {
        self.rows.streams[stream].bus
    }

    /// What a bus may bring in so many ticks, in words: the lesser of its streams' sum and its wire's, or its streams'
    /// alone where it is policed.
    pub fn bus_bound(&self, bus: usize) -> Capped<SumOf<'_, Alike>>
        requires { bus < length self.now.buses }
        ensures { (d : ℕ) → ⟦<Capped<SumOf<'static, Alike>> as ArrivalBound>⟧.cap result d ≡ bus_cap self.now bus d }
    {
        let row = &self.rows.buses[bus];
        let streams = SumOf::new(0, self.kept[bus].bounds.as_slice());
        Capped::new(streams, wire_of(self.tick_us, row))
    }

    /// How a bus is served: the fewest visits of it by its router in so many whole ticks.
    pub fn bus_service(&self, bus: usize) -> Visits<'_>
        requires { bus < length self.now.buses }
        ensures { (d : ℕ) → ⟦<Visits<'static> as ServiceBound>⟧.floor result d ≡ bus_floor self.now bus d }
    {
        let row = &self.rows.routers[self.rows.buses[bus].router];
        let pace = Paced::new(row.steps, row.within);
        Visits::new(pace, row.visits.as_slice(), bus)
    }

    /// What falls due at an output: the most entries in so many ticks, those of its frame again and again.
    pub fn output_bound(&self, output: usize) -> Cyclic<'_>
        requires { output < length self.now.outputs }
        ensures { (d : ℕ) → ⟦<Cyclic<'static> as ArrivalBound>⟧.cap result d ≡ output_cap self.now output d }
    {
        let row = &self.rows.outputs[output];
        let own = &self.offsets[output];
        Cyclic::new(row.frame, own.as_slice())
    }

    /// How an output sends: its fewest steps in so many whole ticks.
    pub fn output_service(&self, output: usize) -> Paced
        requires { output < length self.now.outputs }
        ensures { (d : ℕ) → ⟦<Paced as ServiceBound>⟧.floor result d ≡ output_floor self.now output d }
    {
        let own = &self.rows.outputs[output];
        Paced::new(own.steps, own.within)
    }

    /// The number of the bus that the router visits at this cursor, a place in its list of visits taken round it, and
    /// the cursor after it.
    pub fn visit(&self, router: usize, cursor: usize) -> (usize, usize)
        requires { router < length self.now.routers }
        ensures bus { result.0 ≡ visited self.now router cursor }
        ensures there { result.0 < length self.now.buses }
        ensures next { result.1 ≡ (cursor % length (router_row self.now router).visits + 1) % length (router_row self.now router).visits }
    {
        let row = &self.rows.routers[router];
        let visits = row.visits.as_slice();
        let len = visits.len();
        let at = place_in_round(cursor, len);
        let bus = visits[at];
        (bus, next_in_round(at, len))
    }

    /// The streams of a bus; the first has the number `bus(bus).first`.
    pub fn bus_streams(&self, bus: usize) -> &[Stream]
        requires { bus < length self.now.buses }
        ensures { result.now ≡ bus_streams self.now bus }
    {
        let row = &self.rows.buses[bus];
        piece(&self.rows.streams, row.first, row.streams)
    }

    /// The number of the stream of the bus that declares the word; a bus that is not there has none.
    #[inline]
    pub fn stream_of(&self, bus: usize, word: Word) -> Option<usize>
        ensures stream { result ≡ stream_of self.now bus word }
        ensures there { IfSome result (λ s. s < length self.now.streams) }
    {
        self.valid();
        if self.bus_count() <= bus {
            return None;
        }
        let at = declaring(self.bus_streams(bus), &self.kept[bus].places, bus, word)?;
        Some(self.bus(bus).first + at)
    }
}

/// The place in a round of so many that a cursor comes to. A cursor is mostly a place, which takes no division.
#[inline]
fn place_in_round(cursor: usize, len: usize) -> usize
    requires { 1 ≤ len }
    ensures { result ≡ cursor % len }
{
    if cursor < len { cursor } else { cursor % len }
}

/// The place after this one in a round of so many, found with no division.
#[inline]
fn next_in_round(at: usize, len: usize) -> usize
    requires { at < len }
    ensures { result ≡ (at + 1) % len }
{
    let next = at + 1;
    if next == len { 0 } else { next }
}

/// The first of the streams that is of the bus and declares the word: the one at its place, or none. An only stream is
/// asked without a look at places.
#[inline]
fn declaring(streams: &[Stream], places: &StreamPlaces, bus: usize, word: Word) -> Option<usize>
    requires placed { AreFirst places.now.places streams.now 0 }
    requires own { All (λ s. s.bus ≡ bus) streams.now }
    ensures first { result ≡ position (declares bus word) streams.now }
    ensures there { IfSome result (λ k. k < length streams.now) }
{
    if streams.len() == 1 {
        return streams[0].declares(bus, word).then_some(0);
    }
    let at = places.of_word(word);
    if at < streams.len() && streams[at].declares(bus, word) {
        return Some(at);
    }
    None
}

impl Stream {
    /// Whether the stream is of the bus and declares the word's label and SDI.
    #[inline]
    pub fn declares(&self, bus: usize, word: Word) -> bool
        ensures { result ≡ declares bus word self.now }
    {
        self.bus == bus
            && self.label.number() == word.label_number()
            && fits_sdi(self.sdi, word.sdi())
    }
}

/// Whether a stream that declares this SDI, or any, takes words of that one.
#[inline]
fn fits_sdi(declared: Option<Sdi>, sdi: u32) -> bool
    ensures { result ≡ fits declared sdi }
{
    match declared {
        None => true,
        Some(one) => one.number() as u32 == sdi,
    }
}
