//! What is kept of each bus: the bounds of its streams, with how many streams each stands for, and where they stand.
//! The caps of the bounds sum up to those of the streams.
ghost use Rattle.std.specs.Prelude.{All, ◌≡◌, ◌+◌, ◌-◌, ◌*◌, ◌≤◌, ◌↔◌, ℕ, true, take, length, IfOk};
ghost use Rattle.std.specs.List.{sum_by};
ghost use Rattle.dc_tables.specs.TableRows.{stream_cap};
ghost use Rattle.dc_tables.specs.Bounds.{AreBoundsOf, jittered_cap, alike_cap};
ghost use Rattle.dc_tables.specs.KeptOfBuses.{AreBusesKept};
ghost use Rattle.dc_bound.specs.declared.limits.TheConstants.{WIDEST_JITTER};
ghost use Rattle.dc_document.specs.declared.limits.TheConstants.{MOST_MEMBERS, MOST_STREAMS};

use crate::bounds::piece;
use crate::places::StreamPlaces;
use crate::rows::{Bus, Stream};
use dc_bound::{Alike, Jittered};
use std::alloc::{AllocError, Global};
use std::marker::Model;

/// The bounds of the streams of a bus.
#[derive(Drop)]
pub(crate) struct BusBounds {
    items: Vec<Alike>,
}

impl Model for BusBounds {
    ghost use Rattle.std.specs.Prelude.{List};
    ghost use Rattle.dc_bound.specs.declared.alike.Alike.{Alike};

    ghost Value = { List Alike };

    ghost view = { λ b. b.items.items };
}

impl BusBounds {
    /// The bounds of these streams.
    fn of(alloc: Global, streams: &[Stream]) -> Result<BusBounds, AllocError>
        requires few { length streams.now ≤ MOST_STREAMS }
        requires bounded { All (λ s. (1 ≤ s.minimum) × (s.jitter ≤ WIDEST_JITTER)) streams.now }
        ensures { IfOk result (λ b. AreBoundsOf b streams.now) }
    {
        let mut bounds = stream_bounds(alloc, streams)?;
        bounds.sort_unstable_by_key(|b| (b.minimum, b.jitter));
        let items = runs_of(alloc, &bounds)?;
        Ok(BusBounds { items })
    }

    /// These bounds.
    pub(crate) fn as_slice(&self) -> &[Alike]
        ensures { result.now ≡ self.now }
    {
        self.items.as_slice()
    }
}

/// What is kept of a bus: the bounds of its streams, and where they stand.
#[derive(Drop)]
pub(crate) struct BusKept {
    pub bounds: BusBounds,
    pub places: StreamPlaces,
}

/// What is kept of each bus.
pub(crate) fn kept_of_buses(
    alloc: Global,
    buses: &[Bus],
    streams: &[Stream],
) -> Result<Vec<BusKept>, AllocError>
    requires few { length streams.now ≤ MOST_STREAMS }
    requires bounded { All (λ s. (1 ≤ s.minimum) × (s.jitter ≤ WIDEST_JITTER)) streams.now }
    requires there { All (λ b. b.first + b.streams ≤ length streams.now) buses.now }
    requires members { All (λ b. b.streams ≤ MOST_MEMBERS) buses.now }
    ensures { IfOk result (λ v. AreBusesKept v.items buses.now streams.now) }
{
    let mut rows = Vec::with_capacity(alloc, buses.len())?;
    for bus in buses {
        let own = piece(streams, bus.first, bus.streams);
        let places = StreamPlaces::of(own);
        let bounds = BusBounds::of(alloc, own)?;
        rows.push(BusKept { bounds, places })?;
    }
    Ok(rows)
}

/// The bound of each stream.
fn stream_bounds(alloc: Global, streams: &[Stream]) -> Result<Vec<Jittered>, AllocError>
    requires { All (λ s. (1 ≤ s.minimum) × (s.jitter ≤ WIDEST_JITTER)) streams.now }
    ensures number { IfOk result (λ v. length v.items ≡ length streams.now) }
    ensures sum { IfOk result (λ v. (d : ℕ) → sum_by (jittered_cap d) v.items ≡ sum_by (stream_cap d) streams.now) }
{
    let mut bounds = Vec::new(alloc);
    for stream in streams {
        bounds.push(Jittered::new(stream.minimum, stream.jitter))?;
    }
    Ok(bounds)
}

/// Each run of bounds that are the same, as one.
fn runs_of(alloc: Global, bounds: &[Jittered]) -> Result<Vec<Alike>, AllocError>
    requires { length bounds.now ≤ MOST_STREAMS }
    ensures { IfOk result (λ v. (d : ℕ) → sum_by (alike_cap d) v.items ≡ sum_by (jittered_cap d) bounds.now) }
{
    let mut runs = Vec::new(alloc);
    let mut at = 0;
    while at < bounds.len() {
        let first = bounds[at];
        let end = end_of_run(bounds, &first, at + 1);
        runs.push(Alike::new((end - at) as u32, first))?;
        at = end;
    }
    Ok(runs)
}

/// The end of the bounds from `from` on that are the same as `first`.
fn end_of_run(bounds: &[Jittered], first: &Jittered, from: usize) -> usize
    requires { from ≤ length bounds.now }
    ensures order { from ≤ result }
    ensures inside { result ≤ length bounds.now }
    ensures sum { (d : ℕ) → sum_by (jittered_cap d) (take result bounds.now)
        ≡ sum_by (jittered_cap d) (take from bounds.now) + (result - from) * jittered_cap d first.now }
{
    let mut end = from;
    while end < bounds.len() && are_same(&bounds[end], first) {
        end += 1;
    }
    end
}

/// Whether both are of one least interval and one jitter.
fn are_same(one: &Jittered, other: &Jittered) -> bool
    ensures { result ≡ true ↔ ((one.now.minimum ≡ other.now.minimum) × (one.now.jitter ≡ other.now.jitter)) }
{
    one.minimum == other.minimum && one.jitter == other.jitter
}
