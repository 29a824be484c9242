//! What clocks that drift ask and keep, row by row.

ghost use Rattle.std.specs.Prelude.{◌≡◌, ◌<◌, length};
ghost use Rattle.dc_drift.specs.Drift.{drifting_intervals, oldest_of};

use crate::rounding::{MILLION, longest, rounded_down, rounded_up, shortest};
use dc_tables::Tables;

/// What is asked of a stream, in microseconds.
#[derive(Clone, Copy, Debug, PartialEq, Eq)]
pub struct SourceIntervals {
    /// The least interval between two of its words without jitter.
    pub least: u64,
    /// The greatest interval between two of its words.
    pub most: u64,
    /// How late of their rhythm its words may come.
    pub jitter: u64,
}

/// What a label keeps, in microseconds.
#[derive(Clone, Copy, Debug, PartialEq, Eq)]
pub struct SentIntervals {
    /// Two of its words are more than this apart.
    pub least: u64,
    /// Two of its words that follow one another are less than this apart.
    pub most: u64,
}

/// The least time between two words on a wire under clocks that drift by up to `drift` millionths, in microseconds.
pub fn wire_spacing(tables: &Tables, bus: usize, drift: u16) -> u64
    requires { bus < length tables.now.buses }
    ensures { result ≡ (drifting_intervals tables.now drift).spacing bus }
{
    rounded_up(
        u64::from(tables.bus(bus).spacing),
        MILLION + u64::from(drift),
    )
}

/// What is asked of a stream under clocks that drift by up to `drift` millionths.
pub fn source_intervals(tables: &Tables, stream: usize, drift: u16) -> SourceIntervals
    requires { stream < length tables.now.streams }
    ensures least { result.least ≡ (drifting_intervals tables.now drift).stream_least stream }
    ensures most { result.most ≡ (drifting_intervals tables.now drift).stream_most stream }
    ensures jitter { result.jitter ≡ (drifting_intervals tables.now drift).stream_jitter stream }
{
    tables.valid();
    let row = tables.stream(stream);
    let shortest = shortest(tables.tick_us(), drift);
    let longest = longest(tables.tick_us(), drift);
    SourceIntervals {
        least: rounded_up(u64::from(row.minimum), longest),
        most: rounded_down(u64::from(row.maximum), shortest),
        jitter: rounded_down(u64::from(row.jitter), longest),
    }
}

/// What a label keeps under clocks that drift by up to `drift` millionths.
pub fn sent_intervals(tables: &Tables, label: usize, drift: u16) -> SentIntervals
    requires { label < length tables.now.labels }
    ensures least { result.least ≡ (drifting_intervals tables.now drift).label_least label }
    ensures most { result.most ≡ (drifting_intervals tables.now drift).label_most label }
{
    tables.valid();
    let row = tables.label(label);
    let shortest = shortest(tables.tick_us(), drift);
    let longest = longest(tables.tick_us(), drift);
    SentIntervals {
        least: rounded_down(u64::from(row.minimum.saturating_sub(1)), shortest),
        most: rounded_up(u64::from(row.maximum) + 1, longest),
    }
}

/// A word that leaves is younger than so many microseconds, where its age is at most `age` ticks, under clocks that
/// drift by up to `drift` millionths.
pub fn oldest(tables: &Tables, age: u32, drift: u16) -> u64
    ensures { result ≡ oldest_of tables.now drift age }
{
    tables.valid();
    rounded_up(u64::from(age) + 1, longest(tables.tick_us(), drift))
}
