//! The rows of valid tables.

ghost use Rattle.std.specs.Prelude.{◌≡◌, ◌↔◌, [], length, IsTrue};

use dc_word::{Format, Label, Sdi};
use std::marker::Model;

/// A receive bus. The ranges here and below are those of the rows of [`Tables`](crate::Tables), by its `valid`; the
/// limits are this project's own, as in `dc_document`.
#[derive(Clone, Copy, Debug, PartialEq)]
pub struct Bus {
    /// The capacity of its receive queue in words, 1 to [`GREATEST_QUEUE`](dc_bound::GREATEST_QUEUE).
    pub queue: u32,
    /// Whether it refuses early words.
    pub police: bool,
    /// The least time between two words on its wire, in microseconds, 1 or more.
    pub spacing: u32,
    /// The number of its first stream.
    pub first: usize,
    /// How many streams it has, those from number `first` on: 1 to [`MOST_MEMBERS`](dc_document::MOST_MEMBERS).
    pub streams: usize,
    /// The number of the router that visits it, the only one.
    pub router: usize,
}

/// A stream of words: what it declares, and how its words come, in ticks.
#[derive(Clone, Copy, Debug, PartialEq)]
pub struct Stream {
    /// The number of the bus that brings it.
    pub bus: usize,
    /// The label of its words.
    pub label: Label,
    /// The SDI of its words; `None` for any.
    pub sdi: Option<Sdi>,
    /// The format of its data.
    pub format: Format,
    /// The least interval between two of its words without jitter, in ticks: 1 to `maximum`.
    pub minimum: u32,
    /// The greatest interval between two of its words, in ticks, up to
    /// [`LONGEST_INTERVAL`](dc_document::LONGEST_INTERVAL).
    pub maximum: u32,
    /// How late of their rhythm its words may come, in ticks, up to [`GREATEST_JITTER`](dc_document::GREATEST_JITTER).
    pub jitter: u32,
}

/// A router: its budget, and the buses that it visits in turn. `steps` is at most `most` x `within`.
#[derive(Debug, Drop)]
pub struct Router {
    /// Its fewest steps in each `within` whole ticks, 1 to [`MOST_STEPS`](dc_document::MOST_STEPS).
    pub steps: u32,
    /// In so many ticks, 1 to [`LONGEST_WITHIN`](dc_document::LONGEST_WITHIN), it makes `steps` steps or more.
    pub within: u32,
    /// Its most steps in one tick, 1 to [`MOST_STEPS`](dc_document::MOST_STEPS).
    pub most: u32,
    /// The numbers of the buses that it visits in turn, 1 to [`MOST_VISITS`](dc_document::MOST_VISITS) of them.
    pub visits: Numbers,
}

/// An output: its budget, and its frame. `steps` x `gap` is at most `within`.
#[derive(Debug, Drop)]
pub struct Output {
    /// Its fewest sends in each `within` whole ticks, 1 to [`MOST_STEPS`](dc_document::MOST_STEPS).
    pub steps: u32,
    /// In so many ticks, 1 to [`LONGEST_WITHIN`](dc_document::LONGEST_WITHIN), it makes `steps` sends or more.
    pub within: u32,
    /// How many ticks two of its sends lie apart at least, 1 or more.
    pub gap: u32,
    /// After so many ticks, 1 to [`LONGEST_FRAME`](dc_bound::LONGEST_FRAME), its entries are due again.
    pub frame: u32,
    /// The entries of its frame in ascending order of offset, 1 to [`MOST_ENTRIES`](dc_bound::MOST_ENTRIES) of them.
    pub entries: Entries,
}

/// An entry of a frame: a tick of it in which a label is due.
#[derive(Clone, Copy, Debug, PartialEq)]
pub struct Entry {
    /// The tick of the frame in which the label is due, below the length of the frame.
    pub offset: u32,
    /// The number of the label among the labels of all outputs.
    pub label: usize,
}

/// A label that an output sends.
#[derive(Debug, Drop)]
pub struct OutputLabel {
    /// The number of its output.
    pub output: usize,
    /// The label of its words.
    pub label: Label,
    /// The SDI of its words.
    pub sdi: Sdi,
    /// The format of its data.
    pub format: Format,
    /// The numbers of its streams in order of priority, 1 to [`MOST_SOURCES`](dc_document::MOST_SOURCES) that differ.
    pub sources: Numbers,
    /// How many ticks after it was routed a word is fresh, 1 to [`LONGEST_STALE`](dc_document::LONGEST_STALE).
    pub stale: u32,
    /// The limit on the age of its data in ticks, 1 to [`GREATEST_AGE`](dc_document::GREATEST_AGE).
    pub age_limit: u32,
    /// The least interval between two of its words, in ticks, up to `maximum`.
    pub minimum: u32,
    /// The greatest interval between two of its words, in ticks, up to
    /// [`LONGEST_INTERVAL`](dc_document::LONGEST_INTERVAL).
    pub maximum: u32,
}

/// A list of numbers of rows, each from 0.
#[derive(Debug, Drop)]
pub struct Numbers {
    items: Vec<usize>,
}

impl Model for Numbers {
    ghost use Rattle.std.specs.Prelude.{ℕ, List};

    ghost Value = { List ℕ };

    ghost view = { λ n. n.items.items };
}

impl Numbers {
    /// These numbers.
    pub fn new(items: Vec<usize>) -> Numbers
        ensures { result ≡ items.items }
    {
        Numbers { items }
    }

    /// How many there are.
    pub fn len(&self) -> usize
        ensures { result ≡ length self.now }
    {
        self.items.len()
    }

    /// Whether there are none.
    pub fn is_empty(&self) -> bool
        ensures { IsTrue result ↔ (self.now ≡ []) }
    {
        self.items.is_empty()
    }

    /// The numbers, in order.
    pub fn as_slice(&self) -> &[usize]
        ensures { result.now ≡ self.now }
    {
        self.items.as_slice()
    }
}

/// The entries of a frame.
#[derive(Debug, Drop)]
pub struct Entries {
    items: Vec<Entry>,
}

impl Model for Entries {
    ghost use Rattle.std.specs.Prelude.{List};
    ghost use Rattle.dc_tables.specs.declared.rows.Entry.{Entry};

    ghost Value = { List Entry };

    ghost view = { λ e. e.items.items };
}

impl Entries {
    /// These entries.
    pub fn new(items: Vec<Entry>) -> Entries
        ensures { result ≡ items.items }
    {
        Entries { items }
    }

    /// How many there are.
    pub fn len(&self) -> usize
        ensures { result ≡ length self.now }
    {
        self.as_slice().len()
    }

    /// Whether there are none.
    pub fn is_empty(&self) -> bool
        ensures { IsTrue result ↔ (self.now ≡ []) }
    {
        self.as_slice().is_empty()
    }

    /// The entries, in order.
    pub fn as_slice(&self) -> &[Entry]
        ensures { result.now ≡ self.now }
    {
        &self.items
    }
}
