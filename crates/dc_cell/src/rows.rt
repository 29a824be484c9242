//! The rows of the two sheets of an interface document, as their cells say them.

use crate::shown::Shown;
use crate::times::TimeUnit;
use dc_dict::Equipment;
use dc_document::{Name, Speed};
use dc_word::{Format, Label, Sdi};

/// What a task surely does: a router's steps, of which each visits a queue, or an output's sends.
#[derive(Clone, Copy, Debug, PartialEq)]
pub struct Task {
    /// So many steps or more, 1 to [`MOST_STEPS`](dc_document::MOST_STEPS) ..
    pub steps: u32,
    /// .. in any so many microseconds, 1 to [`MOST_US`](crate::MOST_US).
    pub within_us: u32,
}

/// A row of the inputs: the words of one label that come on a bus, with one SDI or with any.
#[derive(Clone, Copy, Debug, PartialEq)]
pub struct InputRow {
    /// Its number at the margin of the spreadsheet; the header is row 1.
    pub row: u32,
    /// The bus on which its words come.
    pub bus: Name,
    /// The speed of that bus.
    pub speed: Speed,
    /// The label of its words.
    pub label: Label,
    /// The equipment code of who sends them.
    pub equipment: Equipment,
    /// The format of their data.
    pub format: Format,
    /// The least interval between two of its words in microseconds, 1 to [`MOST_US`](crate::MOST_US), at most `max_us`.
    pub min_us: u32,
    /// The greatest interval between two of its words in microseconds, at most [`MOST_US`](crate::MOST_US).
    pub max_us: u32,
    /// The SDI of its words; `None` for any.
    pub sdi: Option<Sdi>,
    /// How late of their rhythm its words may come, in microseconds, at most [`MOST_US`](crate::MOST_US).
    pub jitter_us: u32,
    /// Whether its bus is to refuse early words.
    pub police: bool,
    /// How many words the queue of its bus takes, 1 to [`GREATEST_QUEUE`](dc_bound::GREATEST_QUEUE), where it is said.
    pub queue: Option<u32>,
    /// The router of its bus, where one is named.
    pub router: Option<Name>,
    /// What the task of that router surely does, where it is said.
    pub task: Option<Task>,
    /// What the stream is called, where it is named.
    pub name: Option<Name>,
}

/// A row of the outputs: what leaves an output under one label and SDI.
#[derive(Debug, Drop)]
pub struct OutputRow {
    /// Its number at the margin of the spreadsheet; the header is row 1.
    pub row: u32,
    /// The output that sends it.
    pub output: Name,
    /// The speed of that output.
    pub speed: Speed,
    /// The label of its words.
    pub label: Label,
    /// The equipment code that they are to carry.
    pub equipment: Equipment,
    /// The format of their data; `None` for that of the sources.
    pub format: Option<Format>,
    /// The least interval between two of its words in microseconds, 1 to [`MOST_US`](crate::MOST_US), at most `max_us`.
    pub min_us: u32,
    /// The greatest interval between two of its words in microseconds, at most [`MOST_US`](crate::MOST_US).
    pub max_us: u32,
    /// The SDI of its words, 0 where none is said.
    pub sdi: Sdi,
    /// What the label is called, where it is named.
    pub name: Option<Name>,
    /// The names of its streams as they are written, in the order of the columns; maybe none, maybe more than a label
    /// may have.
    pub sources: Vec<Name>,
    /// How old its data may be at most when it is sent, in microseconds, where that is said.
    pub max_age_us: Option<u32>,
    /// How long a source that is silent counts as live, in microseconds, where that is said.
    pub timeout_us: Option<u32>,
    /// What the task of its output surely does, where it is said.
    pub task: Option<Task>,
}

/// A title of a column that is not read.
#[derive(Clone, Copy, Debug, PartialEq)]
pub struct UnreadTitle {
    /// The title, as it is shown.
    pub title: Shown,
    /// Whether a column of the other sheet has it.
    pub is_of_other: bool,
}

/// The sheet of the inputs.
#[derive(Debug)]
pub struct Inputs {
    /// Its rows from the top.
    pub rows: Vec<InputRow>,
    /// The titles of columns that are not read, from the left, the first [`MOST_UNREAD`](crate::MOST_UNREAD) of them.
    pub unread: Vec<UnreadTitle>,
    /// The unit of its title of least intervals.
    pub min_unit: TimeUnit,
}

// Dropped by one call, which is proved here and not in each crate that owns one.
impl Drop for Inputs {
    fn drop(self) {
        let Inputs {
            rows: _,
            unread: _,
            min_unit: _,
        } = self;
    }
}

/// The sheet of the outputs.
#[derive(Debug)]
pub struct Outputs {
    /// Its rows from the top.
    pub rows: Vec<OutputRow>,
    /// The titles of columns that are not read, from the left, the first [`MOST_UNREAD`](crate::MOST_UNREAD) of them.
    pub unread: Vec<UnreadTitle>,
    /// The unit of its title of greatest intervals.
    pub max_unit: TimeUnit,
    /// The unit of its title of greatest ages, microseconds where it has none.
    pub max_age_unit: TimeUnit,
    /// The unit of its title of timeouts, microseconds where it has none.
    pub timeout_unit: TimeUnit,
}

// Dropped by one call, which is proved here and not in each crate that owns one.
impl Drop for Outputs {
    fn drop(self) {
        let Outputs {
            rows: _,
            unread: _,
            max_unit: _,
            max_age_unit: _,
            timeout_unit: _,
        } = self;
    }
}
