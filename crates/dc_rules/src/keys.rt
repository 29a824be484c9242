//! What must differ between tables of one document.

use dc_word::{Label, Sdi};

/// What must differ between the labels of all outputs.
#[derive(Clone, Copy, Debug, PartialEq, Eq, Hash)]
pub struct LabelKey {
    pub output: usize,
    pub label: Label,
    pub sdi: Sdi,
}

/// What must differ between the entries of all outputs.
#[derive(Clone, Copy, Debug, PartialEq, Eq, Hash)]
pub struct PlacedOffset {
    pub output: usize,
    pub offset: u32,
}

/// An entry of a frame, with its output.
#[derive(Clone, Copy, Debug, PartialEq)]
pub struct PlacedEntry {
    /// The number of its output, from 0.
    pub output: usize,
    /// The tick of the frame in which it is due.
    pub offset: u32,
    /// The number of its label among the labels of all outputs, from 0.
    pub label: usize,
}

/// A label on a bus.
#[derive(Clone, Copy, Debug, PartialEq, Eq, Hash)]
pub struct BusLabel {
    pub bus: usize,
    pub label: Label,
}

/// A label on a bus with one SDI, or with any.
#[derive(Clone, Copy, Debug, PartialEq, Eq, Hash)]
pub struct Declared {
    pub bus: usize,
    pub label: Label,
    pub sdi: Option<Sdi>,
}
