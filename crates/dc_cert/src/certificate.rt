//! What a certificate says. A row bounds none of its numbers: which are accepted for tables `dc_check` says.

use dc_document::Name;

/// What is claimed of an input bus.
#[derive(Clone, Copy, Debug, PartialEq, Eq)]
pub struct InputRow {
    /// The bus's name.
    pub bus: Name,
    /// The window that is claimed to close, in ticks; accepted from 1 to `dc_busy::LONGEST_WINDOW` (C02).
    pub window: u32,
    /// The most words that are claimed to wait in the receive queue; accepted up to its capacity (C05).
    pub backlog: u32,
    /// The longest wait that is claimed of a word in the receive queue, in ticks; accepted up to
    /// `dc_busy::LONGEST_WINDOW` (C07).
    pub delay: u32,
}

/// What is claimed of an output.
#[derive(Clone, Copy, Debug, PartialEq, Eq)]
pub struct OutputRow {
    /// The output's name.
    pub output: Name,
    /// The window that is claimed to close, in ticks; accepted from 1 to `dc_busy::LONGEST_WINDOW` (C02).
    pub window: u32,
    /// The longest wait that is claimed of a due entry, in ticks; accepted up to `dc_busy::LONGEST_WINDOW` (C07).
    pub delay: u32,
}

/// What is claimed of a label that is sent.
#[derive(Clone, Copy, Debug, PartialEq, Eq)]
pub struct LabelRow {
    /// The label's name.
    pub label: Name,
    /// The greatest age that is claimed of the data that are sent, in ticks; accepted up to the label's limit (C11).
    pub age: u32,
}

/// The claims for the inputs, the outputs and the labels, each in the order of the text.
#[derive(Debug, PartialEq, Eq)]
pub struct Certificate {
    /// The claims for the input buses.
    pub inputs: Vec<InputRow>,
    /// The claims for the outputs.
    pub outputs: Vec<OutputRow>,
    /// The claims for the labels.
    pub labels: Vec<LabelRow>,
}

// Dropped by one call, which is proved here and not in each crate that owns one.
impl Drop for Certificate {
    fn drop(self) {
        let Certificate {
            inputs: _,
            outputs: _,
            labels: _,
        } = self;
    }
}
