//! Outputs and the ticks in which their labels are due, as they are planned.
use dc_design_rows::Span;
use std::alloc::Global;

/// An output.
#[derive(Clone, Copy)]
pub struct OutputPlan {
    /// It sends so often ..
    pub steps: u64,
    /// .. in each so many ticks.
    pub within: u64,
    /// After so many ticks its entries are due again.
    pub frame: u64,
    /// So many entries it has.
    pub entries: u64,
    /// So many percent of the wire they take.
    pub load: u64,
}

/// The frames of all outputs.
#[derive(Drop)]
pub struct Frames {
    /// The outputs, in the order of the document's.
    pub outputs: Vec<OutputPlan>,
    /// When each label is due, in the order of [`Document::on_output`](dc_design_rows::Document::on_output): places of
    /// [`Frames::offsets`].
    pub labels: Vec<Span>,
    /// The ticks of its output's frame in which a label is due, label by label, in ascending order.
    pub offsets: Vec<u64>,
}

impl Frames {
    /// No frames yet.
    pub fn new(alloc: Global) -> Frames {
        Frames {
            outputs: Vec::new(alloc),
            labels: Vec::new(alloc),
            offsets: Vec::new(alloc),
        }
    }
}
