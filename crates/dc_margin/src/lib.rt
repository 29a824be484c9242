//! The margins of a certificate: how far each of its conditions is from failing, and what decides it.
#![tactic(auto)]

mod found;
mod labels;
pub mod laws;
mod lines;
mod margin;
mod peaks;
mod queues;
mod verdict;

pub use found::found_line;
pub use labels::label_margins;
pub use lines::{
    MarginLine, MarginLines, Measure, input_lines, job_lines, label_lines, line_jobs, margin_lines,
    output_lines,
};
pub use margin::{Decider, InputMargins, LabelMargins, Margin, OutputMargins};
pub use peaks::{Peak, Peaks, peaks_of};
pub use queues::{input_margins, output_margins};
pub use verdict::verdict_fault;
