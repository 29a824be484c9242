//! The margins of a certificate in one row, in the order in which they are printed: a line for each condition.

ghost use Rattle.std.specs.Prelude.{◌≡◌, ◌<◌, IfOk, not};
ghost use Rattle.std.specs.List.{All};
ghost use Rattle.dc_cert.specs.Bounds.{certificate_rows};
ghost use Rattle.dc_check.specs.Verdict.{IsSized, job_count};
ghost use Rattle.dc_margin.specs.Lines.{IsLinePlaced, input_lines_of, output_lines_of, label_lines_of, lines_in, margin_lines_of, job_lines_of, measure_of};
ghost use Rattle.dc_margin.specs.Margins.{is_kept};

use crate::labels::label_margins;
use crate::margin::{InputMargins, LabelMargins, Margin, OutputMargins};
use crate::queues::{input_margins, output_margins};
use dc_cert::Certificate;
use dc_check::{CertificateList, Condition, Fitted};
use dc_tables::Tables;
use std::alloc::{AllocError, Global};

/// What a margin counts.
#[derive(Clone, Copy, Debug, PartialEq, Eq)]
pub enum Measure {
    /// Words: C03, C04 and C05.
    Words,
    /// Ticks: the other conditions.
    Ticks,
}

/// The margin of one condition of an input, an output or a label.
#[derive(Clone, Copy, Debug, PartialEq, Eq)]
pub struct MarginLine {
    /// The list of the input, output or label.
    pub list: CertificateList,
    /// The number of the input, output or label in its list, from 0.
    pub index: usize,
    /// The condition, C02 to C12.
    pub condition: Condition,
    /// `None` where it is not told, since it rests on a window or a delay that is out of range.
    pub margin: Option<Margin>,
}

impl MarginLine {
    /// Whether the margin is negative, or its slack is `None`. A margin that is not told is not.
    #[tactic(auto, unfolding(crate::specs::Margins::is_kept))]
    pub fn is_negative(&self) -> bool
        ensures { result ≡ not (is_kept self.now.margin) }
    {
        match self.margin {
            None => false,
            Some(margin) => match margin.slack {
                None => true,
                Some(slack) => slack < 0,
            },
        }
    }

    /// What the margin counts: words for C03, C04 and C05, ticks for the others.
    pub fn measure(&self) -> Measure
        ensures { result ≡ measure_of self.now.condition }
    {
        match self.condition {
            Condition::WindowDoesNotClose | Condition::BacklogTooSmall | Condition::QueueTooShort =>
                Measure::Words,
            _ => Measure::Ticks,
        }
    }
}

/// The lines of an input, an output or a label.
#[derive(Clone, Copy, Debug, PartialEq, Eq)]
pub enum MarginLines {
    /// Those of an input: C02, C07, C03, C04, C05, C06.
    Input([MarginLine; 6]),
    /// Those of an output: C02, C07, C03, C06.
    Output([MarginLine; 4]),
    /// Those of a label: C08 to C12.
    Label([MarginLine; 5]),
}

impl MarginLines {
    /// The lines in their order.
    pub fn as_slice(&self) -> &[MarginLine]
        ensures { result.now ≡ lines_in self.now }
    {
        match self {
            MarginLines::Input(lines) => lines,
            MarginLines::Output(lines) => lines,
            MarginLines::Label(lines) => lines,
        }
    }
}

/// The lines of the input of this number: C02, C07, C03, C04, C05, C06.
pub fn input_lines(bus: usize, margins: &InputMargins) -> [MarginLine; 6]
    ensures { result ≡ input_lines_of bus margins.now }
{
    let line = |condition: Condition, margin: Option<Margin>| MarginLine {
        list: CertificateList::Inputs,
        index: bus,
        condition,
        margin,
    };
    [
        line(Condition::WindowOutOfRange, margins.window),
        line(Condition::DelayOutOfRange, margins.delay_limit),
        line(Condition::WindowDoesNotClose, margins.closes),
        line(Condition::BacklogTooSmall, margins.backlog),
        line(Condition::QueueTooShort, margins.queue),
        line(Condition::DelayTooSmall, margins.delay),
    ]
}

/// The lines of the output of this number: C02, C07, C03, C06.
pub fn output_lines(output: usize, margins: &OutputMargins) -> [MarginLine; 4]
    ensures { result ≡ output_lines_of output margins.now }
{
    let line = |condition: Condition, margin: Option<Margin>| MarginLine {
        list: CertificateList::Outputs,
        index: output,
        condition,
        margin,
    };
    [
        line(Condition::WindowOutOfRange, margins.window),
        line(Condition::DelayOutOfRange, margins.delay_limit),
        line(Condition::WindowDoesNotClose, margins.closes),
        line(Condition::DelayTooSmall, margins.delay),
    ]
}

/// The lines of the label of this number: C08 to C12.
pub fn label_lines(label: usize, margins: &LabelMargins) -> [MarginLine; 5]
    ensures { result ≡ label_lines_of label margins.now }
{
    let line = |condition: Condition, margin: Option<Margin>| MarginLine {
        list: CertificateList::Labels,
        index: label,
        condition,
        margin,
    };
    [
        line(Condition::SentTooSoon, margins.soon),
        line(Condition::SentTooLate, margins.late),
        line(Condition::AgeTooSmall, margins.age),
        line(Condition::AgeOverLimit, margins.age_limit),
        line(Condition::SourceGoesStale, margins.fresh),
    ]
}

/// How many inputs, outputs and labels there are.
pub fn line_jobs(tables: &Tables) -> usize
    ensures { result ≡ job_count tables.now }
{
    tables.valid();
    tables.bus_count() + tables.output_count() + tables.label_count()
}

/// The lines of the job of this number: the inputs, the outputs and the labels in one row, from 0. One job after
/// another they are the lines of [`margin_lines`].
#[tactic(auto, unfolding(crate::specs::Lines::job_lines_of))]
pub fn job_lines(tables: &Tables, certificate: &Certificate, job: usize) -> MarginLines
    requires sized { IsSized tables.now (certificate_rows certificate.now) }
    requires there { job < job_count tables.now }
    ensures lines { lines_in result ≡ job_lines_of tables.now (certificate_rows certificate.now) job }
    ensures placed { All (IsLinePlaced tables.now) (lines_in result) }
{
    tables.valid();
    let fitted = Fitted {
        tables,
        certificate,
    };
    let buses = tables.bus_count();
    let outputs = tables.output_count();
    if job < buses {
        let margins = input_margins(&fitted, job);
        return MarginLines::Input(input_lines(job, &margins));
    }
    if job < buses + outputs {
        let output = job - buses;
        let margins = output_margins(&fitted, output);
        return MarginLines::Output(output_lines(output, &margins));
    }
    let label = job - (buses + outputs);
    let margins = label_margins(&fitted, label);
    MarginLines::Label(label_lines(label, &margins))
}

/// The lines of all margins of a certificate: those of the inputs, the outputs and the labels, in their order.
///
/// # Errors
/// `AllocError` where an allocation failed.
pub fn margin_lines(
    alloc: Global,
    tables: &Tables,
    certificate: &Certificate,
) -> Result<Vec<MarginLine>, AllocError>
    requires { IsSized tables.now (certificate_rows certificate.now) }
    ensures lines { IfOk result (λ v. v.items ≡ margin_lines_of tables.now (certificate_rows certificate.now)) }
    ensures placed { IfOk result (λ v. All (IsLinePlaced tables.now) v.items) }
{
    let mut lines = Vec::new(alloc);
    for job in 0..line_jobs(tables) {
        let own = job_lines(tables, certificate, job);
        lines.extend_from_slice(own.as_slice())?;
    }
    Ok(lines)
}
