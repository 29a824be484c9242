//! The margins of what was found of tables, where a delay that is out of range stands for none.

ghost use Rattle.std.specs.Prelude.{◌≡◌, ◌<◌};
ghost use Rattle.dc_cert.specs.Bounds.{certificate_rows};
ghost use Rattle.dc_check.specs.Placed.{member_count};
ghost use Rattle.dc_margin.specs.Found.{found_line_of, is_found, rests_on_found};
ghost use Rattle.dc_margin.specs.Lines.{IsLinePlaced};

use crate::labels::are_in_range;
use crate::lines::MarginLine;
use crate::queues::is_short;
use dc_check::{CertificateList, Condition, Fitted};

/// Whether the delay of an input or output was found; of a label those of its sources' buses.
fn is_found(fitted: &Fitted<'_>, list: CertificateList, index: usize) -> bool
    requires { index < member_count fitted.now.tables.now list }
    ensures { result ≡ is_found fitted.now.tables.now (certificate_rows fitted.now.certificate.now) list index }
{
    match list {
        CertificateList::Inputs => is_short(fitted.certificate.inputs[index].delay),
        CertificateList::Outputs => is_short(fitted.certificate.outputs[index].delay),
        CertificateList::Labels => are_in_range(fitted, index),
    }
}

/// Whether the margin of a condition rests on the backlog or the delay of a queue, on the age of a label or on the delays
/// of its sources' buses. C08 and C09, on the delay of the label's output, are not told by themselves where it is none.
fn rests_on_found(condition: Condition) -> bool
    ensures { result ≡ rests_on_found condition }
{
    match condition {
        Condition::BacklogTooSmall
        | Condition::QueueTooShort
        | Condition::DelayTooSmall
        | Condition::DelayOutOfRange
        | Condition::AgeTooSmall
        | Condition::AgeOverLimit
        | Condition::SourceGoesStale => true,
        _ => false,
    }
}

/// A line of what was found: its margin is not told where it rests on a number that was not found.
pub fn found_line(fitted: &Fitted<'_>, line: &MarginLine) -> MarginLine
    requires { IsLinePlaced fitted.now.tables.now line.now }
    ensures line { result ≡ found_line_of fitted.now.tables.now (certificate_rows fitted.now.certificate.now) line.now }
    ensures placed { IsLinePlaced fitted.now.tables.now result }
{
    let mut margin = line.margin;
    if rests_on_found(line.condition) && !is_found(fitted, line.list, line.index) {
        margin = None;
    }
    MarginLine {
        list: line.list,
        index: line.index,
        condition: line.condition,
        margin,
    }
}
