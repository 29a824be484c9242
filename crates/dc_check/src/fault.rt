//! Why a certificate is refused, and where.
ghost use Rattle.std.specs.Prelude.{◌≡◌, ◌≤◌, length};
ghost use Rattle.dc_check.specs.FaultText.{condition_code};

use thiserror::Error;

/// The conditions of acceptance, in the order of their codes; this project's own. What comes and what is taken are
/// meant by the bounds of the tables.
#[derive(Clone, Copy, Debug, PartialEq, Eq, Error)]
pub enum Condition {
    /// C01: the inputs, outputs or labels are not those of the tables, once each and in their order.
    #[error("the names are not those of the tables, once each and in their order")]
    NamesDiffer,
    /// C02: a window is outside 1 to [`LONGEST_WINDOW`](dc_busy::LONGEST_WINDOW) ticks.
    #[error("the window is not in the range 1 to 100000")]
    WindowOutOfRange,
    /// C03: the window does not close: more may come in it than is taken in its ticks but the first.
    #[error("the window does not close")]
    WindowDoesNotClose,
    /// C04: more than the backlog may wait at some place of the window.
    #[error("more may wait than the backlog")]
    BacklogTooSmall,
    /// C05: the backlog is over the queue's capacity, in words.
    #[error("the backlog is over the capacity of the queue")]
    QueueTooShort,
    /// C06: some word may wait longer than the delay.
    #[error("a word may wait longer than the delay")]
    DelayTooSmall,
    /// C07: a delay is over [`LONGEST_WINDOW`](dc_busy::LONGEST_WINDOW) ticks.
    #[error("the delay is over 100000")]
    DelayOutOfRange,
    /// C08: two words of the label may follow each other too soon: its least gap is below its least interval and the
    /// delay of its output.
    #[error("the least gap is below the least interval plus the delay of the output")]
    SentTooSoon,
    /// C09: two words of the label may follow each other too late: its greatest gap and the delay of its output are
    /// above its greatest interval.
    #[error("the greatest gap plus the delay of the output is over the greatest interval")]
    SentTooLate,
    /// C10: a word may be copied that is older than the age: the age is below the label's stale limit and the delay of
    /// a source's bus.
    #[error("the age is below the stale limit plus the greatest delay of a source")]
    AgeTooSmall,
    /// C11: the age is over the label's limit, in ticks.
    #[error("the age is over the limit of the label")]
    AgeOverLimit,
    /// C12: a source that keeps sending may be stale: the stale limit is below the delay of a source's bus and the
    /// source's greatest interval.
    #[error("the stale limit is below the delay plus the greatest interval of a source")]
    SourceGoesStale,
}

impl Condition {
    /// The code as it is printed, as `C03`.
    pub fn code(self) -> &'static str
        ensures text { result.now ≡ condition_code self }
        ensures short { length result.now ≤ 3 }
    {
        match self {
            Condition::NamesDiffer => "C01",
            Condition::WindowOutOfRange => "C02",
            Condition::WindowDoesNotClose => "C03",
            Condition::BacklogTooSmall => "C04",
            Condition::QueueTooShort => "C05",
            Condition::DelayTooSmall => "C06",
            Condition::DelayOutOfRange => "C07",
            Condition::SentTooSoon => "C08",
            Condition::SentTooLate => "C09",
            Condition::AgeTooSmall => "C10",
            Condition::AgeOverLimit => "C11",
            Condition::SourceGoesStale => "C12",
        }
    }
}

/// The list of a certificate that a fault is in.
#[derive(Clone, Copy, Debug, PartialEq, Eq, Error)]
pub enum CertificateList {
    /// The input buses.
    #[error("inputs")]
    Inputs,
    /// The outputs.
    #[error("outputs")]
    Outputs,
    /// The labels.
    #[error("labels")]
    Labels,
}

/// The first fault of a certificate.
#[derive(Clone, Copy, Debug, PartialEq, Eq, Error)]
#[error("{list} {index}, window {window}: {condition}")]
pub struct CheckFault {
    /// The condition that fails.
    pub condition: Condition,
    /// The list in which it fails.
    pub list: CertificateList,
    /// The number of the input, output or label in its list, from 0; 0 for `NamesDiffer`, which is of the list as a
    /// whole.
    pub index: usize,
    /// The first number of ticks that fails, from 1 to the window, for `BacklogTooSmall` and `DelayTooSmall`; 0 for the
    /// others.
    pub window: u32,
}
