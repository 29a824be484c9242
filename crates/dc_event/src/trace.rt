//! Why a trace is refused.
ghost use Rattle.std.specs.Prelude.{◌≡◌, ◌≤◌, length};
ghost use Rattle.dc_event.specs.TraceFaults.{line_rule_code};

use thiserror::Error;

/// The rules of a trace's lines, in the order of their codes. For one line `LineTooLong` comes first, then
/// `LineNotEnded`, then the others in their order.
#[derive(Clone, Copy, Debug, PartialEq, Eq, Error)]
pub enum LineRule {
    /// E1: the line has over [`LINE_LIMIT`](dc_device::LINE_LIMIT) bytes, or the trace passes its limit.
    #[error("the line has over 64 bytes, or the trace passes its limit")]
    LineTooLong,
    /// E2: the first field is not A, R, S or T.
    #[error("the first field is not A, R, S or T")]
    KindUnknown,
    /// E3: the number of fields is not that of the kind.
    #[error("the number of fields is not that of the kind")]
    FieldCountWrong,
    /// E4: the name is not in the tables.
    #[error("the name is not in the tables")]
    NameUnknown,
    /// E5: the word is not eight hexadecimal digits.
    #[error("the word is not eight hexadecimal digits")]
    NotAWord,
    /// E6: the input ends inside a line that has at least one byte.
    #[error("the input ends inside a line")]
    LineNotEnded,
}

impl LineRule {
    /// The code as it is printed, as `E4`.
    pub fn code(self) -> &'static str
        ensures text { result.now ≡ line_rule_code self }
        ensures short { length result.now ≤ 2 }
    {
        match self {
            LineRule::LineTooLong => "E1",
            LineRule::KindUnknown => "E2",
            LineRule::FieldCountWrong => "E3",
            LineRule::NameUnknown => "E4",
            LineRule::NotAWord => "E5",
            LineRule::LineNotEnded => "E6",
        }
    }
}

/// A refused line of a trace.
#[derive(Clone, Copy, Debug, PartialEq, Eq, Error)]
#[error("{rule} (at line {line})")]
pub struct TraceFault {
    /// The rule that the line breaks.
    pub rule: LineRule,
    /// The number of the line, from 1.
    pub line: u64,
}

/// Why a reader of a trace tells no more events.
#[derive(Clone, Copy, Debug, PartialEq, Eq)]
pub enum TraceStop {
    /// The text ended after its last line.
    End,
    /// A line is refused.
    Fault(TraceFault),
    /// The source failed.
    Broken,
}
