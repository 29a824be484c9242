//! Why a capture is refused.
ghost use Rattle.std.specs.Prelude.{◌≡◌, ◌≤◌, length};
ghost use Rattle.dc_capture.specs.CaptureFaults.{capture_rule_code};

use thiserror::Error;

/// The rules of a capture's lines, in the order in which they are judged for one line.
#[derive(Clone, Copy, Debug, PartialEq, Eq, Error)]
pub enum CaptureRule {
    /// E1: the line has over [`LINE_LIMIT`](dc_device::LINE_LIMIT) bytes, or the capture passes its limit.
    #[error("the line has over 64 bytes, or the capture passes its limit")]
    LineTooLong,
    /// E6: the input ends inside a line that has at least one byte.
    #[error("the input ends inside a line")]
    LineNotEnded,
    /// E3: the line has not three fields.
    #[error("the line has not three fields")]
    FieldCountWrong,
    /// E7: the first field is no decimal number of at most [`LAST_TIME`](crate::LAST_TIME).
    #[error("the first field is no time in microseconds of at most 2^53")]
    NotATime,
    /// E4: the bus is not in the tables.
    #[error("the bus is not in the tables")]
    NameUnknown,
    /// E5: the word is not eight hexadecimal digits.
    #[error("the word is not eight hexadecimal digits")]
    NotAWord,
    /// E8: the time is less than that of the line before.
    #[error("the time is less than that of the line before")]
    TimeFalls,
}

impl CaptureRule {
    /// The code as it is printed, as `E7`.
    pub fn code(self) -> &'static str
        ensures text { result.now ≡ capture_rule_code self }
        ensures short { length result.now ≤ 2 }
    {
        match self {
            CaptureRule::LineTooLong => "E1",
            CaptureRule::LineNotEnded => "E6",
            CaptureRule::FieldCountWrong => "E3",
            CaptureRule::NotATime => "E7",
            CaptureRule::NameUnknown => "E4",
            CaptureRule::NotAWord => "E5",
            CaptureRule::TimeFalls => "E8",
        }
    }
}

/// A refused line of a capture.
#[derive(Clone, Copy, Debug, PartialEq, Eq, Error)]
#[error("{rule} (at line {line})")]
pub struct CaptureFault {
    /// The rule that the line breaks.
    pub rule: CaptureRule,
    /// The number of the line, from 1.
    pub line: u64,
}

/// Why a reader of a capture tells no more words.
#[derive(Clone, Copy, Debug, PartialEq, Eq)]
pub enum CaptureStop {
    /// The text ended after its last line.
    End,
    /// A line is refused.
    Fault(CaptureFault),
    /// The source failed.
    Broken,
}
