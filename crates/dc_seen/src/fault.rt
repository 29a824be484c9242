//! Why a text of observed numbers is refused.
ghost use Rattle.std.specs.Prelude.{◌≡◌, ◌≤◌, length};
ghost use Rattle.dc_seen.specs.Faults.{seen_rule_code};

use thiserror::Error;

/// The rules of the lines, in the order in which they are judged for one line.
#[derive(Clone, Copy, Debug, PartialEq, Eq, Error)]
pub enum SeenRule {
    /// E1: the line has over [`LINE_LIMIT`](crate::LINE_LIMIT) bytes, or the text passes
    /// [`TEXT_LIMIT`](dc_document::TEXT_LIMIT) in it.
    #[error("the line has over 256 bytes, or the text passes its limit")]
    LineTooLong,
    /// E6: the text ends inside a line that has at least one byte.
    #[error("the text ends inside a line")]
    LineNotEnded,
    /// E2: the first field is not `input`, `output` or `label`.
    #[error("the first field is not input, output or label")]
    KindUnknown,
    /// E3: the fields are not those of the kind, by their number or by a word between them.
    #[error("the fields are not those of the kind")]
    FieldsWrong,
    /// E4: the kind and the name are not those that are next in the tables, or a line is missing or too many.
    #[error("the kind or the name is not the next of the tables")]
    NotNext,
    /// E5: a number is none below 2^64 in decimal digits, or one behind `of` is not its bound.
    #[error("a number is none, or a bound is not that of the certificate or of the tables")]
    NumberWrong,
}

impl SeenRule {
    /// The code as it is printed, as `E4`.
    pub fn code(self) -> &'static str
        ensures text { result.now ≡ seen_rule_code self }
        ensures short { length result.now ≤ 2 }
    {
        match self {
            SeenRule::LineTooLong => "E1",
            SeenRule::LineNotEnded => "E6",
            SeenRule::KindUnknown => "E2",
            SeenRule::FieldsWrong => "E3",
            SeenRule::NotNext => "E4",
            SeenRule::NumberWrong => "E5",
        }
    }
}

/// A refused line.
#[derive(Clone, Copy, Debug, PartialEq, Eq, Error)]
#[error("{rule} (at line {line})")]
pub struct SeenFault {
    /// The first rule that the line breaks.
    pub rule: SeenRule,
    /// The number of the line, from 1; of a missing line that behind the last.
    pub line: u64,
}

/// Why nothing is known of a text.
#[derive(Clone, Copy, Debug, PartialEq, Eq)]
pub enum Unread {
    /// This is its first fault.
    Refused(SeenFault),
    /// Memory was refused.
    Memory,
}
