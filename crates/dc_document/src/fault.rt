//! The rules of tables, and the place at which one is broken.

ghost use Rattle.std.specs.Prelude.{◌≡◌, ◌≤◌, length, Some};
ghost use Rattle.dc_document.specs.declared.fault.BuildError.TheVariants.{Refused, Memory};
ghost use Rattle.dc_document.specs.FaultText.{rule_code, explained, explanation, section_text};

use std::alloc::AllocError;
use std::error::Error;
use std::fmt;

/// The rules of tables, in the order in which they are tested.
#[derive(Clone, Copy, Debug, PartialEq, Eq)]
pub enum TableRule {
    /// T01: the text is over its limit, not UTF-8 or no TOML document.
    NotToml,
    /// T02: `version` is absent or neither 1 nor 2.
    VersionUnknown,
    /// T03: a wanted key is absent.
    KeyAbsent,
    /// T04: a key is unknown.
    KeyUnknown,
    /// T05: a value is not of its key's kind.
    WrongKind,
    /// T06: a number is outside its range.
    NumberOutOfRange,
    /// T07: a text is not in its spelling.
    WrongSpelling,
    /// T08: a list, or a total over the tables, is outside its limits.
    CountOutOfRange,
    /// T09: a parameter is doubled.
    ParameterDoubled,
    /// T10: min_us is over max_us.
    IntervalReversed,
    /// T11: the stream's parameter has an input minimum below one tick.
    MinimumBelowOneTick,
    /// T12: the label's parameter leaves no output interval.
    NoOutputInterval,
    /// T13: a name is doubled within its kind.
    NameDoubled,
    /// T14: a parameter that is named is not there.
    ParameterAbsent,
    /// T15: two streams of the bus have one label, and equal SDI or one of them any.
    StreamsOverlap,
    /// T16: visits or sources hold a name that is not there.
    NameAbsent,
    /// T17: the bus is in the visits of no router, or of two routers.
    BusNotVisitedByOne,
    /// T18: a source is doubled in the label.
    SourceDoubled,
    /// T19: the label's format is not that of each of its sources.
    FormatsDiffer,
    /// T20: an offset is not below the frame.
    OffsetPastFrame,
    /// T21: two entries of the output have one offset.
    OffsetDoubled,
    /// T22: two labels of the output have one label and SDI.
    LabelDoubled,
    /// T23: the router's steps are more than most x within.
    RouterCannotKeepPace,
    /// T24: the output's steps x gap are more than within.
    OutputCannotKeepPace,
}

/// The kind of table at which a rule is broken.
#[derive(Clone, Copy, Debug, PartialEq, Eq)]
pub enum Section {
    /// The top of the document.
    Top,
    /// A parameter.
    Parameter,
    /// A receive bus.
    Bus,
    /// A stream of a bus.
    Stream,
    /// A router.
    Router,
    /// An output.
    Output,
    /// A label of an output.
    Label,
}

/// A broken rule, and the table at which it is broken.
#[derive(Clone, Copy, Debug, PartialEq, Eq)]
pub struct TableFault {
    /// The rule that is broken.
    pub rule: TableRule,
    /// The kind of table at which it is broken.
    pub section: Section,
    /// The number of that table among those of its kind, from 0, streams and labels being numbered through the whole
    /// document; 0 at the top.
    pub index: usize,
}

/// Why tables were not built.
#[derive(Debug, Drop, thiserror::Error)]
pub enum BuildError {
    /// A rule is broken.
    #[error("{0}")]
    Refused(TableFault),
    /// Out of memory.
    #[error("out of memory")]
    Memory(AllocError),
}

impl From<TableFault> for BuildError {
    ghost from_gives = { λ fault e. e ≡ Refused fault };

    fn from(fault: TableFault) -> BuildError {
        BuildError::Refused(fault)
    }
}

impl From<AllocError> for BuildError {
    ghost from_gives = { λ error e. e ≡ Memory error };

    fn from(error: AllocError) -> BuildError {
        BuildError::Memory(error)
    }
}

impl TableRule {
    /// The code as it is printed, as `T16`.
    pub fn code(self) -> &'static str
        ensures text { result.now ≡ rule_code self }
        ensures short { length result.now ≤ 3 }
    {
        match self {
            TableRule::NotToml => "T01",
            TableRule::VersionUnknown => "T02",
            TableRule::KeyAbsent => "T03",
            TableRule::KeyUnknown => "T04",
            TableRule::WrongKind => "T05",
            TableRule::NumberOutOfRange => "T06",
            TableRule::WrongSpelling => "T07",
            TableRule::CountOutOfRange => "T08",
            TableRule::ParameterDoubled => "T09",
            TableRule::IntervalReversed => "T10",
            TableRule::MinimumBelowOneTick => "T11",
            TableRule::NoOutputInterval => "T12",
            TableRule::NameDoubled => "T13",
            TableRule::ParameterAbsent => "T14",
            TableRule::StreamsOverlap => "T15",
            TableRule::NameAbsent => "T16",
            TableRule::BusNotVisitedByOne => "T17",
            TableRule::SourceDoubled => "T18",
            TableRule::FormatsDiffer => "T19",
            TableRule::OffsetPastFrame => "T20",
            TableRule::OffsetDoubled => "T21",
            TableRule::LabelDoubled => "T22",
            TableRule::RouterCannotKeepPace => "T23",
            TableRule::OutputCannotKeepPace => "T24",
        }
    }

    /// What the rule says, in words.
    pub fn explanation(self) -> &'static str
        ensures { result.now ≡ explanation self }
    {
        match self {
            TableRule::NotToml => "the text is over its limit, not UTF-8 or no TOML document",
            TableRule::VersionUnknown => "`version` is absent or neither 1 nor 2",
            TableRule::KeyAbsent => "a wanted key is absent",
            TableRule::KeyUnknown => "a key is unknown",
            TableRule::WrongKind => "a value is not of its key's kind",
            TableRule::NumberOutOfRange => "a number is outside its range",
            TableRule::WrongSpelling => "a text is not in its spelling",
            TableRule::CountOutOfRange =>
                "a list, or a total over the tables, is outside its limits",
            TableRule::ParameterDoubled => "a parameter is doubled",
            TableRule::IntervalReversed => "min_us is over max_us",
            TableRule::MinimumBelowOneTick =>
                "the stream's parameter has an input minimum below one tick",
            TableRule::NoOutputInterval => "the label's parameter leaves no output interval",
            TableRule::NameDoubled => "a name is doubled within its kind",
            TableRule::ParameterAbsent => "a parameter that is named is not there",
            TableRule::StreamsOverlap =>
                "two streams of the bus have one label, and equal SDI or one of them any",
            TableRule::NameAbsent => "visits or sources hold a name that is not there",
            TableRule::BusNotVisitedByOne =>
                "the bus is in the visits of no router, or of two routers",
            TableRule::SourceDoubled => "a source is doubled in the label",
            TableRule::FormatsDiffer => "the label's format is not that of each of its sources",
            TableRule::OffsetPastFrame => "an offset is not below the frame",
            TableRule::OffsetDoubled => "two entries of the output have one offset",
            TableRule::LabelDoubled => "two labels of the output have one label and SDI",
            TableRule::RouterCannotKeepPace => "the router's steps are more than most x within",
            TableRule::OutputCannotKeepPace => "the output's steps x gap are more than within",
        }
    }
}

impl Section {
    /// The kind of table as it is printed, as `router`.
    pub fn text(self) -> &'static str
        ensures text { result.now ≡ section_text self }
        ensures short { length result.now ≤ 9 }
    {
        match self {
            Section::Top => "top",
            Section::Parameter => "parameter",
            Section::Bus => "bus",
            Section::Stream => "stream",
            Section::Router => "router",
            Section::Output => "output",
            Section::Label => "label",
        }
    }
}

impl fmt::Display for Section {
    ghost output = { λ section. Some (section_text section) };

    fn fmt<W: fmt::Write>(&self, f: &mut fmt::Formatter<W>) -> fmt::Result {
        let text = self.text();
        write!(f, "{text}")
    }
}

impl fmt::Display for TableFault {
    ghost output = { λ fault. Some (explained fault) };

    fn fmt<W: fmt::Write>(&self, f: &mut fmt::Formatter<W>) -> fmt::Result {
        let section = self.section;
        let index = self.index;
        let words = self.rule.explanation();
        match section {
            Section::Top => write!(f, "{words} (at {section})"),
            _ => write!(f, "{words} (at {section} {index})"),
        }
    }
}

impl Error for TableFault {}
