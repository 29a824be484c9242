//! Why an engine is not opened, as plain numbers too.
ghost use Rattle.std.specs.Prelude.{◌≡◌};
ghost use Rattle.dc_engine.specs.declared.fault.OpenFault.{OpenFault};
ghost use Rattle.dc_engine.specs.Answers.{report_of, rule_number, section_number, text_rule_number, list_number, condition_number, text_list, text_index};

use dc_cert::{CertRule, Fault, TextPlace};
use dc_check::{CertificateList, CheckFault, Condition};
use dc_document::{Section, TableFault, TableRule};

/// Why an engine is not opened.
#[derive(Clone, Copy, Debug, PartialEq, Eq)]
pub enum OpenFault {
    /// An allocation failed.
    Memory,
    /// The first fault of the tables' text.
    Tables(TableFault),
    /// The first fault of the certificate's text.
    Certificate(Fault),
    /// The first condition that the certificate fails.
    Refused(CheckFault),
}

/// Why an engine is not opened, or something else is not answered, as numbers.
#[repr(C)]
#[derive(Clone, Copy, Debug, PartialEq, Eq)]
pub struct Report {
    /// `M` for memory, `T` for the tables, `K` for the certificate's text, `C` for a condition that fails, `F` for what
    /// stands in the way of every certificate.
    pub kind: u32,
    /// The number behind that letter.
    pub code: u32,
    /// `T`: the kind of table, 0 for the top; `K`, `C` and `F`: the list, 1 to 3 for inputs, outputs and labels.
    pub place: u32,
    /// `C`: the first number of ticks that fails, where there is one. `F` of a label: the number of the condition.
    pub window: u32,
    /// The number in the list, from 0.
    pub index: usize,
}

/// The number of a rule of tables.
fn rule_code(rule: TableRule) -> u32
    ensures { result ≡ rule_number rule }
{
    match rule {
        TableRule::NotToml => 1,
        TableRule::VersionUnknown => 2,
        TableRule::KeyAbsent => 3,
        TableRule::KeyUnknown => 4,
        TableRule::WrongKind => 5,
        TableRule::NumberOutOfRange => 6,
        TableRule::WrongSpelling => 7,
        TableRule::CountOutOfRange => 8,
        TableRule::ParameterDoubled => 9,
        TableRule::IntervalReversed => 10,
        TableRule::MinimumBelowOneTick => 11,
        TableRule::NoOutputInterval => 12,
        TableRule::NameDoubled => 13,
        TableRule::ParameterAbsent => 14,
        TableRule::StreamsOverlap => 15,
        TableRule::NameAbsent => 16,
        TableRule::BusNotVisitedByOne => 17,
        TableRule::SourceDoubled => 18,
        TableRule::FormatsDiffer => 19,
        TableRule::OffsetPastFrame => 20,
        TableRule::OffsetDoubled => 21,
        TableRule::LabelDoubled => 22,
        TableRule::RouterCannotKeepPace => 23,
        TableRule::OutputCannotKeepPace => 24,
    }
}

/// The number of a kind of table.
fn section_code(section: Section) -> u32
    ensures { result ≡ section_number section }
{
    match section {
        Section::Top => 0,
        Section::Parameter => 1,
        Section::Bus => 2,
        Section::Stream => 3,
        Section::Router => 4,
        Section::Output => 5,
        Section::Label => 6,
    }
}

/// The number of a rule of a certificate's text.
fn text_rule_code(rule: CertRule) -> u32
    ensures { result ≡ text_rule_number rule }
{
    match rule {
        CertRule::NotJson => 1,
        CertRule::VersionUnknown => 2,
        CertRule::KeyAbsent => 3,
        CertRule::KeyUnknown => 4,
        CertRule::WrongKind => 5,
        CertRule::ListOrNameOutOfBounds => 6,
    }
}

/// The list and the index of a place.
fn text_place(place: TextPlace) -> (u32, usize)
    ensures { (result.0 ≡ text_list place) × (result.1 ≡ text_index place) }
{
    match place {
        TextPlace::Top => (0, 0),
        TextPlace::Inputs(index) => (1, index),
        TextPlace::Outputs(index) => (2, index),
        TextPlace::Labels(index) => (3, index),
    }
}

/// The number of a condition, 1 to 12 as C01 to C12.
pub fn condition_code(condition: Condition) -> u32
    ensures { result ≡ condition_number condition }
{
    match condition {
        Condition::NamesDiffer => 1,
        Condition::WindowOutOfRange => 2,
        Condition::WindowDoesNotClose => 3,
        Condition::BacklogTooSmall => 4,
        Condition::QueueTooShort => 5,
        Condition::DelayTooSmall => 6,
        Condition::DelayOutOfRange => 7,
        Condition::SentTooSoon => 8,
        Condition::SentTooLate => 9,
        Condition::AgeTooSmall => 10,
        Condition::AgeOverLimit => 11,
        Condition::SourceGoesStale => 12,
    }
}

/// The number of a list of a certificate.
fn list_code(list: CertificateList) -> u32
    ensures { result ≡ list_number list }
{
    match list {
        CertificateList::Inputs => 1,
        CertificateList::Outputs => 2,
        CertificateList::Labels => 3,
    }
}

impl OpenFault {
    /// The fault as numbers.
    pub fn report(self) -> Report
        ensures { result ≡ report_of self }
    {
        match self {
            OpenFault::Memory => Report {
                kind: 77,
                code: 0,
                place: 0,
                window: 0,
                index: 0,
            },
            OpenFault::Tables(fault) => Report {
                kind: 84,
                code: rule_code(fault.rule),
                place: section_code(fault.section),
                window: 0,
                index: fault.index,
            },
            OpenFault::Certificate(fault) => {
                let (place, index) = text_place(fault.place);
                Report {
                    kind: 75,
                    code: text_rule_code(fault.rule),
                    place,
                    window: 0,
                    index,
                }
            }
            OpenFault::Refused(fault) => Report {
                kind: 67,
                code: condition_code(fault.condition),
                place: list_code(fault.list),
                window: fault.window,
                index: fault.index,
            },
        }
    }
}
