//! The rules of a system's text, and the place at which one is broken.
ghost use Rattle.std.specs.Prelude.{◌≡◌};
ghost use Rattle.dc_system_text.specs.Faults.{shape_rule};

use dc_document::TableRule;

/// The rules of a system's text, in the order in which they are tested.
#[derive(Clone, Copy, Debug, PartialEq, Eq)]
pub enum SystemRule {
    /// N01: the text is over its limit, not UTF-8 or no TOML document.
    NotToml,
    /// N02: `version` is absent or not 1.
    VersionUnknown,
    /// N03: a wanted key is absent.
    KeyAbsent,
    /// N04: a key is unknown.
    KeyUnknown,
    /// N05: a value is not of its key's kind.
    WrongKind,
    /// N06: a number is outside its range.
    NumberOutOfRange,
    /// N07: a text is not in its spelling.
    WrongSpelling,
    /// N08: a list is outside its limits.
    CountOutOfRange,
    /// N09: two concentrators have one name.
    NameDoubled,
    /// N10: a link leads from or to a concentrator that is not there.
    ConcentratorAbsent,
    /// N11: two links lead to one bus.
    FedTwice,
    /// N12: `least_us` is over `most_us`.
    LatencyReversed,
}

/// The kind of table at which a rule is broken.
#[derive(Clone, Copy, Debug, PartialEq, Eq)]
pub enum SystemPart {
    /// The top of the document.
    Top,
    /// A concentrator.
    Concentrator,
    /// A link.
    Link,
}

/// The first fault of a system's text: a rule, and the table that breaks it by its kind and its number there, from 0.
#[derive(Clone, Copy, Debug, PartialEq, Eq)]
pub struct SystemFault {
    /// The rule that is broken.
    pub rule: SystemRule,
    /// The kind of the table that breaks it.
    pub part: SystemPart,
    /// Its number among those of its kind, from 0.
    pub index: usize,
}

/// The rule of a system's text that a rule of shape is there.
pub(crate) fn shape_rule(rule: TableRule) -> SystemRule
    ensures { result ≡ shape_rule rule }
{
    match rule {
        TableRule::KeyAbsent => SystemRule::KeyAbsent,
        TableRule::KeyUnknown => SystemRule::KeyUnknown,
        TableRule::WrongKind => SystemRule::WrongKind,
        TableRule::NumberOutOfRange => SystemRule::NumberOutOfRange,
        TableRule::WrongSpelling => SystemRule::WrongSpelling,
        TableRule::CountOutOfRange => SystemRule::CountOutOfRange,
        _ => SystemRule::NotToml,
    }
}
