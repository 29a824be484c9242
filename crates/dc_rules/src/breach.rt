//! Broken rules with their places, and which one is reported.
ghost use Rattle.std.specs.Prelude.{◌≡◌};
ghost use Rattle.dc_rules.specs.Rules.{reported, breach, earlier, breach_reported};

use dc_document::{BuildError, Section, TableFault, TableRule};

/// The refusal of a rule at the first index at which it is broken, if it is.
pub(crate) fn refuse(
    rule: TableRule,
    section: Section,
    found: Option<usize>,
) -> Result<(), BuildError>
    ensures { result ≡ reported rule section found }
{
    match found {
        None => Ok(()),
        Some(index) => Err(BuildError::Refused(TableFault {
            rule,
            section,
            index,
        })),
    }
}

/// A broken rule with its place among the tables of its kind.
#[derive(Clone, Copy, Debug, PartialEq)]
pub struct Breach {
    pub place: usize,
    pub fault: TableFault,
}

/// A rule that is broken first at this index, if it is.
pub(crate) fn breach_at(rule: TableRule, section: Section, found: Option<usize>) -> Option<Breach>
    ensures { result ≡ breach rule section found }
{
    let index = found?;
    Some(Breach {
        place: index,
        fault: TableFault {
            rule,
            section,
            index,
        },
    })
}

/// The breach at the earlier place, `a` where both are at one.
pub(crate) fn earlier_of(a: Option<Breach>, b: Option<Breach>) -> Option<Breach>
    ensures { result ≡ earlier a b }
{
    match (a, b) {
        (None, _) => b,
        (Some(_), None) => a,
        (Some(first), Some(second)) => { if second.place < first.place { b } else { a } }
    }
}

/// The refusal of a breach, if there is one.
pub(crate) fn refuse_breach(found: Option<Breach>) -> Result<(), BuildError>
    ensures { result ≡ breach_reported found }
{
    match found {
        None => Ok(()),
        Some(one) => Err(BuildError::Refused(one.fault)),
    }
}
