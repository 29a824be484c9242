//! How tables of a text have to do with one another.
use dc_explain_text::{Refused, number};
use dc_tell::{Kind, Span};

/// Whether two values are the same number, or the same text in upper or lower case.
pub fn are_same(left: &[u8], right: &[u8]) -> bool {
    match number(left) {
        Some(left) => number(right) == Some(left),
        None => left.eq_ignore_ascii_case(right),
    }
}

/// Whether two tables have the same at a key, in upper or lower case.
pub(crate) fn agree(refused: &Refused<'_>, one: usize, other: usize, key: &str) -> bool {
    are_same(
        refused.layout.value(one, key),
        refused.layout.value(other, key),
    )
}

/// The first table of a kind that has the same as a table at two keys; at one alone where the other is empty.
pub(crate) fn alike(
    refused: &Refused<'_>,
    kind: Kind,
    row: usize,
    key: &str,
    further: &str,
) -> Option<usize> {
    for (other, it) in refused.layout.rows.iter().enumerate() {
        if it.kind != kind || !agree(refused, row, other, key) {
            continue;
        }
        if further.is_empty() || agree(refused, row, other, further) {
            return Some(other);
        }
    }
    None
}

/// The parameter that a stream or a label names.
pub fn parameter_of(refused: &Refused<'_>, row: usize) -> Option<usize> {
    alike(refused, Kind::Parameter, row, "label", "equipment")
}

/// The first member of the list at a key of a table that is this name.
pub(crate) fn member(refused: &Refused<'_>, row: usize, key: &str, name: &[u8]) -> Option<Span> {
    for member in refused.layout.members(row, key) {
        if refused.layout.bare(*member) == name {
            return Some(*member);
        }
    }
    None
}

/// The first table of a kind, from a table on, that has this name in the list at a key.
pub(crate) fn lister(
    refused: &Refused<'_>,
    kind: Kind,
    key: &str,
    from: usize,
    name: &[u8],
) -> Option<usize> {
    for (row, it) in refused.layout.rows.iter().enumerate() {
        if row >= from && it.kind == kind && member(refused, row, key, name).is_some() {
            return Some(row);
        }
    }
    None
}
