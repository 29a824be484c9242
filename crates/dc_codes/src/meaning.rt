//! What a code means.

use crate::kind::Kind;
use crate::texts::texts_of;
use std::str::Lines;

/// What a code means, of one kind.
#[derive(Clone, Copy, Debug)]
pub struct Meaning {
    /// Where it is printed: of faults and conditions, where a text is refused.
    pub means: &'static str,
    /// An example.
    pub example: &'static str,
    /// What to do.
    pub mend: &'static str,
}

/// What the lines of a code say behind its name.
fn meaning_by(mut lines: Lines<'static>) -> Option<Meaning> {
    Some(Meaning {
        means: lines.next()?,
        example: lines.next()?,
        mend: lines.next()?,
    })
}

/// What the code of this name means by such texts.
fn meaning_in(texts: &'static str, name: &str) -> Option<Meaning> {
    for text in texts.split("\n\n") {
        let mut lines = text.lines();
        if lines.next() == Some(name) {
            return meaning_by(lines);
        }
    }
    None
}

/// What a code of this kind means; none where the kind has no such code. That each code of [`all`](crate::all) has its
/// meaning is tested.
pub fn meaning_of(kind: Kind, name: &str) -> Option<Meaning> {
    meaning_in(texts_of(kind), name)
}
