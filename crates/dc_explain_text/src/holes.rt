//! What stands in the holes of sentences that name what they want.

/// What a hole is filled with.
#[derive(Clone, Copy)]
pub(crate) enum Hole {
    /// Nothing.
    None,
    /// A number.
    Number,
    /// So many of what the first word names in the singular, the second in the plural.
    Several,
    /// The number at a key of a table; 0 where there is none.
    Count,
    /// A table by its kind and what names it.
    Row,
    /// What stands at a key of a table, without quotes.
    At,
    /// The line in which a table has a key.
    Line,
    /// Where a table has a key, or where it stands itself: the line is shown, and the sentence ends.
    Place,
    /// Where a byte of the text stands, in the same way.
    Here,
    /// The piece of the text from a byte up to another.
    Piece,
}

/// The holes by their first word, each with the words that it may want.
static HOLES: [(&'static str, Hole, &'static str, &'static str); 11] = [
    ("number", Hole::Number, "", ""),
    ("words", Hole::Several, "word", "words"),
    ("steps", Hole::Several, "step", "steps"),
    ("ticks", Hole::Several, "tick", "ticks"),
    ("count", Hole::Count, "", ""),
    ("row", Hole::Row, "", ""),
    ("at", Hole::At, "", ""),
    ("line", Hole::Line, "", ""),
    ("place", Hole::Place, "", ""),
    ("here", Hole::Here, "", ""),
    ("piece", Hole::Piece, "", ""),
];

/// What the hole with this first word is filled with, and the words that it wants.
pub(crate) fn hole_of(word: &str) -> (Hole, &'static str, &'static str) {
    for (own, hole, one, many) in &HOLES {
        if *own == word {
            return (*hole, one, many);
        }
    }
    (Hole::None, "", "")
}

/// The number from 0 to 9 with which a text ends; a greater one where it ends with none.
pub(crate) fn place_in(text: &str) -> usize {
    let last = text.as_bytes().last().copied().unwrap_or(b' ');
    last.wrapping_sub(b'0') as usize
}
