//! What stands in the holes of sentences.

/// What a hole is filled with.
#[derive(Clone, Copy)]
pub(crate) enum Hole {
    /// A number.
    Number,
    /// From a number to the one behind it.
    Range,
    /// So many of what the first word names in the singular, the second in the plural.
    Several,
    /// So many ticks, and how long they take.
    Ticks,
    /// So many ticks, from a number to the one behind it.
    Span,
    /// How few have been served.
    Only,
    /// The name of the stream of a number.
    Stream,
    /// The name of the label of a number.
    Label,
    /// The name of the queue.
    Name,
    /// The name of what serves it.
    Server,
    /// The name of what serves another one, of a number.
    Other,
    /// The first words of the queue of a bus, the second of an output.
    Words,
}

/// The holes by their first word, each with the words that it may want. Behind that word a hole has the place of its number,
/// as `{ticks 0}`.
static HOLES: [(&'static str, Hole, &'static str, &'static str); 18] = [
    ("number", Hole::Number, "", ""),
    ("range", Hole::Range, "", ""),
    ("words", Hole::Several, "word", "words"),
    ("steps", Hole::Several, "step", "steps"),
    ("taken", Hole::Several, "word is", "words are"),
    ("ticks", Hole::Ticks, "", ""),
    ("span", Hole::Span, "", ""),
    ("only", Hole::Only, "has", "have"),
    ("stream", Hole::Stream, "", ""),
    ("label", Hole::Label, "", ""),
    ("name", Hole::Name, "", ""),
    ("server", Hole::Server, "", ""),
    ("other", Hole::Other, "", ""),
    ("queue", Hole::Words, "input", "output"),
    (
        "may",
        Hole::Words,
        "may have come on",
        "may have fallen due on",
    ),
    ("done", Hole::Words, "taken", "sent"),
    ("by", Hole::Words, "router", "output"),
    ("empty", Hole::Words, "an empty queue", "no word overdue"),
];

/// What the hole with this first word is filled with, and the words that it wants.
pub(crate) fn hole_of(word: &str) -> (Hole, &'static str, &'static str) {
    for (own, hole, one, many) in &HOLES {
        if *own == word {
            return (*hole, one, many);
        }
    }
    (Hole::Number, "", "")
}

/// The place of a number from 0 to 9, with which a hole ends; one behind all numbers where it ends with none.
pub(crate) fn place_in(hole: &str) -> usize {
    match hole.as_bytes().last() {
        Some(last) => last.wrapping_sub(b'0') as usize,
        None => usize::MAX,
    }
}
