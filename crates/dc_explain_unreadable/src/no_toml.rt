//! Texts in the place of tables or of a system that no TOML reader reads, and what is wrong where it stopped.
use dc_explain_text::{Fact, Refused};
use dc_tell::{Kind, Span, Value};
use toml::de::Error;

/// What TOML's reader says where something is wrong, and what is to be done there; what is empty is said where nothing
/// else is.
static CURES: [(&'static str, &'static str); 8] = [
    (
        "duplicate key",
        "{}\nhelp: a key stands once in a table, and its table is headed once: take one of the two out, or head each member of a list by `[[..]]`, as `[[bus]]` or `[[link]]`; where a list is written `bus = [..]`, its members stand between these brackets",
    ),
    (
        "with no value",
        "{}\nhelp: each line is `key = value`, a heading as `[[bus]]`, or a comment behind `#`",
    ),
    (
        "expected newline",
        "{}\nhelp: a line ends here: write each `key = value` in a line of its own, and numbers without commas and units, as 1000",
    ),
    (
        "invalid value",
        "{}\nhelp: a value is a number in plain digits, a text in quotes, a list in brackets, true or false",
    ),
    (
        "string",
        "{}\nhelp: close the quotes in the same line; inside double quotes write a backslash twice",
    ),
    (
        "unclosed",
        "{}\nhelp: a bracket that was opened before is not closed: see the line above this one too",
    ),
    (
        "recurse",
        "{}\nhelp: lists stand at most 80 deep; tables need no more than two",
    ),
    (
        "",
        "{}\nhelp: see here, and at the end of the line above, whether a bracket or a quote is not closed, or a comma is missing",
    ),
];

/// What is to be done where TOML's reader says this.
fn cure(message: &str) -> &'static str {
    for (what, cure) in &CURES {
        if message.contains(*what) {
            return cure;
        }
    }
    "{}"
}

/// What is told of JSON in the place of tables.
const NO_TABLES: &str =
    "this is JSON, as a certificate is, and the tables are wanted here, which are TOML{}\nhelp: name the tables first, and then the certificate, as in: dc429 check tables.toml certificate.json\nhelp: where they are named so, what is in the two files is exchanged: rename them, each as the other";

/// What is told of JSON in the place of a system.
const NO_SYSTEM: &str =
    "this is JSON, as a certificate is, and a system is wanted here, which is TOML{}\nhelp: name the text that lists the concentrators";

/// What is told of what the program printed, in the place of tables.
const PRINTED: &str =
    "this is what was printed where no tables were made, and not tables{}\nhelp: mend what its lines say, run `dc429 design INPUTS OUTPUTS > FILE` or `dc429 layout TABLES > FILE` again, and see that it ends with status 0";

/// Whether a text begins as what the program prints where it refuses.
fn is_printed(text: &str) -> bool {
    text.starts_with("refused") || text.starts_with("unreadable ") || text.starts_with("failed ")
}

/// The word of letters and digits round a place; empty where none is.
fn word_at(text: &[u8], at: usize) -> Span {
    let mut from = 0usize;
    for (place, byte) in text.iter().enumerate() {
        if byte.is_ascii_alphanumeric() {
            continue;
        }
        if place >= at {
            return Span { from, to: place };
        }
        from = place.saturating_add(1);
    }
    Span {
        from,
        to: text.len(),
    }
}

/// Whether a piece of a text is three digits that may be a label or an equipment code.
fn is_code(piece: &[u8]) -> bool {
    for byte in piece {
        if !byte.is_ascii_hexdigit() {
            return false;
        }
    }
    piece.len() == 3
}

/// Writes that what stands at a place is a code that wants quotes, where it may be one.
fn tell_code(refused: &mut Refused<'_>, text: &[u8], at: usize) {
    let word = word_at(text, at);
    let piece = text.get(word.from..word.to).unwrap_or(b"");
    refused.say(
        "\n{}help: where a label or an equipment code is meant: it is a text, \"{}\" in quotes",
        &[Fact::If(is_code(piece)), Fact::Piece(word)],
    );
}

/// Tells what is wrong by what TOML's reader says.
fn tell_error(refused: &mut Refused<'_>, text: &[u8], error: &Error) {
    let at = match error.span() {
        None => 0,
        Some(span) => span.start,
    };
    let message = error.message();
    refused
        .out
        .say("this is no TOML document: {}", &[Value::Text(message)]);
    refused.say(cure(message), &[Fact::Here(Span { from: at, to: at })]);
    if message.contains("invalid value") {
        tell_code(refused, text, at);
    }
}

/// Tells of a text that is no TOML document: that it is JSON, or what the program printed, or what TOML's reader says of it.
pub(crate) fn tell_no_toml(refused: &mut Refused<'_>, text: &str) {
    if text.trim_start().starts_with('{') {
        let is_system = refused.kind(0) == Kind::System;
        let sentence = if is_system { NO_SYSTEM } else { NO_TABLES };
        return refused.say(sentence, &[Fact::Here(Span { from: 0, to: 0 })]);
    }
    if refused.kind(0) == Kind::Top && is_printed(text) {
        return refused.say(PRINTED, &[Fact::Here(Span { from: 0, to: 0 })]);
    }
    match toml::table_from_str(refused.alloc, text) {
        Ok(_) => refused.say("this is no TOML document", &[]),
        Err(error) => tell_error(refused, text.as_bytes(), &error),
    }
}
