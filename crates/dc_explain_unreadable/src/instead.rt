//! Texts in the place of a certificate that are something else.
use crate::no_json::tell_no_json;
use dc_explain_text::{Fact, Refused};
use dc_tell::Span;

/// How a text begins that the program printed, or that has a mark before it, and what is told of it: its place, and the
/// second word of it.
static PRINTED: [(&'static str, &'static str); 6] = [
    (
        "refused F",
        "this is what `find` printed when it refused the tables, and not a certificate{}\nhelp: it refused the tables as they were then: change them if they are so still, run `dc429 find TABLES > FILE` again, and see that it ends with status 0\nhelp: `dc429 explain {}` says what {} means",
    ),
    (
        "unreadable ",
        "this is what was printed where the tables could not be read, and not a certificate{}\nhelp: they could not be read as they were then: mend them if they are so still, run `dc429 find TABLES > FILE` again, and see that it ends with status 0\nhelp: `dc429 explain {}` says what {} means",
    ),
    (
        "refused ",
        "this is what `check` prints of a certificate, and not the certificate{}\nhelp: name the file that holds the certificate itself, as `dc429 find TABLES > FILE` writes it\nhelp: `dc429 explain {}` says what {} means",
    ),
    (
        "accepted ",
        "this is what `check` prints of a certificate, and not the certificate{}\nhelp: name the file that holds the certificate itself, as `dc429 find TABLES > FILE` writes it",
    ),
    (
        "failed ",
        "this is what was printed where a run failed, and not a certificate{}\nhelp: run `dc429 find TABLES > FILE` again, and see that it ends with status 0\nhelp: `dc429 explain {}` says what {} means",
    ),
    (
        "\u{FEFF}",
        "the text begins with a byte order mark, which JSON does not have{}\nhelp: save the file as UTF-8 without it (\"UTF-8\", and not \"UTF-8 with BOM\")",
    ),
];

/// What is told of a text that looks like tables.
const TABLES: &str =
    "this looks like tables, which are TOML, and a certificate is wanted here, which is JSON{}\nnote: the file of the tables is another, and could be read\nhelp: name here the file that holds the certificate, as `dc429 find TABLES > FILE` writes it: what is in a file counts, and not what it is called";

/// The second word of the first line of a text.
fn second_word(text: &[u8]) -> Span {
    let mut from = 0usize;
    for (at, byte) in text.iter().enumerate() {
        if !byte.is_ascii_whitespace() {
            continue;
        }
        if from != 0 || *byte == b'\n' {
            return Span { from, to: at };
        }
        from = at.saturating_add(1);
    }
    Span {
        from,
        to: text.len(),
    }
}

/// What is told of a text that the program printed, or that has a mark before it; nothing of another.
fn printed(text: &str) -> Option<&'static str> {
    for (beginning, sentence) in &PRINTED {
        if text.starts_with(*beginning) {
            return Some(sentence);
        }
    }
    None
}

/// Whether a line begins a table of TOML, or gives a key a value.
fn is_toml_line(line: &str) -> bool {
    let inner = line.trim_start_matches('[').as_bytes();
    let begins = matches!(inner.first(), Some(byte) if byte.is_ascii_alphabetic());
    if begins && inner.len() < line.len() {
        return true;
    }
    for byte in line.as_bytes() {
        if *byte == b'=' {
            return true;
        }
        if !byte.is_ascii_alphanumeric() && !matches!(*byte, b'_' | b'-' | b' ' | b'\t') {
            return false;
        }
    }
    false
}

/// Whether a text looks like tables: its first line that is neither empty nor a comment does.
fn is_tables(text: &str) -> bool {
    for line in text.lines() {
        let line = line.trim();
        if !line.is_empty() && !line.starts_with('#') {
            return is_toml_line(line);
        }
    }
    false
}

/// Tells that a text is empty.
fn tell_empty(refused: &mut Refused<'_>) {
    refused
        .out
        .add("the text is empty, and a certificate is wanted");
    refused.out.name_file(refused.file.name);
    refused.say(
        "\nhelp: let `dc429 find TABLES > FILE` write one, and see that it ends with status 0",
        &[],
    );
}

/// Tells of a text that no JSON reader reads: what it is instead, or what is wrong with it.
pub(crate) fn tell_instead(refused: &mut Refused<'_>, text: &str) {
    if text.trim().is_empty() {
        return tell_empty(refused);
    }
    let looked = if is_tables(text) { Some(TABLES) } else { None };
    let Some(sentence) = printed(text).or(looked) else {
        return tell_no_json(refused);
    };
    let start = Span { from: 0, to: 0 };
    let word = second_word(text.as_bytes());
    refused.say(
        sentence,
        &[Fact::Here(start), Fact::Piece(word), Fact::Piece(word)],
    );
}
