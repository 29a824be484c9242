//! Lines that are no word, and what is not seen in a line.
use crate::lines::Line;
use dc_tell::Explanation;
use dc_tell::Value::{Bytes, Several, Text};

/// How many bytes of a line stand before the first that is this one; all where none is.
fn before(line: &[u8], wanted: u8) -> usize {
    for (at, byte) in line.iter().enumerate() {
        if *byte == wanted {
            return at;
        }
    }
    line.len()
}

/// What of a line is not seen and keeps it from being read, and where that stands; nothing where there is no such.
fn unseen(bytes: &[u8]) -> Option<(usize, &'static str)> {
    let tab = before(bytes, b'\t');
    let last = bytes.len().saturating_sub(1);
    if bytes.starts_with(b"\xEF\xBB\xBF") {
        return Some((
            0,
            "the line begins with a byte order mark\nsave the text as UTF-8 without a byte order mark",
        ));
    }
    if bytes.ends_with(b"\r") {
        return Some((
            last,
            "the line ends in a carriage return and a line feed\nlines end in a line feed alone: convert them all by `tr -d '\\r' < OLD > NEW`",
        ));
    }
    if tab < bytes.len() {
        return Some((tab, "the line has a tab\npart the fields by one blank"));
    }
    if bytes.ends_with(b" ") {
        return Some((last, "the line has a blank at its end\ntake the blank out"));
    }
    None
}

/// Tells what of a line is not seen and keeps it from being read, where there is such.
pub(crate) fn tell_unseen(out: &mut Explanation, line: &Line<'_>) -> bool {
    match unseen(line.bytes) {
        Some((at, sentence)) => {
            line.tell(out, at, sentence, &[]);
            true
        }
        None => false,
    }
}

/// Tells what keeps a line from being read, whatever it is to say, by the code of its fault: that it is longer than lines
/// may be, that the text ends inside it, or that something in it is not seen; false where none of these does.
pub(crate) fn tell_shape(
    out: &mut Explanation,
    code: &str,
    line: &Line<'_>,
    what: &'static str,
) -> bool {
    match code {
        "E1" => line.tell(
            out,
            64,
            "the line has {} or more, and a line has 64 at most\none {} a line",
            &[
                Several(line.bytes.len() as u64, "byte", "bytes"),
                Text(what),
            ],
        ),
        "E6" => line.tell(
            out,
            line.bytes.len(),
            "the text ends inside a line: a line feed is missing behind it\nend the last line with a line feed",
            &[],
        ),
        _ => return tell_unseen(out, line),
    }
    true
}

/// How many of the first bytes are hexadecimal digits.
fn digits_in(bytes: &[u8]) -> usize {
    for (at, byte) in bytes.iter().enumerate() {
        if !byte.is_ascii_hexdigit() {
            return at;
        }
    }
    bytes.len()
}

/// What is told of a word that is written as in C.
const PREFIXED: &str =
    "`{}` is no word: it is written without `0x`\na word of 32 bits is written as 8 hexadecimal digits, as 600000C1";

/// Why a piece of a line, with so many hexadecimal digits in front, is no word, and where in it that is seen.
fn unlike_word(piece: &[u8], digits: usize) -> (usize, &'static str) {
    if piece.is_empty() {
        return (
            0,
            "there is no word: the line is empty\na word of 32 bits is written as 8 hexadecimal digits, as 600000C1",
        );
    }
    if piece.starts_with(b"0x") {
        return (0, PREFIXED);
    }
    if piece.starts_with(b"0X") {
        return (0, PREFIXED);
    }
    if digits < piece.len() {
        return (
            digits,
            "`{}` is no word: it has what is no hexadecimal digit\na word of 32 bits is written as 8 hexadecimal digits, as 600000C1",
        );
    }
    (
        0,
        "`{}` is no word: it has {}, and a word has 8\na word of 32 bits is written as 8 hexadecimal digits, as 600000C1",
    )
}

/// Tells why a piece of a line, from this byte on, is no word.
pub(crate) fn tell_no_word(out: &mut Explanation, line: &Line<'_>, from: usize) {
    let piece = line.bytes.get(from..).unwrap_or(b"");
    let digits = digits_in(piece);
    let (at, sentence) = unlike_word(piece, digits);
    let count = Several(digits as u64, "hexadecimal digit", "hexadecimal digits");
    line.tell(
        out,
        from.saturating_add(at),
        sentence,
        &[Bytes(piece), count],
    );
}
