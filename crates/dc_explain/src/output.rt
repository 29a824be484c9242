//! The lines that a run wrote last.
use dc_explain_text::number;

/// Bytes of UTF-8 from the first that begins a letter on: those before it end one that was cut.
pub(crate) fn whole_letters(bytes: &[u8]) -> &[u8] {
    for (from, byte) in bytes.iter().enumerate() {
        if *byte & 0xC0 != 0x80 {
            return bytes.get(from..).unwrap_or(b"");
        }
    }
    bytes
}

/// The piece of this number, from 0, of those between which a letter stands; empty where there are fewer.
fn piece_of(text: &str, between: char, number: usize) -> &str {
    for (at, piece) in text.split(between).enumerate() {
        if at == number {
            return piece;
        }
    }
    ""
}

/// The word of this number of a line, from 0; empty where it has fewer.
pub(crate) fn word(line: &str, number: usize) -> &str {
    piece_of(line, ' ', number)
}

/// The line that says what ended a run, of the last lines that it wrote: the first one that tells of a failing, where
/// one does, else the last that is not empty.
pub(crate) fn answer_in(said: &str) -> &str {
    let mut last = 0usize;
    for (number, line) in said.split('\n').enumerate() {
        if line.contains(" fail at ") || line.contains(" fails at ") {
            return line;
        }
        if !line.is_empty() {
            last = number;
        }
    }
    piece_of(said, '\n', last)
}

/// The number that a text writes, of what is counted from 0; 0 where it writes none.
pub(crate) fn index_in(text: &str) -> usize {
    number(text.as_bytes()).unwrap_or(0) as usize
}

/// The number that the last word of a line writes, as of a line of standard input; 0 where it writes none.
pub(crate) fn last_number(line: &str) -> u64 {
    let mut last = 0usize;
    for (at, _) in line.split(' ').enumerate() {
        last = at;
    }
    number(word(line, last).as_bytes()).unwrap_or(0)
}

/// What stands in a line behind its second word.
pub(crate) fn behind_two(line: &str) -> &str {
    let (_, behind) = line.split_once(' ').unwrap_or(("", ""));
    let (_, rest) = behind.split_once(' ').unwrap_or(("", ""));
    rest
}
