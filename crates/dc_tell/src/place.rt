//! Places in a text.

/// The line and the column of a place, both from 1; a column counts letters.
#[derive(Clone, Copy)]
pub struct Place {
    /// The line.
    pub line: usize,
    /// The column.
    pub column: usize,
}

/// Whether a byte of UTF-8 begins a letter.
pub(crate) fn begins_letter(byte: u8) -> bool {
    byte & 0xC0 != 0x80
}

/// The place behind so many bytes of a text.
pub fn place_at(text: &[u8], offset: usize) -> Place {
    let mut place = Place { line: 1, column: 1 };
    for byte in text.get(..offset).unwrap_or(text) {
        if *byte == b'\n' {
            place.line = place.line.saturating_add(1);
            place.column = 1;
        } else if begins_letter(*byte) {
            place.column = place.column.saturating_add(1);
        }
    }
    place
}

/// The line of this number, from 1, without its end.
pub(crate) fn line_of(text: &[u8], number: usize) -> &[u8] {
    let mut line = 1usize;
    let mut from = 0usize;
    for (at, byte) in text.iter().enumerate() {
        if *byte != b'\n' {
            continue;
        }
        if line == number {
            return text.get(from..at).unwrap_or(b"");
        }
        line = line.saturating_add(1);
        from = at.saturating_add(1);
    }
    text.get(from..).unwrap_or(b"")
}

/// How many letters before a place are shown of its line, and how many behind it.
const AROUND: usize = 40;

/// How many bytes of a text stand before its letter of this number, from 0; all where it has fewer.
pub(crate) fn bytes_before(text: &str, number: usize) -> usize {
    let mut count = 0usize;
    for (at, byte) in text.as_bytes().iter().enumerate() {
        if !begins_letter(*byte) {
            continue;
        }
        if count == number {
            return at;
        }
        count = count.saturating_add(1);
    }
    text.len()
}

/// A piece of a line round a column, from 1, and how many letters of it stand before the column.
pub(crate) fn around(line: &str, column: usize) -> (&str, usize) {
    let before = column.saturating_sub(1);
    let first = before.saturating_sub(AROUND);
    let from = bytes_before(line, first);
    let to = bytes_before(line, column.saturating_add(AROUND));
    (
        line.get(from..to).unwrap_or(""),
        before.saturating_sub(first),
    )
}
