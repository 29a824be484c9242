//! Letters as a terminal may have them.
use crate::place::bytes_before;

/// How many letters of a piece of a text are shown.
const BRIEF: usize = 40;

/// The letters that are not seen, or move what stands behind them: from the first of each pair up to the second.
static UNSEEN: [(u32, u32); 9] = [
    (0x00, 0x1F),
    (0x7F, 0x9F),
    (0xAD, 0xAD),
    (0x61C, 0x61C),
    (0x200B, 0x200F),
    (0x2028, 0x202E),
    (0x2060, 0x206F),
    (0xFEFF, 0xFEFF),
    (0xFFF9, 0xFFFB),
];

/// Whether a letter is seen where it is printed, and changes nothing else.
pub(crate) fn is_seen(letter: char) -> bool {
    let code = u32::from(letter);
    for (first, last) in &UNSEEN {
        if *first <= code && code <= *last {
            return false;
        }
    }
    true
}

/// Whether a text has letters alone that are of one byte and seen.
pub(crate) fn is_plain(text: &str) -> bool {
    for byte in text.as_bytes() {
        if *byte < 0x20 || *byte > 0x7E {
            return false;
        }
    }
    true
}

/// The beginning of a text, as far as it is shown in a sentence.
pub(crate) fn start_of(text: &str) -> &str {
    text.get(..bytes_before(text, BRIEF)).unwrap_or("")
}

/// Bytes as text, where they are one.
pub(crate) fn text_of(bytes: &[u8]) -> &str {
    str::from_utf8(bytes).unwrap_or("(bytes that are no UTF-8)")
}
