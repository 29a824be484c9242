//! Whether what stands at a key is what is wanted there.
use crate::keys::{Sort, Wanted};
use dc_tell::{Layout, Span};

/// What is wrong with a value.
#[derive(Clone, Copy)]
pub enum Misfit {
    /// It is of a wrong kind.
    Kind,
    /// It is out of its range.
    Range,
    /// It is a text that is not in its spelling.
    Spelling,
}

/// The greatest number of a certificate.
const GREATEST: u64 = 4_294_967_295;

/// What a digit stands for, 16 where it is none.
fn digit(byte: u8) -> u64 {
    let low = u64::from(byte & 0x0F);
    if byte.is_ascii_digit() {
        return low;
    }
    if byte.is_ascii_hexdigit() {
        return low.saturating_add(9);
    }
    16
}

/// The number that digits of a base write; one that is too great is the greatest.
fn digits(value: &[u8], base: u64) -> Option<u64> {
    let mut number = 0u64;
    for byte in value {
        if *byte == b'_' {
            continue;
        }
        let digit = digit(*byte);
        if digit >= base {
            return None;
        }
        number = number.saturating_mul(base).saturating_add(digit);
    }
    if value.is_empty() { None } else { Some(number) }
}

/// The whole number that a value is, where it is one that is not negative.
pub fn number(value: &[u8]) -> Option<u64> {
    let (base, before) = match value {
        [b'0', b'x', ..] => (16, 2),
        [b'0', b'o', ..] => (8, 2),
        [b'0', b'b', ..] => (2, 2),
        [b'+', ..] => (10, 1),
        _ => (10, 0),
    };
    digits(value.get(before..).unwrap_or(b""), base)
}

/// Whether a value is written as a whole number.
fn is_number(value: &[u8]) -> bool {
    let from = if value.first() == Some(&b'-') {
        1usize
    } else {
        0usize
    };
    number(value.get(from..).unwrap_or(b"")).is_some()
}

/// Whether a value is a number in a range.
fn is_within(value: &[u8], least: u64, most: u64) -> bool {
    matches!(number(value), Some(number) if least <= number && number <= most)
}

/// Whether a value is written as a text.
pub(crate) fn is_text(value: &[u8]) -> bool {
    matches!(value.first(), Some(b'"' | b'\''))
}

/// Whether a value is of the sort that is wanted.
fn fits_sort(sort: Sort, value: &[u8]) -> bool {
    match sort {
        Sort::Number => is_number(value),
        Sort::Count => is_within(value, 0, GREATEST),
        Sort::Sdi => is_number(value) || is_text(value),
        Sort::Truth => value == b"true".as_slice() || value == b"false".as_slice(),
        Sort::Names | Sort::Offsets | Sort::Tables | Sort::List => value.starts_with(b"["),
        Sort::Name | Sort::Label | Sort::Equipment | Sort::Word | Sort::File | Sort::End => is_text(
            value,
        ),
    }
}

/// Whether a number is in its range; a text is in each.
fn fits_range(wanted: &Wanted, value: &[u8]) -> bool {
    match wanted.sort {
        Sort::Number => is_within(value, wanted.least, wanted.most),
        Sort::Sdi => is_text(value) || is_within(value, wanted.least, wanted.most),
        _ => true,
    }
}

/// Whether a byte may stand in a text that is wanted.
fn may_have(sort: Sort, byte: u8) -> bool {
    match sort {
        Sort::Label => matches!(byte, b'0'..=b'7'),
        Sort::Equipment => byte.is_ascii_hexdigit(),
        _ => byte.is_ascii_alphanumeric() || matches!(byte, b'_' | b'-'),
    }
}

/// How many bytes of a text may stand there, before the first that may not; nothing where all may.
pub(crate) fn wrong_at(sort: Sort, text: &[u8]) -> Option<usize> {
    for (at, byte) in text.iter().enumerate() {
        if !may_have(sort, *byte) {
            return Some(at);
        }
    }
    None
}

/// Whether a text is one of these words, which are parted by commas.
fn is_among(text: &[u8], words: &str) -> bool {
    for word in words.split(", ") {
        if word.as_bytes() == text {
            return true;
        }
    }
    false
}

/// Whether a text is two names with a dot between them, the first that there is.
fn is_end(text: &[u8]) -> bool {
    for (dot, byte) in text.iter().enumerate() {
        if *byte == b'.' {
            let port = text.get(dot.saturating_add(1)..).unwrap_or(b"");
            return is_spelled(Sort::Name, text.get(..dot).unwrap_or(b""))
                && is_spelled(Sort::Name, port);
        }
    }
    false
}

/// Whether a text is a name, a label or an equipment code.
fn is_spelled(sort: Sort, text: &[u8]) -> bool {
    if wrong_at(sort, text).is_some() {
        return false;
    }
    match sort {
        Sort::Name => 1 <= text.len() && text.len() <= 16,
        Sort::Label => {
            text.len() == 3 && text.first() <= Some(&b'3') && text != b"000".as_slice()
        }
        _ => text.len() == 3,
    }
}

/// Whether a text is in the spelling that is wanted.
fn fits_spelling(wanted: &Wanted, text: &[u8]) -> bool {
    match wanted.sort {
        Sort::Name | Sort::Label | Sort::Equipment => is_spelled(wanted.sort, text),
        Sort::Word => is_among(text, wanted.what),
        Sort::End => is_end(text),
        Sort::Sdi => text == b"any".as_slice(),
        _ => true,
    }
}

/// Whether a value keeps a rule; a text is spelled as it is without its quotes.
pub(crate) fn keeps(rule: Misfit, wanted: &Wanted, layout: &Layout<'_>, value: Span) -> bool {
    let piece = layout.piece(value);
    match rule {
        Misfit::Kind => fits_sort(wanted.sort, piece),
        Misfit::Range => fits_range(wanted, piece),
        Misfit::Spelling => !is_text(piece) || fits_spelling(wanted, layout.bare(value)),
    }
}

/// What is wanted of the members of a list, where they are no tables.
pub(crate) fn member_of(wanted: &Wanted) -> Option<Wanted> {
    let (sort, most, what) = match wanted.sort {
        Sort::Names => (Sort::Name, 0, ""),
        Sort::Offsets => (Sort::Number, 99_999, "ticks"),
        _ => return None,
    };
    Some(Wanted {
        sort,
        least: 0,
        most,
        what,
        ..*wanted
    })
}
