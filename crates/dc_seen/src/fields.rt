//! The fields of a line.
ghost use Rattle.std.specs.Prelude.{◌≡◌, ◌+◌, ◌<◌, [], ◌∷◌, drop, length, take, MatchOption};
ghost use Rattle.dc_event.specs.TraceText.{fields_of};
ghost use Rattle.dc_seen.specs.Kinds.{field, is_word, spaces};

/// Where the first space of a text is.
fn first_space(text: &[u8]) -> Option<usize>
    ensures { MatchOption result (fields_of text.now ≡ text.now ∷ [])
        (λ i. (i < length text.now) × (fields_of text.now ≡ take i text.now ∷ fields_of (drop (i + 1) text.now))) }
{
    for (i, c) in text.iter().enumerate() {
        if *c == b' ' {
            return Some(i);
        }
    }
    None
}

/// The first field of a text, and what stands behind the space after it; none where the text is one field.
fn split_field(text: &[u8]) -> Option<(&[u8], &[u8])>
    ensures { MatchOption result (fields_of text.now ≡ text.now ∷ []) (λ parts. fields_of text.now ≡ parts.0.now ∷ fields_of parts.1.now) }
{
    let Some(space) = first_space(text) else {
        return None;
    };
    Some((&text[..space], &text[space + 1..]))
}

/// The only field of a text at place 0, and an empty one past it.
fn only_field(text: &[u8], place: usize) -> &[u8]
    ensures { result.now ≡ field (text.now ∷ []) place }
{
    if place == 0 {
        return text;
    }
    b""
}

/// The field of this number of a line, from 0; an empty one past the last.
pub(crate) fn field(line: &[u8], place: usize) -> &[u8]
    ensures { result.now ≡ field (fields_of line.now) place }
{
    let Some((first, rest)) = split_field(line) else {
        return only_field(line, place);
    };
    if place == 0 {
        return first;
    }
    field(rest, place - 1)
}

/// Whether the field of this number is this word.
pub(crate) fn is_word(line: &[u8], place: usize, word: &[u8]) -> bool
    ensures { result ≡ is_word (fields_of line.now) place word.now }
{
    field(line, place) == word
}

/// 1 for a space, 0 for each other byte.
fn spaces(byte: u8) -> usize
    ensures { result ≡ spaces byte }
{
    if byte == b' ' { 1 } else { 0 }
}

/// How many fields a line has.
pub(crate) fn count_fields(line: &[u8]) -> usize
    ensures { result ≡ length (fields_of line.now) }
{
    let mut count = 1;
    for c in line {
        count += spaces(*c);
    }
    count
}
