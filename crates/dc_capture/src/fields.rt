//! The fields of a line.
ghost use Rattle.std.specs.Prelude.{◌≡◌, ◌+◌, ◌<◌, [], ◌∷◌, drop, length, take, MatchOption};
ghost use Rattle.dc_event.specs.TraceText.{fields_of};

/// Where the first space of a text is.
fn first_space(text: &[u8]) -> Option<usize>
    ensures { MatchOption result (fields_of text.now ≡ text.now ∷ [])
        (λ i. (i < length text.now) × (fields_of text.now ≡ take i text.now ∷ fields_of (drop (i + 1) text.now))) }
{
    for (i, c) in text.iter().enumerate() {
        if *c == b' ' {
            return Some(i);
        }
    }
    None
}

/// The first field of a text, and what stands behind the space after it; none where the text is one field.
pub(crate) fn split_field(text: &[u8]) -> Option<(&[u8], &[u8])>
    ensures { MatchOption result (fields_of text.now ≡ text.now ∷ []) (λ parts. fields_of text.now ≡ parts.0.now ∷ fields_of parts.1.now) }
{
    let Some(space) = first_space(text) else {
        return None;
    };
    Some((&text[..space], &text[space + 1..]))
}
