//! The ends of the links of a system's text.
use dc_explain_text::Refused;
use dc_tell::{Kind, Span, unquoted};

/// The two names at an end of a link: that of the concentrator, and that of its output or bus.
pub(crate) fn end_of(refused: &Refused<'_>, row: usize, key: &str) -> (Span, Span) {
    let layout = &refused.layout;
    let Some(key) = layout.key(row, key.as_bytes()) else {
        return (Span { from: 0, to: 0 }, Span { from: 0, to: 0 });
    };
    let Span { from, to } = unquoted(key.value, layout.text);
    for (number, byte) in layout.piece(Span { from, to }).iter().enumerate() {
        if *byte == b'.' {
            let dot = from.saturating_add(number);
            let behind = dot.saturating_add(1);
            return (Span { from, to: dot }, Span { from: behind, to });
        }
    }
    (Span { from, to }, Span { from: to, to })
}

/// The row of the concentrator at an end of a link, where there is one of this name.
pub(crate) fn concentrator_at(refused: &Refused<'_>, row: usize, key: &str) -> Option<usize> {
    let (name, _) = end_of(refused, row, key);
    refused.named(Kind::Concentrator, refused.layout.piece(name))
}
