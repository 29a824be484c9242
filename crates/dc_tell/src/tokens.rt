//! The tokens of a text in TOML or JSON, as far as its tables and keys are to be found by them.
use std::alloc::Global;

/// What a token is.
#[derive(Clone, Copy)]
pub enum Token {
    /// `[`
    Open,
    /// `]`
    Close,
    /// `{`
    OpenTable,
    /// `}`
    CloseTable,
    /// `=`, or `:` in JSON
    Equals,
    /// `,`
    Comma,
    /// The end of a line of TOML.
    Line,
    /// A key, a number, true, false or null.
    Word,
    /// A text between quotes, which are its own.
    Text,
}

/// A piece of a text, from one byte up to another.
#[derive(Clone, Copy)]
pub struct Span {
    /// Its first byte.
    pub from: usize,
    /// The byte behind it.
    pub to: usize,
}

/// The signs of one byte, and whether TOML and JSON have each.
static SIGNS: [(u8, Token, bool, bool); 8] = [
    (b'[', Token::Open, true, true),
    (b']', Token::Close, true, true),
    (b'{', Token::OpenTable, true, true),
    (b'}', Token::CloseTable, true, true),
    (b',', Token::Comma, true, true),
    (b'=', Token::Equals, true, false),
    (b'\n', Token::Line, true, false),
    (b':', Token::Equals, false, true),
];

/// The sign that a byte is by itself.
fn sign(byte: u8, is_json: bool) -> Option<Token> {
    for (own, token, is_of_toml, is_of_json) in &SIGNS {
        let is_sign = if is_json { *is_of_json } else { *is_of_toml };
        if is_sign && *own == byte {
            return Some(*token);
        }
    }
    None
}

/// Whether a byte may stand in a word.
fn is_of_word(byte: u8, is_json: bool) -> bool {
    byte.is_ascii_alphanumeric()
        || matches!(byte, b'_' | b'-' | b'+' | b'.')
        || (byte == b':' && !is_json)
}

/// Where a word ends that begins there.
fn end_of_word(text: &[u8], from: usize, is_json: bool) -> usize {
    for (passed, byte) in text.get(from..).unwrap_or(b"").iter().enumerate() {
        if !is_of_word(*byte, is_json) {
            return from.saturating_add(passed);
        }
    }
    text.len()
}

/// Where a line ends.
fn end_of_line(text: &[u8], from: usize) -> usize {
    for (passed, byte) in text.get(from..).unwrap_or(b"").iter().enumerate() {
        if *byte == b'\n' {
            return from.saturating_add(passed);
        }
    }
    text.len()
}

/// Where a text on one line ends that begins there with this quote, if it does: behind the next such quote before which
/// no backslash stands, or with its line.
fn end_of_quoted(text: &[u8], from: usize, quote: u8) -> Option<usize> {
    let mut is_behind = false;
    let inner = from.saturating_add(1);
    for (passed, byte) in text.get(inner..).unwrap_or(b"").iter().enumerate() {
        let at = inner.saturating_add(passed);
        if *byte == b'\n' {
            return Some(at);
        }
        if *byte == quote && !is_behind {
            return Some(at.saturating_add(1));
        }
        is_behind = *byte == b'\\' && quote == b'"' && !is_behind;
    }
    None
}

/// Where a text over several lines ends that begins there with three of this quote, if it does: behind the next three.
fn end_of_long(text: &[u8], from: usize, quote: u8) -> Option<usize> {
    let mut run = 0u8;
    let inner = from.saturating_add(3);
    for (passed, byte) in text.get(inner..).unwrap_or(b"").iter().enumerate() {
        run = if *byte == quote {
            run.saturating_add(1)
        } else {
            0
        };
        if run >= 3 {
            return Some(inner.saturating_add(passed).saturating_add(1));
        }
    }
    None
}

/// Where a text between quotes ends that begins there, if it does.
fn end_of_text(text: &[u8], from: usize, quote: u8, is_json: bool) -> Option<usize> {
    let rest = text.get(from..).unwrap_or(b"");
    let is_long = rest.starts_with(b"\"\"\"") || rest.starts_with(b"'''");
    if is_long && !is_json {
        end_of_long(text, from, quote)
    } else {
        end_of_quoted(text, from, quote)
    }
}

/// The token that begins there, where one does, and where what stands there ends.
fn piece_at(text: &[u8], from: usize, byte: u8, is_json: bool) -> (Option<Token>, usize) {
    let behind = from.saturating_add(1);
    if let Some(sign) = sign(byte, is_json) {
        return (Some(sign), behind);
    }
    if byte == b'"' || (byte == b'\'' && !is_json) {
        return match end_of_text(text, from, byte, is_json) {
            Some(end) => (Some(Token::Text), end),
            None => (None, text.len()),
        };
    }
    if byte == b'#' && !is_json {
        return (None, end_of_line(text, from));
    }
    if is_of_word(byte, is_json) {
        return (Some(Token::Word), end_of_word(text, from, is_json));
    }
    (None, behind)
}

/// The tokens of a text, without its comments; nothing where memory was refused.
pub fn tokens_of(alloc: Global, text: &[u8], is_json: bool) -> Option<Vec<(Token, Span)>> {
    let mut tokens = Vec::new(alloc);
    let mut next = 0usize;
    for (from, byte) in text.iter().enumerate() {
        if from < next {
            continue;
        }
        let (token, to) = piece_at(text, from, *byte, is_json);
        next = to;
        if let Some(token) = token {
            if tokens.push((token, Span { from, to })).is_err() {
                return None;
            }
        }
    }
    Some(tokens)
}
