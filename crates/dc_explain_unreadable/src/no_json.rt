//! Texts that no JSON reader reads, and what is wrong at the place where it stopped.
use dc_explain_text::{Fact, Refused};
use dc_tell::{Span, Token, Value, tokens_of};
use serde_json::{Error, Value as Json};
use std::alloc::Global;

/// The byte at a line and a column of bytes, both from 1.
fn offset_of(text: &[u8], line: usize, column: usize) -> usize {
    let mut number = 1usize;
    let mut from = 0usize;
    for (at, byte) in text.iter().enumerate() {
        if *byte == b'\n' && number < line {
            number = number.saturating_add(1);
            from = at.saturating_add(1);
        }
    }
    from.saturating_add(column)
        .saturating_sub(1)
        .min(text.len())
}

/// What a byte is: `0` for a digit, `a` for a letter, itself for any other.
fn class_of(byte: u8) -> u8 {
    if byte.is_ascii_digit() {
        b'0'
    } else if byte.is_ascii_alphabetic() {
        b'a'
    } else {
        byte
    }
}

/// Whether a text ends behind the last bracket of what it holds; not where memory was refused.
fn is_whole(alloc: Global, text: &[u8]) -> bool {
    let Some(tokens) = tokens_of(alloc, text, true) else {
        return false;
    };
    let (mut opened, mut closed) = (0usize, 0usize);
    for (token, _) in tokens.as_slice() {
        match token {
            Token::Open | Token::OpenTable => opened = opened.saturating_add(1),
            Token::Close | Token::CloseTable => closed = closed.saturating_add(1),
            _ => {}
        }
    }
    opened == closed && opened != 0
}

/// What may be wrong where the reader stopped: what stands before (nothing for any), what stands there, and what it is.
static CAUSES: [(&'static [u8], &'static [u8], &'static str); 14] = [
    (
        b" ",
        b"",
        "a certificate is an object in braces: this text is something else",
    ),
    (
        b":",
        b"0+-.",
        "write a whole number in digits alone, with no 0 and no sign before them (4294967295 at most)",
    ),
    (
        b":",
        b"},]",
        "a value is missing here, behind the colon: each key has one, as `\"version\":1`",
    ),
    (
        b":",
        b"a_",
        "a value is a number in digits, a text in double quotes, a list or an object",
    ),
    (
        b":,[{",
        b"\"",
        "this text is not closed in its line, or has a tab or a wrong backslash in it",
    ),
    (
        b"\"",
        b"a",
        "a quote is missing before this, or there is one too many",
    ),
    (
        b",",
        b"}]",
        "a comma stands before this bracket: take it out",
    ),
    (b"", b"'", "texts and keys stand in double quotes"),
    (b"", b"/#", "JSON has no comments: take it out"),
    (
        b"\"}]0",
        b"\"{[",
        "a comma is missing before this, or a colon behind a key",
    ),
    (b"\"", b"0", "a colon is missing behind the key"),
    (b"{,", b"a_", "keys stand in double quotes"),
    (
        b"",
        b"\n\r\t",
        "a text in quotes ends in its own line, and has no tab in it",
    ),
    (
        b"",
        b"",
        "see that each bracket and quote is closed, and that commas part the members",
    ),
];

/// What may be wrong where the reader stopped.
fn cause(before: u8, there: u8) -> &'static str {
    for (earlier, here, what) in &CAUSES {
        let fits = earlier.is_empty() || earlier.contains(&before);
        if fits && (here.is_empty() || here.contains(&there)) {
            return what;
        }
    }
    ""
}

/// Tells where a text ends too early.
fn tell_end(refused: &mut Refused<'_>) {
    let at = refused.file.text.trim_ascii_end().len();
    refused.say(
        "this is no JSON: the text ends before its brackets or quotes are closed{}\nhelp: close them, or copy the certificate anew: it may have been cut off\nhelp: or let `dc429 find TABLES > FILE` write a certificate",
        &[Fact::Here(Span { from: at, to: at })],
    );
}

/// What may be wrong at a place of a text where the reader said this.
fn cause_at(alloc: Global, text: &[u8], at: usize, message: &str) -> &'static str {
    if message.contains("out of range") {
        return "a number before this is too great: 4294967295 is the most";
    }
    let before = text.get(..at).unwrap_or(b"");
    if is_whole(alloc, before) {
        return "the certificate ends before this: take out what follows";
    }
    let last = before.trim_ascii_end().last().copied().unwrap_or(b' ');
    let there = text.get(at).copied().unwrap_or(b' ');
    cause(class_of(last), class_of(there))
}

/// Tells where JSON's reader stopped, and what it said.
fn tell_stop(refused: &mut Refused<'_>, at: usize, message: &str) {
    let what = cause_at(refused.alloc, refused.file.text, at, message);
    refused
        .out
        .say("this is no JSON: {}", &[Value::Text(message)]);
    refused.say(
        "{}\nhelp: {}\nhelp: or let `dc429 find TABLES > FILE` write a certificate",
        &[Fact::Here(Span { from: at, to: at }), Fact::Word(what)],
    );
}

/// Tells what is wrong by what JSON's reader says.
fn tell_error(refused: &mut Refused<'_>, error: &Error) {
    if error.is_eof() {
        return tell_end(refused);
    }
    let at = offset_of(refused.file.text, error.line(), error.column());
    match format!(in refused.alloc; "{error}") {
        Ok(message) => tell_stop(refused, at, message.as_str()),
        Err(_) => refused.out.lose(),
    }
}

/// Tells what JSON's reader says of a text.
pub(crate) fn tell_no_json(refused: &mut Refused<'_>) {
    match Json::from_slice(refused.alloc, refused.file.text) {
        Ok(_) => refused.say("this is no certificate", &[]),
        Err(error) => tell_error(refused, &error),
    }
}
