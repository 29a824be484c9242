//! A text that was refused, and those that are no document of their language: T01, K1 and N01.
use crate::instead::tell_instead;
use crate::no_toml::tell_no_toml;
use dc_document::TEXT_LIMIT;
use dc_explain_text::{Fact, Refused};
use dc_tell::{Explanation, File, Kind, Span, Value, is_of_certificate, layout_below};
use std::alloc::Global;

/// A text of TOML without the byte order mark before it, where it is short enough to be read.
fn without_mark(file: File<'_>) -> File<'_> {
    let is_marked = file.text.starts_with(b"\xEF\xBB\xBF") && file.text.len() <= TEXT_LIMIT;
    let text = if is_marked {
        file.text.get(3..).unwrap_or(b"")
    } else {
        file.text
    };
    File {
        name: file.name,
        text,
    }
}

/// A text that was refused, by the kind of its top, with where its tables stand if it is a document of its language;
/// nothing where memory was refused.
pub fn refused_of<'a>(
    alloc: Global,
    file: File<'a>,
    top: Kind,
    is_document: bool,
) -> Option<Refused<'a>> {
    let file = if is_of_certificate(top) {
        file
    } else {
        without_mark(file)
    };
    let text = if is_document { file.text } else { b"" };
    let Some(mut layout) = layout_below(alloc, text, top) else {
        return None;
    };
    layout.text = file.text;
    Some(Refused {
        alloc,
        out: Explanation::new(alloc),
        file,
        layout,
        row: 0,
    })
}

/// Tells of a text that is not UTF-8 from this byte on.
fn tell_bytes(refused: &mut Refused<'_>, at: usize) {
    let text = refused.file.text;
    let byte = text.get(at).copied().unwrap_or(0);
    refused.out.say(
        "the text is not UTF-8: its byte {} stands for no letter",
        &[Value::Byte(byte)],
    );
    let is_wide = text.starts_with(b"\xFF\xFE") || text.starts_with(b"\xFE\xFF");
    refused.say(
        "{}\n{}help: this looks like UTF-16, as some shells write it: save the file as UTF-8\n{}help: save the file as UTF-8; a letter with an accent, or a sign as of degrees, in Latin-1 is the usual cause",
        &[
            Fact::Here(Span { from: at, to: at }),
            Fact::If(is_wide),
            Fact::If(!is_wide),
        ],
    );
}

/// Tells that a text is longer than is read.
fn tell_length(refused: &mut Refused<'_>) {
    let top = refused.kind(0);
    refused.out.say(
        "the text is longer than {} bytes, and no more is read",
        &[Value::Number(TEXT_LIMIT as u64)],
    );
    refused.out.name_file(refused.file.name);
    refused.say(
        "\n{}help: a certificate of the largest tables is shorter: let `dc429 find TABLES > FILE` write one\n{}help: take out comments, or split the tables: two concentrators, each with tables of its own\n{}help: take out comments; the largest system has 64 concentrators and 1024 links",
        &[
            Fact::If(top == Kind::Certificate),
            Fact::If(top == Kind::Top),
            Fact::If(top == Kind::System),
        ],
    );
}

/// Tells of a text that is no document of its language.
pub fn tell_no_document(refused: &mut Refused<'_>) {
    let bytes = refused.file.text;
    if bytes.len() > TEXT_LIMIT {
        return tell_length(refused);
    }
    match str::from_utf8(bytes) {
        Err(error) => tell_bytes(refused, error.valid_up_to()),
        Ok(text) if refused.layout.is_json => tell_instead(refused, text),
        Ok(text) => tell_no_toml(refused, text),
    }
}
