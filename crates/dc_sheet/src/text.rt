//! The records of a text.

ghost use Rattle.std.specs.Prelude.{◌≡◌, ◌==◌, ◌<◌, IfOk, IfSome, map, count_by, length};
ghost use Rattle.std.specs.List.{position_from};
ghost use Rattle.csv.specs.Records.{fields_of};
ghost use Rattle.dc_sheet.specs.Texts.{is_line_end as is_line_end_of, first_line as first_line_of, separator_of, IsSheetText};

use csv::{ByteRecord, Error, ReaderBuilder};
use std::alloc::Global;

/// Whether a byte ends a line.
fn is_line_end(byte: u8) -> bool
    ensures { result ≡ is_line_end_of byte }
{
    byte == b'\r' || byte == b'\n'
}

/// Where the first line ends.
fn line_end(text: &[u8]) -> Option<usize>
    ensures value { result ≡ position_from is_line_end_of 0 text.now }
    ensures within { IfSome result (λ end. end < length text.now) }
{
    for (end, byte) in text.iter().enumerate() {
        if is_line_end(*byte) {
            return Some(end);
        }
    }
    None
}

/// The bytes before the first end of a line.
fn first_line(text: &[u8]) -> &[u8]
    ensures { result.now ≡ first_line_of text.now }
{
    match line_end(text) {
        Some(end) => &text[..end],
        None => text,
    }
}

/// How often a byte stands in a line.
fn count(line: &[u8], wanted: u8) -> usize
    ensures { result ≡ count_by (λ x. x == wanted) line.now }
{
    line.iter().filter(|byte| **byte == wanted).count()
}

/// The byte that parts the cells of a text: of `,`, `;` and the tab, in this order, the one that stands most often in the
/// first line.
pub(crate) fn separator(text: &[u8]) -> u8
    ensures { result ≡ separator_of text.now }
{
    let line = first_line(text);
    let commas = count(line, b',');
    let semicolons = count(line, b';');
    let tabs = count(line, b'\t');
    if semicolons <= commas && tabs <= commas {
        b','
    } else if tabs <= semicolons {
        b';'
    } else {
        b'\t'
    }
}

/// The records of a text, each cell without the white space at its ends.
pub(crate) fn records(alloc: Global, text: &[u8], separator: u8) -> Result<Vec<ByteRecord>, Error>
    ensures { IfOk result (λ v. IsSheetText separator text.now (map fields_of v.items)) }
{
    let rdr = ReaderBuilder::new()
        .has_headers(false)
        .flexible(true)
        .delimiter(separator)
        .from_reader(alloc, text);
    let mut rows = Vec::new(alloc);
    for row in rdr.into_byte_records() {
        let mut row = row?;
        if row.trim().is_err() {
            return Err(Error::out_of_memory());
        }
        if rows.push(row).is_err() {
            return Err(Error::out_of_memory());
        }
    }
    Ok(rows)
}
