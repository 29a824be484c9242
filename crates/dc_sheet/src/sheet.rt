//! A text as the records of a sheet.

ghost use Rattle.std.specs.Prelude.{◌≡◌, ◌∷◌, ◌==◌, ◌||◌, IfOk, IfSome, map, drop, length, slice_index};
ghost use Rattle.std.specs.List.{list_all};
ghost use Rattle.csv.specs.Records.{fields_of};
ghost use Rattle.dc_sheet.specs.Places.{cell_at};
ghost use Rattle.dc_sheet.specs.Sheets.{is_empty_cell, is_passed as is_passed_of, is_within as is_within_of};
ghost use Rattle.dc_sheet.specs.Texts.{IsSheetText, separator_of};

use crate::fault::{Sheet, SheetError};
use crate::places::cell;
use crate::text::{records, separator};
use csv::ByteRecord;
use dc_document::TEXT_LIMIT;
use std::alloc::Global;

/// Whether the cells from a place on are empty.
pub(crate) fn are_empty_from(line: &ByteRecord, first: usize) -> bool
    ensures { result ≡ is_within_of first (fields_of line.now) }
{
    for place in first..line.len() {
        if !cell(line, Some(place)).is_empty() {
            return false;
        }
    }
    true
}

/// Whether a record is passed over: all its cells are empty, or its first begins with `#`.
pub(crate) fn is_passed(line: &ByteRecord) -> bool
    ensures { result ≡ is_passed_of (fields_of line.now) }
{
    are_empty_from(line, 0) || begins_remark(cell(line, Some(0)))
}

/// Whether a cell begins with `#`.
fn begins_remark(cell: &[u8]) -> bool
    ensures { result ≡ (slice_index cell.now 0 == 35) }
{
    !cell.is_empty() && cell[0] == b'#'
}

/// Whether a text is in UTF-16, by its first two bytes.
fn is_utf16(text: &[u8]) -> bool {
    text.len() >= 2 && (text[0] == 0xFF && text[1] == 0xFE || text[0] == 0xFE && text[1] == 0xFF)
}

/// The records of a sheet's text.
pub(crate) fn sheet_records(
    alloc: Global,
    sheet: Sheet,
    text: &[u8],
) -> Result<Vec<ByteRecord>, SheetError>
    ensures { IfOk result (λ v. IsSheetText (separator_of text.now) text.now (map fields_of v.items)) }
{
    if text.len() > TEXT_LIMIT {
        return Err(SheetError::TooLong(sheet));
    }
    if is_utf16(text) {
        return Err(SheetError::Utf16(sheet));
    }
    match records(alloc, text, separator(text)) {
        Ok(found) => Ok(found),
        Err(_) => Err(SheetError::Memory),
    }
}
