//! The titles of a sheet, and the faults of its rows in their order.

ghost use Rattle.std.specs.Prelude.{◌≡◌, ◌&&◌, IfOk, IfSome, true};
ghost use Rattle.csv.specs.Records.{fields_of};
ghost use Rattle.dc_sheet.specs.Places.{is_clear as is_clear_of, AreClear};

use crate::fault::{Fault, FaultKind, Faults, Sheet, SheetError};
use crate::places::cell;
use crate::sheet::{are_empty_from, is_passed};
use csv::ByteRecord;
use dc_cell::{
    CellFault, Column, INPUT_COLUMNS, MOST_UNREAD, OUTPUT_COLUMNS, Shown, TimeUnit, UnreadTitle,
    equipment_cell, format_cell, input_sdi_cell, is_clear_input, is_clear_output, is_input_title,
    is_input_unitless, is_meant, is_output_title, is_output_unitless, is_title, key_of, label_cell,
    name_cell, name_if_any_cell, output_sdi_cell, police_cell, push_names, queue_cell, speed_cell,
    steps_cell, time_cell, unit_of,
};
use dc_document::Name;
use std::alloc::{AllocError, Global};

/// So many columns of each sheet are wanted.
const WANTED: usize = 7;

/// A title that is read.
#[derive(Clone, Copy)]
pub(crate) struct ReadTitle {
    place: usize,
    column: Column,
    unit: TimeUnit,
}

/// What the titles of a sheet say.
#[derive(Drop)]
pub(crate) struct Heading {
    /// Those that are read, from the left.
    pub(crate) read: Vec<ReadTitle>,
    /// The first of those that are not.
    pub(crate) unread: Vec<UnreadTitle>,
}

/// What is asked of the cells of a row.
#[derive(Clone, Copy)]
struct Asked<'a> {
    sheet: Sheet,
    read: &'a [ReadTitle],
    columns: usize,
    commas: bool,
}

/// The columns of a sheet.
fn columns_of(sheet: Sheet) -> &'static [Column] {
    match sheet {
        Sheet::Inputs => &INPUT_COLUMNS,
        Sheet::Outputs => &OUTPUT_COLUMNS,
    }
}

/// Whether a column is one of these.
fn is_among(column: Column, columns: &[Column]) -> bool {
    for other in columns {
        if *other == column {
            return true;
        }
    }
    false
}

/// The column of a sheet that a title is of.
fn column_of(sheet: Sheet, key: &[u8]) -> Option<Column> {
    for column in columns_of(sheet) {
        if is_title(*column, key) {
            return Some(*column);
        }
    }
    None
}

/// Adds a fault of the header.
fn push_header(faults: &mut Faults, sheet: Sheet, kind: FaultKind) -> Result<(), AllocError> {
    faults.push(Fault {
        sheet,
        row: 1,
        kind,
    })
}

/// Whether a title of a sheet is read, or no column of it can be meant by the title.
fn is_clear(sheet: Sheet, key: &[u8]) -> bool
    ensures { result ≡ is_clear_of sheet key.now }
{
    match sheet {
        Sheet::Inputs => is_clear_input(key),
        Sheet::Outputs => is_clear_output(key),
    }
}

/// Whether a title of a sheet is clear too, where those before it are.
fn is_still_clear(before: bool, sheet: Sheet, key: &[u8]) -> bool
    ensures { result ≡ (before && is_clear_of sheet key.now) }
{
    before && is_clear(sheet, key)
}

/// The column of a sheet that seems to be meant by a title. Where that may be several it is the last, since the name of one that
/// need not be there may begin as that of one that is wanted does: `Maxmum age` is no `Maximum`.
fn meant_of(sheet: Sheet, key: &[u8]) -> Option<Column> {
    let mut meant = None;
    for column in columns_of(sheet) {
        if is_meant(*column, key) {
            meant = Some(*column);
        }
    }
    meant
}

/// Whether a column of the other sheet has this title, or seems to be meant by it for want of its unit.
fn is_of_other(sheet: Sheet, key: &[u8]) -> bool {
    match sheet {
        Sheet::Inputs => is_output_title(key) || is_output_unitless(key),
        Sheet::Outputs => is_input_title(key) || is_input_unitless(key),
    }
}

/// What was read of the titles of a sheet so far.
#[derive(Drop)]
struct Titles {
    read: Vec<ReadTitle>,
    unread: Vec<UnreadTitle>,
    seen: Vec<Column>,
    meant: Vec<Column>,
}

impl Titles {
    /// Adds a title of a column that is read, and a fault where it is not the first of that column.
    fn push_read(
        &mut self,
        sheet: Sheet,
        title: ReadTitle,
        faults: &mut Faults,
    ) -> Result<(), AllocError> {
        self.read.push(title)?;
        let column = title.column;
        if !is_among(column, &self.seen) {
            self.seen.push(column)?;
        } else if column != Column::Sources {
            push_header(faults, sheet, FaultKind::Twice(column))?;
        }
        Ok(())
    }

    /// Adds a title that is not read, and a fault where a column seems to be meant by it.
    fn push_unread(
        &mut self,
        sheet: Sheet,
        title: &[u8],
        key: &[u8],
        faults: &mut Faults,
    ) -> Result<(), AllocError> {
        let shown = Shown::new(title);
        if let Some(column) = meant_of(sheet, key) {
            self.meant.push(column)?;
            return push_header(faults, sheet, FaultKind::Meant { column, shown });
        }
        if !title.is_empty() && self.unread.len() < MOST_UNREAD {
            self.unread.push(UnreadTitle {
                title: shown,
                is_of_other: is_of_other(sheet, key),
            })?;
        }
        Ok(())
    }

    /// Adds the title at a place.
    fn push(
        &mut self,
        sheet: Sheet,
        place: usize,
        title: &[u8],
        key: &[u8],
        faults: &mut Faults,
    ) -> Result<(), AllocError> {
        match column_of(sheet, key) {
            Some(column) => {
                let unit = unit_of(key);
                let read = ReadTitle {
                    place,
                    column,
                    unit,
                };
                self.push_read(sheet, read, faults)
            }
            None => self.push_unread(sheet, title, key, faults),
        }
    }

    /// Adds a fault for each column that is wanted, and is neither there nor seems to be meant.
    fn tell_absent(&self, sheet: Sheet, faults: &mut Faults) -> Result<(), AllocError> {
        for column in columns_of(sheet).iter().take(WANTED) {
            if !is_among(*column, &self.seen) && !is_among(*column, &self.meant) {
                push_header(faults, sheet, FaultKind::Absent(*column))?;
            }
        }
        Ok(())
    }
}

/// Reads the titles from the left, and adds the faults of the header; false where a column seems to be meant by one that is
/// not read.
fn read_titles(
    alloc: Global,
    sheet: Sheet,
    header: &ByteRecord,
    titles: &mut Titles,
    faults: &mut Faults,
) -> Result<bool, AllocError>
    ensures { IfOk result (λ clear. clear ≡ true → AreClear sheet (fields_of header.now)) }
{
    let mut clear = true;
    for place in 0..header.len() {
        let title = cell(header, Some(place));
        let key = key_of(alloc, title)?;
        clear = is_still_clear(clear, sheet, &key);
        titles.push(sheet, place, title, &key, faults)?;
    }
    titles.tell_absent(sheet, faults)?;
    Ok(clear)
}

/// That a sheet has no header.
pub(crate) fn header_fault(alloc: Global, sheet: Sheet) -> SheetError {
    let mut faults = Faults::new(alloc);
    match push_header(&mut faults, sheet, FaultKind::NoHeader) {
        Ok(()) => SheetError::Faults(faults),
        Err(_) => SheetError::Memory,
    }
}

/// Reads the header, and adds its faults; `None` where a column seems to be meant by a title that is not read.
fn read_heading(
    alloc: Global,
    sheet: Sheet,
    header: &ByteRecord,
    faults: &mut Faults,
) -> Result<Option<Heading>, AllocError>
    ensures { IfOk result (λ found. IfSome found (λ heading. AreClear sheet (fields_of header.now))) }
{
    let mut titles = Titles {
        read: Vec::new(alloc),
        unread: Vec::new(alloc),
        seen: Vec::new(alloc),
        meant: Vec::new(alloc),
    };
    let clear = read_titles(alloc, sheet, header, &mut titles, faults)?;
    if !clear {
        return Ok(None);
    }
    let Titles { read, unread, .. } = titles;
    Ok(Some(Heading { read, unread }))
}

/// What the titles of a sheet say, or the faults of its header.
pub(crate) fn titles_of(
    alloc: Global,
    sheet: Sheet,
    header: &ByteRecord,
) -> Result<Heading, SheetError>
    ensures { IfOk result (λ heading. AreClear sheet (fields_of header.now)) }
{
    if are_empty_from(header, 0) {
        return Err(header_fault(alloc, sheet));
    }
    let mut faults = Faults::new(alloc);
    match read_heading(alloc, sheet, header, &mut faults) {
        Ok(Some(heading)) if faults.is_empty() => Ok(heading),
        Ok(_) => Err(SheetError::Faults(faults)),
        Err(_) => Err(SheetError::Memory),
    }
}

/// Whether an empty cell of a column says that nothing is asked there.
fn may_be_empty(column: Column, sheet: Sheet) -> bool {
    match column {
        Column::Jitter
        | Column::MaxAge
        | Column::Timeout
        | Column::Queue
        | Column::Steps
        | Column::Within => true,
        Column::Format => matches!(sheet, Sheet::Outputs),
        _ => false,
    }
}

/// Why an SDI is not read.
fn sdi_fault(text: &[u8], sheet: Sheet) -> Option<CellFault> {
    match sheet {
        Sheet::Inputs => input_sdi_cell(text).err(),
        Sheet::Outputs => output_sdi_cell(text).err(),
    }
}

/// Why sources are not read.
fn sources_fault(alloc: Global, text: &[u8]) -> Result<Option<CellFault>, AllocError> {
    let mut names: Vec<Name> = Vec::new(alloc);
    if push_names(alloc, text, &mut names)? {
        Ok(None)
    } else {
        Ok(Some(CellFault::NotName))
    }
}

/// Why a cell that holds one value is not read.
fn value_fault(text: &[u8], title: &ReadTitle, sheet: Sheet, commas: bool) -> Option<CellFault> {
    if text.is_empty() && may_be_empty(title.column, sheet) {
        return None;
    }
    match title.column {
        Column::Bus | Column::Output => name_cell(text).err(),
        Column::Router | Column::Name => name_if_any_cell(text).err(),
        Column::Speed => speed_cell(text).err(),
        Column::Label => label_cell(text).err(),
        Column::Equipment => equipment_cell(text).err(),
        Column::Format => format_cell(text).err(),
        Column::Min | Column::Max | Column::MaxAge | Column::Timeout | Column::Within => {
            time_cell(text, title.unit, commas, 1).err()
        }
        Column::Jitter => time_cell(text, title.unit, commas, 0).err(),
        Column::Sdi => sdi_fault(text, sheet),
        Column::Police => police_cell(text).err(),
        Column::Queue => queue_cell(text).err(),
        Column::Steps => steps_cell(text).err(),
        Column::Sources => None,
    }
}

/// Why a cell is not read.
fn cell_fault(
    alloc: Global,
    text: &[u8],
    title: &ReadTitle,
    asked: Asked<'_>,
) -> Result<Option<CellFault>, AllocError> {
    match title.column {
        Column::Sources => sources_fault(alloc, text),
        _ => Ok(value_fault(text, title, asked.sheet, asked.commas)),
    }
}

/// The microseconds of a column of times whose cell is read.
fn time_of(line: &ByteRecord, asked: Asked<'_>, column: Column) -> Option<u32> {
    for title in asked.read {
        if title.column == column {
            return time_cell(cell(line, Some(title.place)), title.unit, asked.commas, 1).ok();
        }
    }
    None
}

/// Adds that a least interval is over the greatest, where it is.
fn tell_reversed(
    faults: &mut Faults,
    line: &ByteRecord,
    row: u32,
    asked: Asked<'_>,
) -> Result<(), AllocError> {
    let Some(min_us) = time_of(line, asked, Column::Min) else {
        return Ok(());
    };
    let Some(max_us) = time_of(line, asked, Column::Max) else {
        return Ok(());
    };
    if min_us > max_us {
        let kind = FaultKind::Reversed { min_us, max_us };
        let sheet = asked.sheet;
        return faults.push(Fault { sheet, row, kind });
    }
    Ok(())
}

/// Whether the cell of a column is empty, or there is none.
fn is_empty_at(line: &ByteRecord, asked: Asked<'_>, column: Column) -> bool {
    for title in asked.read {
        if title.column == column {
            return cell(line, Some(title.place)).is_empty();
        }
    }
    true
}

/// Adds that steps are said and the time in which they are made is not, where that is so.
fn tell_untimed(
    faults: &mut Faults,
    line: &ByteRecord,
    row: u32,
    asked: Asked<'_>,
) -> Result<(), AllocError> {
    if is_empty_at(line, asked, Column::Within) && !is_empty_at(line, asked, Column::Steps) {
        let kind = FaultKind::Cell {
            column: Column::Within,
            shown: Shown::new(b""),
            fault: CellFault::NoWithin,
        };
        let sheet = asked.sheet;
        return faults.push(Fault { sheet, row, kind });
    }
    Ok(())
}

/// Adds the faults of the cells of a record from the left, and says whether there are some.
fn tell_cells(
    alloc: Global,
    faults: &mut Faults,
    line: &ByteRecord,
    row: u32,
    asked: Asked<'_>,
) -> Result<bool, AllocError> {
    let mut some = false;
    for title in asked.read {
        let text = cell(line, Some(title.place));
        if let Some(fault) = cell_fault(alloc, text, title, asked)? {
            let column = title.column;
            let shown = Shown::new(text);
            let kind = FaultKind::Cell {
                column,
                shown,
                fault,
            };
            let sheet = asked.sheet;
            faults.push(Fault { sheet, row, kind })?;
            some = true;
        }
    }
    Ok(some)
}

/// Adds the faults of a record.
fn tell_record(
    alloc: Global,
    faults: &mut Faults,
    line: &ByteRecord,
    row: u32,
    asked: Asked<'_>,
) -> Result<(), AllocError> {
    if is_passed(line) {
        return Ok(());
    }
    if !are_empty_from(line, asked.columns) {
        let kind = FaultKind::Past {
            cells: line.len(),
            columns: asked.columns,
        };
        let sheet = asked.sheet;
        return faults.push(Fault { sheet, row, kind });
    }
    if !tell_cells(alloc, faults, line, row, asked)? {
        tell_reversed(faults, line, row, asked)?;
        tell_untimed(faults, line, row, asked)?;
    }
    Ok(())
}

/// Adds the faults of all records behind the header.
fn tell_records(
    alloc: Global,
    faults: &mut Faults,
    records: &[ByteRecord],
    asked: Asked<'_>,
) -> Result<(), AllocError> {
    for i in 0..records.len() {
        let Ok(row) = u32::try_from(i + 2) else {
            return Err(AllocError);
        };
        tell_record(alloc, faults, &records[i], row, asked)?;
    }
    Ok(())
}

/// The faults of the records behind the header.
pub(crate) fn row_faults(
    alloc: Global,
    sheet: Sheet,
    records: &[ByteRecord],
    columns: usize,
    read: &[ReadTitle],
    commas: bool,
) -> SheetError {
    let mut faults = Faults::new(alloc);
    let asked = Asked {
        sheet,
        read,
        columns,
        commas,
    };
    match tell_records(alloc, &mut faults, records, asked) {
        Ok(()) => SheetError::Faults(faults),
        Err(_) => SheetError::Memory,
    }
}
