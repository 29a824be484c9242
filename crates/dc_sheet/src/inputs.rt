//! The sheet of the inputs.

ghost use Rattle.std.specs.Prelude.{◌≡◌, ◌==◌, IfOk, IfSome, length, map, true};
ghost use Rattle.csv.specs.Records.{fields_of};
ghost use Rattle.dc_sheet.specs.Sheets.{AddsInput, AreInputs, InputsBefore, IsInputRow, SayInputs};

use crate::cells::{
    equipment_at, format_at, input_sdi_at, jitter_at, label_at, name_at, name_if_any_at, police_at,
    queue_if_any_at, speed_at, task_at, time_at,
};
use crate::collect::{Heading, header_fault, row_faults, titles_of};
use crate::fault::{Sheet, SheetError};
use crate::places::{InputPlaces, input_places};
use crate::sheet::{are_empty_from, is_passed, sheet_records};
use crate::text::separator;
use csv::ByteRecord;
use dc_cell::{CellFault, InputRow, Inputs, Task};
use std::alloc::{AllocError, Global};

/// The row that a record says, or why the first of its cells that is not read is not.
fn input_row(
    number: u32,
    line: &ByteRecord,
    places: &InputPlaces,
    commas: bool,
) -> Result<InputRow, CellFault>
    ensures { IfOk result (λ row. IsInputRow commas number places.now (fields_of line.now) row) }
{
    let bus = name_at(line, places.bus)?;
    let speed = speed_at(line, places.speed)?;
    let label = label_at(line, places.label)?;
    let equipment = equipment_at(line, places.equipment)?;
    let format = format_at(line, places.format)?;
    let min_us = time_at(line, places.min, commas, 1)?;
    let max_us = time_at(line, places.max, commas, 1)?;
    let sdi = input_sdi_at(line, places.sdi)?;
    let jitter_us = jitter_at(line, places.jitter, commas)?;
    let police = police_at(line, places.police)?;
    let queue = queue_if_any_at(line, places.queue)?;
    let router = name_if_any_at(line, places.router)?;
    let task = task_at(line, places.steps, places.within, commas)?;
    let name = name_if_any_at(line, places.name)?;
    if min_us > max_us {
        return Err(CellFault::OutOfRange);
    }
    Ok(InputRow {
        row: number,
        bus,
        speed,
        label,
        equipment,
        format,
        min_us,
        max_us,
        sdi,
        jitter_us,
        police,
        queue,
        router,
        task,
        name,
    })
}

/// Adds the row of a record, or nothing where it is passed over; false where one of its cells is not read.
fn add_input(
    rows: &mut Vec<InputRow>,
    number: u32,
    line: &ByteRecord,
    columns: usize,
    places: &InputPlaces,
    commas: bool,
) -> Result<bool, AllocError>
    ensures { IfOk result (λ well. well ≡ true → AddsInput commas columns places.now number (fields_of line.now) rows.old.items rows.new.items) }
{
    if is_passed(line) {
        return Ok(true);
    }
    if !are_empty_from(line, columns) {
        return Ok(false);
    }
    match input_row(number, line, places, commas) {
        Ok(row) => {
            let queue: Option<u32> = row.queue;
            let task: Option<Task> = row.task;
            rows.push(InputRow { queue, task, ..row })?;
            Ok(true)
        }
        Err(_) => Ok(false),
    }
}

/// The rows of the records behind the header; `None` where a cell is not read.
fn input_rows(
    alloc: Global,
    records: &[ByteRecord],
    columns: usize,
    places: &InputPlaces,
    commas: bool,
) -> Result<Option<Vec<InputRow>>, AllocError>
    ensures { IfOk result (λ found. IfSome found (λ rows. InputsBefore commas columns places.now (map fields_of records.now) (length records.now) rows.items)) }
{
    let mut rows: Vec<InputRow> = Vec::new(alloc);
    for i in 0..records.len() {
        let Ok(number) = u32::try_from(i + 2) else {
            return Err(AllocError);
        };
        if !add_input(&mut rows, number, &records[i], columns, places, commas)? {
            return Ok(None);
        }
    }
    Ok(Some(rows))
}

/// The rows of the records of a sheet, or its faults.
fn input_sheet(alloc: Global, records: &[ByteRecord], commas: bool) -> Result<Inputs, SheetError>
    ensures { IfOk result (λ inputs. SayInputs commas (map fields_of records.now) inputs.rows.items) }
{
    let Some((header, lines)) = records.split_first() else {
        return Err(header_fault(alloc, Sheet::Inputs));
    };
    let Heading { read, unread } = titles_of(alloc, Sheet::Inputs, header)?;
    let Ok(places) = input_places(alloc, header) else {
        return Err(SheetError::Memory);
    };
    match input_rows(alloc, lines, header.len(), &places, commas) {
        Ok(Some(rows)) => Ok(Inputs {
            rows,
            unread,
            min_unit: places.min.unit,
        }),
        Ok(None) => Err(row_faults(alloc, Sheet::Inputs, lines, header.len(), &read, commas)),
        Err(_) => Err(SheetError::Memory),
    }
}

/// The rows of the text of the inputs.
///
/// # Errors
/// The faults of the text, its header and its cells, or [`SheetError::Memory`].
pub fn read_inputs(alloc: Global, text: &[u8]) -> Result<Inputs, SheetError>
    ensures rows { IfOk result (λ inputs. AreInputs text.now inputs.rows.items) }
{
    let records = sheet_records(alloc, Sheet::Inputs, text)?;
    let commas = separator(text) == b',';
    input_sheet(alloc, &records, commas)
}
