//! The sheet of the outputs.

ghost use Rattle.std.specs.Prelude.{◌≡◌, ◌==◌, [], ◌∷◌, ◌++◌, IfOk, IfSome, OnOk, Some, Bool, List, false, get_or, length, map, true};
ghost use Rattle.csv.specs.Records.{fields_of};
ghost use Rattle.dc_sheet.specs.Sheets.{AddsOutput, AddsSources, AreOutputs, AreSources, IsOutputRow, OutputsBefore, SayOutputs, sources_before};

use crate::cells::{
    equipment_at, format_if_any_at, label_at, name_at, name_if_any_at, output_sdi_at, speed_at,
    task_at, time_at, time_if_any_at,
};
use crate::collect::{Heading, header_fault, row_faults, titles_of};
use crate::fault::{Sheet, SheetError};
use crate::places::{OutputPlaces, cell, is_titled, output_places};
use crate::sheet::{are_empty_from, is_passed, sheet_records};
use crate::text::separator;
use csv::ByteRecord;
use dc_cell::{CellFault, Column, OutputRow, Outputs, push_names};
use dc_document::Name;
use std::alloc::{AllocError, Global};

/// Where the columns of the outputs stand, and which of its titles are of sources.
#[derive(Clone, Copy)]
struct OutputTitles<'a> {
    columns: usize,
    places: &'a OutputPlaces,
    flags: &'a [bool],
    commas: bool,
}

/// Which titles are of sources.
fn source_flags(alloc: Global, header: &ByteRecord) -> Result<Vec<bool>, AllocError>
    ensures { IfOk result (λ flags. AreSources (fields_of header.now) flags.items) }
{
    let mut flags: Vec<bool> = Vec::new(alloc);
    for place in 0..header.len() {
        let flag = is_titled(alloc, header, Column::Sources, place)?;
        flags.push(flag)?;
    }
    Ok(flags)
}

/// Whether the title at a place is of sources.
fn is_flagged(flags: &[bool], place: usize) -> bool
    ensures { result ≡ get_or flags.now place false }
{
    place < flags.len() && flags[place]
}

/// Adds the names of a cell, where it stands under a title of sources; false where a part of it is no name.
fn add_sources(
    alloc: Global,
    names: &mut Vec<Name>,
    line: &ByteRecord,
    flags: &[bool],
    place: usize,
) -> Result<bool, AllocError>
    ensures { IfOk result (λ well. well ≡ true → AddsSources flags.now (fields_of line.now) place names.old.items names.new.items) }
{
    if !is_flagged(flags, place) {
        return Ok(true);
    }
    push_names(alloc, cell(line, Some(place)), names)
}

/// The names of the cells of a record that stand under a title of sources; `None` where a part of them is no name.
fn sources_of(
    alloc: Global,
    line: &ByteRecord,
    flags: &[bool],
) -> Result<Option<Vec<Name>>, AllocError>
    ensures { IfOk result (λ found. IfSome found (λ names. sources_before flags.now (fields_of line.now) (length (fields_of line.now)) ≡ Some names.items)) }
{
    let mut names: Vec<Name> = Vec::new(alloc);
    for place in 0..line.len() {
        if !add_sources(alloc, &mut names, line, flags, place)? {
            return Ok(None);
        }
    }
    Ok(Some(names))
}

/// The row that a record says with these sources, or why the first of its cells that is not read is not.
fn output_row(
    number: u32,
    line: &ByteRecord,
    places: &OutputPlaces,
    commas: bool,
    sources: Vec<Name>,
) -> Result<OutputRow, CellFault>
    ensures { IfOk result (λ row. (flags : List Bool) → (sources_before flags (fields_of line.now) (length (fields_of line.now)) ≡ Some sources.items) → IsOutputRow commas number flags places.now (fields_of line.now) row) }
{
    let output = name_at(line, places.output)?;
    let speed = speed_at(line, places.speed)?;
    let label = label_at(line, places.label)?;
    let equipment = equipment_at(line, places.equipment)?;
    let format = format_if_any_at(line, places.format)?;
    let min_us = time_at(line, places.min, commas, 1)?;
    let max_us = time_at(line, places.max, commas, 1)?;
    let sdi = output_sdi_at(line, places.sdi)?;
    let name = name_if_any_at(line, places.name)?;
    let max_age_us = time_if_any_at(line, places.max_age, commas)?;
    let timeout_us = time_if_any_at(line, places.timeout, commas)?;
    let task = task_at(line, places.steps, places.within, commas)?;
    if min_us > max_us {
        return Err(CellFault::OutOfRange);
    }
    Ok(OutputRow {
        row: number,
        output,
        speed,
        label,
        equipment,
        format,
        min_us,
        max_us,
        sdi,
        name,
        sources,
        max_age_us,
        timeout_us,
        task,
    })
}

/// Adds a row behind the others.
fn push_output(rows: &mut Vec<OutputRow>, row: OutputRow) -> Result<(), AllocError>
    ensures { OnOk result (rows.new.items ≡ rows.old.items ++ row ∷ []) }
{
    match rows.push(row) {
        Ok(()) => Ok(()),
        Err(_) => Err(AllocError),
    }
}

/// Adds the row of a record, or nothing where it is passed over; false where one of its cells is not read.
fn add_output(
    alloc: Global,
    rows: &mut Vec<OutputRow>,
    number: u32,
    line: &ByteRecord,
    titles: OutputTitles<'_>,
) -> Result<bool, AllocError>
    ensures { IfOk result (λ well. well ≡ true → AddsOutput titles.entry.commas titles.entry.columns titles.entry.flags.now titles.entry.places.now number (fields_of line.now) rows.old.items rows.new.items) }
{
    if is_passed(line) {
        return Ok(true);
    }
    if !are_empty_from(line, titles.columns) {
        return Ok(false);
    }
    let Some(sources) = sources_of(alloc, line, titles.flags)? else {
        return Ok(false);
    };
    match output_row(number, line, titles.places, titles.commas, sources) {
        Ok(row) => {
            push_output(rows, row)?;
            Ok(true)
        }
        Err(_) => Ok(false),
    }
}

/// The rows of the records behind the header; `None` where a cell is not read.
fn output_rows(
    alloc: Global,
    records: &[ByteRecord],
    titles: OutputTitles<'_>,
) -> Result<Option<Vec<OutputRow>>, AllocError>
    ensures { IfOk result (λ found. IfSome found (λ rows. OutputsBefore titles.entry.commas titles.entry.columns titles.entry.flags.now titles.entry.places.now (map fields_of records.now) (length records.now) rows.items)) }
{
    let mut rows: Vec<OutputRow> = Vec::new(alloc);
    for i in 0..records.len() {
        let Ok(number) = u32::try_from(i + 2) else {
            return Err(AllocError);
        };
        if !add_output(alloc, &mut rows, number, &records[i], titles)? {
            return Ok(None);
        }
    }
    Ok(Some(rows))
}

/// The rows of the records of a sheet, or its faults.
fn output_sheet(alloc: Global, records: &[ByteRecord], commas: bool) -> Result<Outputs, SheetError>
    ensures { IfOk result (λ outputs. SayOutputs commas (map fields_of records.now) outputs.rows.items) }
{
    let Some((header, lines)) = records.split_first() else {
        return Err(header_fault(alloc, Sheet::Outputs));
    };
    let Heading { read, unread } = titles_of(alloc, Sheet::Outputs, header)?;
    let Ok(places) = output_places(alloc, header) else {
        return Err(SheetError::Memory);
    };
    let Ok(flags) = source_flags(alloc, header) else {
        return Err(SheetError::Memory);
    };
    let titles = OutputTitles {
        columns: header.len(),
        places: &places,
        flags: &flags,
        commas,
    };
    match output_rows(alloc, lines, titles) {
        Ok(Some(rows)) => Ok(Outputs {
            rows,
            unread,
            max_unit: places.max.unit,
            max_age_unit: places.max_age.unit,
            timeout_unit: places.timeout.unit,
        }),
        Ok(None) => Err(row_faults(alloc, Sheet::Outputs, lines, header.len(), &read, commas)),
        Err(_) => Err(SheetError::Memory),
    }
}

/// The rows of the text of the outputs.
///
/// # Errors
/// The faults of the text, its header and its cells, or [`SheetError::Memory`].
pub fn read_outputs(alloc: Global, text: &[u8]) -> Result<Outputs, SheetError>
    ensures rows { IfOk result (λ outputs. AreOutputs text.now outputs.rows.items) }
{
    let records = sheet_records(alloc, Sheet::Outputs, text)?;
    let commas = separator(text) == b',';
    output_sheet(alloc, &records, commas)
}
