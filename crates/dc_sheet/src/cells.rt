//! The cells of a record under the titles of a sheet, and what each is read as.

ghost use Rattle.std.specs.Prelude.{◌≡◌, ◌==◌, ◌||◌, drop};
ghost use Rattle.std.specs.List.{list_all};
ghost use Rattle.csv.specs.Records.{fields_of};
ghost use Rattle.dc_cell.specs.Words.{speed_of, format_of, police_of, input_sdi_of, output_sdi_of};
ghost use Rattle.dc_cell.specs.Digits.{label_of, equipment_of};
ghost use Rattle.dc_cell.specs.Names.{name_cell_of, name_if_any_of};
ghost use Rattle.dc_sheet.specs.Places.{cell_at};
ghost use Rattle.dc_sheet.specs.Sheets.{time_at as time_at_of, jitter_at as jitter_at_of, time_if_any_at as time_if_any_at_of, queue_if_any, format_if_any, steps_or_one, task_at as task_at_of};

use crate::places::{TimePlace, cell};
use csv::ByteRecord;
use dc_cell::{
    CellFault, Task, equipment_cell, format_cell, input_sdi_cell, label_cell, name_cell,
    name_if_any_cell, output_sdi_cell, police_cell, queue_cell, speed_cell, steps_cell, time_cell,
};
use dc_dict::Equipment;
use dc_document::{Name, Speed};
use dc_word::{Format, Label, Sdi};

/// The name at a place.
pub(crate) fn name_at(line: &ByteRecord, place: Option<usize>) -> Result<Name, CellFault>
    ensures { result ≡ name_cell_of (cell_at (fields_of line.now) place) }
{
    name_cell(cell(line, place))
}

/// The name at a place; `None` where the cell is empty.
pub(crate) fn name_if_any_at(
    line: &ByteRecord,
    place: Option<usize>,
) -> Result<Option<Name>, CellFault>
    ensures { result ≡ name_if_any_of (cell_at (fields_of line.now) place) }
{
    name_if_any_cell(cell(line, place))
}

/// The speed at a place.
pub(crate) fn speed_at(line: &ByteRecord, place: Option<usize>) -> Result<Speed, CellFault>
    ensures { result ≡ speed_of (cell_at (fields_of line.now) place) }
{
    speed_cell(cell(line, place))
}

/// The label at a place.
pub(crate) fn label_at(line: &ByteRecord, place: Option<usize>) -> Result<Label, CellFault>
    ensures { result ≡ label_of (cell_at (fields_of line.now) place) }
{
    label_cell(cell(line, place))
}

/// The equipment code at a place.
pub(crate) fn equipment_at(line: &ByteRecord, place: Option<usize>) -> Result<Equipment, CellFault>
    ensures { result ≡ equipment_of (cell_at (fields_of line.now) place) }
{
    equipment_cell(cell(line, place))
}

/// The format at a place.
pub(crate) fn format_at(line: &ByteRecord, place: Option<usize>) -> Result<Format, CellFault>
    ensures { result ≡ format_of (cell_at (fields_of line.now) place) }
{
    format_cell(cell(line, place))
}

/// The format at a place; `None` where the cell is empty.
pub(crate) fn format_if_any_at(
    line: &ByteRecord,
    place: Option<usize>,
) -> Result<Option<Format>, CellFault>
    ensures { result ≡ format_if_any (cell_at (fields_of line.now) place) }
{
    let text = cell(line, place);
    if text.is_empty() {
        return Ok(None);
    }
    match format_cell(text) {
        Ok(format) => Ok(Some(format)),
        Err(fault) => Err(fault),
    }
}

/// The SDI of an input at a place.
pub(crate) fn input_sdi_at(
    line: &ByteRecord,
    place: Option<usize>,
) -> Result<Option<Sdi>, CellFault>
    ensures { result ≡ input_sdi_of (cell_at (fields_of line.now) place) }
{
    input_sdi_cell(cell(line, place))
}

/// The SDI of an output at a place.
pub(crate) fn output_sdi_at(line: &ByteRecord, place: Option<usize>) -> Result<Sdi, CellFault>
    ensures { result ≡ output_sdi_of (cell_at (fields_of line.now) place) }
{
    output_sdi_cell(cell(line, place))
}

/// Whether the cell at a place says that a bus refuses early words.
pub(crate) fn police_at(line: &ByteRecord, place: Option<usize>) -> Result<bool, CellFault>
    ensures { result ≡ police_of (cell_at (fields_of line.now) place) }
{
    police_cell(cell(line, place))
}

/// The length of a queue at a place; `None` where the cell is empty.
pub(crate) fn queue_if_any_at(
    line: &ByteRecord,
    place: Option<usize>,
) -> Result<Option<u32>, CellFault>
    ensures { result ≡ queue_if_any (cell_at (fields_of line.now) place) }
{
    let text = cell(line, place);
    if text.is_empty() {
        return Ok(None);
    }
    match queue_cell(text) {
        Ok(queue) => Ok(Some(queue)),
        Err(fault) => Err(fault),
    }
}

/// The microseconds at the place of a time, from `least` on.
pub(crate) fn time_at(
    line: &ByteRecord,
    time: TimePlace,
    commas: bool,
    least: u32,
) -> Result<u32, CellFault>
    ensures { result ≡ time_at_of commas least (fields_of line.now) time }
{
    time_cell(cell(line, time.place), time.unit, commas, least)
}

/// The jitter at the place of a time, 0 where the cell is empty.
pub(crate) fn jitter_at(line: &ByteRecord, time: TimePlace, commas: bool) -> Result<u32, CellFault>
    ensures { result ≡ jitter_at_of commas (fields_of line.now) time }
{
    let text = cell(line, time.place);
    if text.is_empty() {
        return Ok(0);
    }
    time_cell(text, time.unit, commas, 0)
}

/// The microseconds at the place of a time; `None` where the cell is empty.
pub(crate) fn time_if_any_at(
    line: &ByteRecord,
    time: TimePlace,
    commas: bool,
) -> Result<Option<u32>, CellFault>
    ensures { result ≡ time_if_any_at_of commas (fields_of line.now) time }
{
    let text = cell(line, time.place);
    if text.is_empty() {
        return Ok(None);
    }
    match time_cell(text, time.unit, commas, 1) {
        Ok(us) => Ok(Some(us)),
        Err(fault) => Err(fault),
    }
}

/// The number of steps at a place, 1 where the cell is empty.
fn steps_or_one_at(line: &ByteRecord, place: Option<usize>) -> Result<u32, CellFault>
    ensures { result ≡ steps_or_one (cell_at (fields_of line.now) place) }
{
    let text = cell(line, place);
    if text.is_empty() {
        return Ok(1);
    }
    steps_cell(text)
}

/// What a task surely does, where the cells at these places say it; `None` where both are empty.
pub(crate) fn task_at(
    line: &ByteRecord,
    steps: Option<usize>,
    within: TimePlace,
    commas: bool,
) -> Result<Option<Task>, CellFault>
    ensures { result ≡ task_at_of commas (fields_of line.now) steps within }
{
    if cell(line, within.place).is_empty() {
        if cell(line, steps).is_empty() {
            return Ok(None);
        }
        return Err(CellFault::NoWithin);
    }
    match time_at(line, within, commas, 1) {
        Ok(within_us) => match steps_or_one_at(line, steps) {
            Ok(steps) => Ok(Some(Task { steps, within_us })),
            Err(fault) => Err(fault),
        },
        Err(fault) => Err(fault),
    }
}
