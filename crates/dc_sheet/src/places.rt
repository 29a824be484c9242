//! Where the columns of a sheet stand.

ghost use Rattle.std.specs.Prelude.{◌≡◌, IfOk};
ghost use Rattle.csv.specs.Records.{fields_of};
ghost use Rattle.dc_cell.specs.Titles.{key_of};
ghost use Rattle.dc_sheet.specs.Places.{cell_at, is_titled as is_titled_of, IsPlace, IsTimePlace, AreInputPlaces, AreOutputPlaces};

use csv::ByteRecord;
use dc_cell::{Column, TimeUnit, is_title, key_of, unit_of};
use std::alloc::{AllocError, Global};

/// The column of a time.
#[derive(Clone, Copy)]
pub(crate) struct TimePlace {
    /// Where it stands.
    pub(crate) place: Option<usize>,
    /// The unit of its title.
    pub(crate) unit: TimeUnit,
}

/// Where the columns of the inputs stand.
#[derive(Clone, Copy)]
pub(crate) struct InputPlaces {
    pub(crate) bus: Option<usize>,
    pub(crate) speed: Option<usize>,
    pub(crate) label: Option<usize>,
    pub(crate) equipment: Option<usize>,
    pub(crate) format: Option<usize>,
    pub(crate) min: TimePlace,
    pub(crate) max: TimePlace,
    pub(crate) sdi: Option<usize>,
    pub(crate) jitter: TimePlace,
    pub(crate) police: Option<usize>,
    pub(crate) queue: Option<usize>,
    pub(crate) router: Option<usize>,
    pub(crate) steps: Option<usize>,
    pub(crate) within: TimePlace,
    pub(crate) name: Option<usize>,
}

/// Where the columns of the outputs stand, but those of the sources.
#[derive(Clone, Copy)]
pub(crate) struct OutputPlaces {
    pub(crate) output: Option<usize>,
    pub(crate) speed: Option<usize>,
    pub(crate) label: Option<usize>,
    pub(crate) equipment: Option<usize>,
    pub(crate) format: Option<usize>,
    pub(crate) min: TimePlace,
    pub(crate) max: TimePlace,
    pub(crate) sdi: Option<usize>,
    pub(crate) name: Option<usize>,
    pub(crate) max_age: TimePlace,
    pub(crate) timeout: TimePlace,
    pub(crate) steps: Option<usize>,
    pub(crate) within: TimePlace,
}

/// The cell at a place, empty where there is none.
pub(crate) fn cell(line: &ByteRecord, place: Option<usize>) -> &[u8]
    ensures { result.now ≡ cell_at (fields_of line.now) place }
{
    let Some(place) = place else {
        return b"";
    };
    match line.get(place) {
        Some(cell) => cell,
        None => b"",
    }
}

/// The key of the title at a place.
fn key_at(alloc: Global, header: &ByteRecord, place: Option<usize>) -> Result<Vec<u8>, AllocError>
    ensures { IfOk result (λ key. key.items ≡ key_of (cell_at (fields_of header.now) place)) }
{
    key_of(alloc, cell(header, place))
}

/// Whether the title at a place is one of this column.
pub(crate) fn is_titled(
    alloc: Global,
    header: &ByteRecord,
    column: Column,
    place: usize,
) -> Result<bool, AllocError>
    ensures { IfOk result (λ titled. titled ≡ is_titled_of column (fields_of header.now) place) }
{
    let key = key_at(alloc, header, Some(place))?;
    Ok(is_title(column, &key))
}

/// The first title of a column.
fn place_of(alloc: Global, header: &ByteRecord, column: Column) -> Result<Option<usize>, AllocError>
    ensures { IfOk result (λ place. IsPlace column (fields_of header.now) place) }
{
    for place in 0..header.len() {
        if is_titled(alloc, header, column, place)? {
            return Ok(Some(place));
        }
    }
    Ok(None)
}

/// The first title of a column of times, with its unit.
fn time_place(alloc: Global, header: &ByteRecord, column: Column) -> Result<TimePlace, AllocError>
    ensures { IfOk result (λ t. IsTimePlace column (fields_of header.now) t) }
{
    let place = place_of(alloc, header, column)?;
    let key = key_at(alloc, header, place)?;
    let unit = unit_of(&key);
    Ok(TimePlace { place, unit })
}

/// Where the columns of the inputs stand.
pub(crate) fn input_places(alloc: Global, header: &ByteRecord) -> Result<InputPlaces, AllocError>
    ensures { IfOk result (λ p. AreInputPlaces (fields_of header.now) p) }
{
    let bus = place_of(alloc, header, Column::Bus)?;
    let speed = place_of(alloc, header, Column::Speed)?;
    let label = place_of(alloc, header, Column::Label)?;
    let equipment = place_of(alloc, header, Column::Equipment)?;
    let format = place_of(alloc, header, Column::Format)?;
    let min = time_place(alloc, header, Column::Min)?;
    let max = time_place(alloc, header, Column::Max)?;
    let sdi = place_of(alloc, header, Column::Sdi)?;
    let jitter = time_place(alloc, header, Column::Jitter)?;
    let police = place_of(alloc, header, Column::Police)?;
    let queue = place_of(alloc, header, Column::Queue)?;
    let router = place_of(alloc, header, Column::Router)?;
    let steps = place_of(alloc, header, Column::Steps)?;
    let within = time_place(alloc, header, Column::Within)?;
    let name = place_of(alloc, header, Column::Name)?;
    Ok(InputPlaces {
        bus,
        speed,
        label,
        equipment,
        format,
        min,
        max,
        sdi,
        jitter,
        police,
        queue,
        router,
        steps,
        within,
        name,
    })
}

/// Where the columns of the outputs stand.
pub(crate) fn output_places(alloc: Global, header: &ByteRecord) -> Result<OutputPlaces, AllocError>
    ensures { IfOk result (λ p. AreOutputPlaces (fields_of header.now) p) }
{
    let output = place_of(alloc, header, Column::Output)?;
    let speed = place_of(alloc, header, Column::Speed)?;
    let label = place_of(alloc, header, Column::Label)?;
    let equipment = place_of(alloc, header, Column::Equipment)?;
    let format = place_of(alloc, header, Column::Format)?;
    let min = time_place(alloc, header, Column::Min)?;
    let max = time_place(alloc, header, Column::Max)?;
    let sdi = place_of(alloc, header, Column::Sdi)?;
    let name = place_of(alloc, header, Column::Name)?;
    let max_age = time_place(alloc, header, Column::MaxAge)?;
    let timeout = time_place(alloc, header, Column::Timeout)?;
    let steps = place_of(alloc, header, Column::Steps)?;
    let within = time_place(alloc, header, Column::Within)?;
    Ok(OutputPlaces {
        output,
        speed,
        label,
        equipment,
        format,
        min,
        max,
        sdi,
        name,
        max_age,
        timeout,
        steps,
        within,
    })
}
