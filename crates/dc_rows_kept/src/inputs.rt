//! The rows of the inputs that have their streams.
ghost use Rattle.std.specs.Prelude.{MatchOption, not, ◌≡◌, ◌&&◌, ◌||◌, nat_le, slice_get};
ghost use Rattle.std.specs.Str.{bytes_eq};
ghost use Rattle.dc_dict.specs.Rows.{row_of};
ghost use Rattle.std.specs.List.{All, list_all, list_any, position_from};
ghost use Rattle.dc_rows_kept.specs.KeepsRows.{HasStream, IsFirstWithout};
ghost use Rattle.dc_rows_kept.specs.Tests.{is_bus_of, is_stream_of, keeps_input, lets_come, passes_if_some, router_asks_no_more, routers_ask_no_more, some_passes, visits};

use crate::same::{asks_no_more, is_at_most, is_called, parameter_of};
use dc_cell::{InputRow, Inputs, Task};
use dc_dict::Parameter;
use dc_document::{BusPart, Name, Parts, RouterPart, StreamPart};

/// Whether a stream is that of a row, on its bus.
fn is_stream_of(row: &InputRow, stream: &StreamPart, bus: &BusPart) -> bool
    ensures { result ≡ is_stream_of row.now stream.now bus.now }
{
    bus.name == row.bus
        && stream.label == row.label
        && stream.sdi == row.sdi
        && is_called(&stream.name, &row.name)
}

/// Whether a bus is as a row says.
fn is_bus_of(row: &InputRow, bus: &BusPart) -> bool
    ensures { result ≡ is_bus_of row.now bus.now }
{
    bus.speed == row.speed && (!row.police || bus.police) && is_at_most(bus.queue, row.queue)
}

/// Whether a stream of this parameter lets all words come that a row lets come.
fn lets_come(row: &InputRow, stream: &StreamPart, parameter: &Parameter) -> bool
    ensures { result ≡ lets_come row.now stream.now parameter.now }
{
    stream.equipment == row.equipment
        && parameter.format == row.format
        && parameter.min_us <= row.min_us
        && row.max_us <= parameter.max_us
        && row.jitter_us <= stream.jitter_us
}

/// Whether the bus of a stream is that of a row, and the stream the row's on it.
fn is_on_bus(parts: &Parts, row: &InputRow, stream: &StreamPart) -> bool
    ensures { result ≡ some_passes (λ b. is_stream_of row.now stream.now b && is_bus_of row.now b) (slice_get parts.now.buses stream.now.bus) }
{
    match parts.buses().get(stream.bus) {
        Some(bus) => is_stream_of(row, stream, bus) && is_bus_of(row, bus),
        None => false,
    }
}

/// Whether the parameter of a stream is there, and lets all words come.
fn is_let_come(parts: &Parts, row: &InputRow, stream: &StreamPart) -> bool
    ensures { result ≡ some_passes (lets_come row.now stream.now) (row_of parts.now.parameters stream.now.label stream.now.equipment) }
{
    match parameter_of(parts, stream.label, stream.equipment) {
        Some(parameter) => lets_come(row, stream, parameter),
        None => false,
    }
}

/// Whether a router visits a bus of this name.
fn visits(names: &[Name], bus: &Name) -> bool
    ensures { result ≡ list_any (λ name. bytes_eq name bus.now) names.now }
{
    for name in names {
        if name == bus {
            return true;
        }
    }
    false
}

/// Whether a router does not visit a bus of this name, or asks no more of its task than this.
fn router_asks_no_more(tick_us: u32, bus: &Name, task: Task, router: &RouterPart) -> bool
    ensures { result ≡ router_asks_no_more tick_us bus.now task router.now }
{
    !visits(&router.visits, bus) || asks_no_more(tick_us, router.steps, router.within, task)
}

/// Whether each of these routers that visits a bus of this name asks no more of its task than this.
fn all_ask_no_more(tick_us: u32, bus: &Name, task: Task, routers: &[RouterPart]) -> bool
    ensures { result ≡ list_all (router_asks_no_more tick_us bus.now task) routers.now }
{
    for router in routers {
        if !router_asks_no_more(tick_us, bus, task, router) {
            return false;
        }
    }
    true
}

/// Whether the routers of a row's bus ask no more of their tasks than the row says.
fn asks_of_routers(parts: &Parts, row: &InputRow) -> bool
    ensures { result ≡ passes_if_some (routers_ask_no_more parts.now row.now.bus) row.now.task }
{
    match row.task {
        Some(task) => all_ask_no_more(parts.tick_us(), &row.bus, task, parts.routers()),
        None => true,
    }
}

/// Whether a stream keeps a row.
fn keeps_input(parts: &Parts, row: &InputRow, stream: &StreamPart) -> bool
    ensures { result ≡ keeps_input parts.now row.now stream.now }
{
    is_on_bus(parts, row, stream) && is_let_come(parts, row, stream) && asks_of_routers(parts, row)
}

/// Whether a row has one of these as its stream.
fn has_stream(parts: &Parts, streams: &[StreamPart], row: &InputRow) -> bool
    ensures { result ≡ list_any (keeps_input parts.now row.now) streams.now }
{
    for stream in streams {
        if keeps_input(parts, row, stream) {
            return true;
        }
    }
    false
}

/// The place of the first of these rows that has none of these as its stream.
fn place_without(parts: &Parts, streams: &[StreamPart], rows: &[InputRow]) -> Option<usize>
    ensures { result ≡ position_from (λ row. not (list_any (keeps_input parts.now row) streams.now)) 0 rows.now }
{
    for (place, row) in rows.iter().enumerate() {
        if !has_stream(parts, streams, row) {
            return Some(place);
        }
    }
    None
}

/// The first row that has no stream.
pub(crate) fn first_unkept_input(parts: &Parts, sheet: &Inputs) -> Option<usize>
    ensures { MatchOption result (All (HasStream parts.now) sheet.now.rows.items) (λ k. IsFirstWithout (HasStream parts.now) sheet.now.rows.items k) }
{
    place_without(parts, parts.streams(), &sheet.rows)
}
