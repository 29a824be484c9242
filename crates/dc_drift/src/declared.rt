//! What a document declares in its own microseconds, row by row.

ghost use Rattle.std.specs.Prelude.{◌≡◌, ◌<◌, ◌^◌, length, slice_get};
ghost use Rattle.std.specs.Option.{option_map_or};
ghost use Rattle.dc_dict.specs.Rows.{row_of};
ghost use Rattle.dc_in_time.specs.Documents.{intervals_of, stream_parameter, label_parameter};
ghost use Rattle.dc_tables.specs.TableRows.{bus_row};

use crate::intervals::{SentIntervals, SourceIntervals};
use dc_build::WrittenTables;
use dc_dict::{Equipment, Parameter};
use dc_document::Parts;
use dc_tables::Tables;
use dc_word::Label;

/// The least time between two words on a wire, in microseconds.
pub fn declared_spacing(tables: &Tables, bus: usize) -> u64
    requires { bus < length tables.now.buses }
    ensures { result ≡ (bus_row tables.now bus).spacing }
{
    u64::from(tables.bus(bus).spacing)
}

/// The `min_us` and `max_us` of a stream's parameter and its own `jitter_us`, each 0 where the document has none. The
/// parameter is searched through the list of all, at most [`MOST_PARAMETERS`](dc_document::MOST_PARAMETERS).
pub fn declared_source(written: &WrittenTables, stream: usize) -> SourceIntervals
    ensures least { result.least ≡ (intervals_of written.now.parts written.now.tables).stream_least stream }
    ensures most { result.most ≡ (intervals_of written.now.parts written.now.tables).stream_most stream }
    ensures jitter { result.jitter ≡ (intervals_of written.now.parts written.now.tables).stream_jitter stream }
    ensures small { (result.least < 2 ^ 32) × (result.most < 2 ^ 32) × (result.jitter < 2 ^ 32) }
{
    let parts = written.parts();
    let SentIntervals { least, most } = interval_of(stream_parameter(parts, stream));
    SourceIntervals {
        least,
        most,
        jitter: u64::from(jitter_of(parts, stream)),
    }
}

/// The `min_us` and `max_us` of a label's parameter, each 0 where the document has none, searched as that of a stream.
pub fn declared_sent(written: &WrittenTables, label: usize) -> SentIntervals
    ensures least { result.least ≡ (intervals_of written.now.parts written.now.tables).label_least label }
    ensures most { result.most ≡ (intervals_of written.now.parts written.now.tables).label_most label }
{
    interval_of(label_parameter(written.parts(), label))
}

/// The parameter of a stream.
fn stream_parameter(parts: &Parts, stream: usize) -> Option<Parameter>
    ensures { result ≡ stream_parameter parts.now stream }
{
    match parts.streams().get(stream) {
        Some(row) => parameter_of(parts.parameters(), row.label, row.equipment),
        None => None,
    }
}

/// The parameter of a label.
fn label_parameter(parts: &Parts, label: usize) -> Option<Parameter>
    ensures { result ≡ label_parameter parts.now label }
{
    match parts.labels().get(label) {
        Some(row) => parameter_of(parts.parameters(), row.label, row.equipment),
        None => None,
    }
}

/// The first parameter of this label and equipment code.
fn parameter_of(parameters: &[Parameter], label: Label, equipment: Equipment) -> Option<Parameter>
    ensures { result ≡ row_of parameters.now label equipment }
{
    for row in parameters {
        if label == row.label && equipment == row.equipment {
            return Some(*row);
        }
    }
    None
}

/// The interval of a parameter.
fn interval_of(parameter: Option<Parameter>) -> SentIntervals
    ensures least { result.least ≡ option_map_or (λ p. p.min_us) parameter 0 }
    ensures most { result.most ≡ option_map_or (λ p. p.max_us) parameter 0 }
    ensures small { (result.least < 2 ^ 32) × (result.most < 2 ^ 32) }
{
    match parameter {
        Some(row) => SentIntervals {
            least: u64::from(row.min_us),
            most: u64::from(row.max_us),
        },
        None => SentIntervals { least: 0, most: 0 },
    }
}

/// The jitter of a stream.
fn jitter_of(parts: &Parts, stream: usize) -> u32
    ensures { result ≡ option_map_or (λ row. row.jitter_us) (slice_get parts.now.streams stream) 0 }
{
    match parts.streams().get(stream) {
        Some(row) => row.jitter_us,
        None => 0,
    }
}
