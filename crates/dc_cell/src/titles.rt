//! Titles of columns.

ghost use Rattle.std.specs.Prelude.{◌≡◌, ◌||◌, [], IfOk};
ghost use Rattle.dc_cell.specs.Titles.{is_kept as is_kept_of, is_parted as is_parted_of, key_of as key_of_title, ends_in as ends_in_of, unit_of as unit_of_key, is_source_part as is_source_part_of, is_title as is_title_of};
ghost use Rattle.dc_cell.specs.Words.{is_word as is_word_of};
ghost use Rattle.dc_cell.specs.declared.titles.Column.TheVariants as col;

use crate::times::TimeUnit;
use crate::words::is_word;
use std::alloc::{AllocError, Global};

/// A column that is read.
#[derive(Clone, Copy, Debug, PartialEq, Eq)]
pub enum Column {
    /// The bus of an input.
    Bus,
    /// The output of an output.
    Output,
    /// The speed of either.
    Speed,
    /// The label.
    Label,
    /// The equipment code.
    Equipment,
    /// The format of the data.
    Format,
    /// The least interval.
    Min,
    /// The greatest interval.
    Max,
    /// The SDI.
    Sdi,
    /// The jitter of an input.
    Jitter,
    /// Whether the bus of an input refuses early words.
    Police,
    /// The queue of an input's bus.
    Queue,
    /// The router of an input's bus.
    Router,
    /// The name of a stream or a label.
    Name,
    /// The sources of an output's label, in one column or several.
    Sources,
    /// How old its data may be.
    MaxAge,
    /// How long a silent source counts as live.
    Timeout,
    /// How many steps the task of a bus or an output makes.
    Steps,
    /// In which time it makes them.
    Within,
}

/// The columns of the inputs, those that are wanted first.
pub static INPUT_COLUMNS: [Column; 15] = [
    Column::Bus,
    Column::Speed,
    Column::Label,
    Column::Equipment,
    Column::Format,
    Column::Min,
    Column::Max,
    Column::Sdi,
    Column::Jitter,
    Column::Name,
    Column::Queue,
    Column::Police,
    Column::Router,
    Column::Steps,
    Column::Within,
];

/// The columns of the outputs, those that are wanted first.
pub static OUTPUT_COLUMNS: [Column; 14] = [
    Column::Output,
    Column::Speed,
    Column::Label,
    Column::Equipment,
    Column::Sources,
    Column::Min,
    Column::Max,
    Column::Sdi,
    Column::MaxAge,
    Column::Timeout,
    Column::Name,
    Column::Format,
    Column::Steps,
    Column::Within,
];

/// Whether a byte of a title is a letter or a digit.
fn is_kept(byte: u8) -> bool
    ensures { result ≡ is_kept_of byte }
{
    matches!(byte, b'A'..=b'Z' | b'a'..=b'z' | b'0'..=b'9')
}

/// Whether a key needs no `_` at its end.
fn is_parted(key: &[u8]) -> bool
    ensures { result ≡ is_parted_of key.now }
{
    key.is_empty() || key[key.len() - 1] == b'_'
}

/// What a title says, in small letters and digits, with one `_` for each run of other bytes between them.
pub fn key_of(alloc: Global, title: &[u8]) -> Result<Vec<u8>, AllocError>
    ensures { IfOk result (λ key. key.items ≡ key_of_title title.now) }
{
    let mut key: Vec<u8> = Vec::new(alloc);
    for byte in title {
        if is_kept(*byte) {
            key.push(byte.to_ascii_lowercase())?;
        } else if !is_parted(&key) {
            key.push(b'_')?;
        }
    }
    let len = key.len();
    if len > 0 && key[len - 1] == b'_' {
        key.truncate(len - 1);
    }
    Ok(key)
}

/// Whether a key ends in this text.
fn ends_in(key: &[u8], ending: &[u8]) -> bool
    ensures { result ≡ ends_in_of ending.now key.now }
{
    ending.len() <= key.len() && is_word(&key[key.len() - ending.len()..], ending)
}

/// The unit of a time with this key.
pub fn unit_of(key: &[u8]) -> TimeUnit
    ensures { result ≡ unit_of_key key.now }
{
    if ends_in(key, b"_ms") || ends_in(key, b"_msec") {
        TimeUnit::Milliseconds
    } else {
        TimeUnit::Microseconds
    }
}

/// Whether a key is `source` with a digit 1 to 8, with or without a `_` between them.
fn is_source_part(key: &[u8]) -> bool
    ensures { result ≡ is_source_part_of key.now }
{
    let len = key.len();
    if len < 1 {
        return false;
    }
    let digit = key[len - 1];
    let front = &key[..len - 1];
    digit >= b'1' && digit <= b'8' && (is_word(front, b"source") || is_word(front, b"source_"))
}

/// Whether a key is the name of a time with one of its units, as these four words have it.
fn is_timed(key: &[u8], us: &[u8], usec: &[u8], ms: &[u8], msec: &[u8]) -> bool
    ensures { result ≡ (is_word_of us.now key.now || is_word_of usec.now key.now || is_word_of ms.now key.now || is_word_of msec.now key.now) }
{
    is_word(key, us) || is_word(key, usec) || is_word(key, ms) || is_word(key, msec)
}

/// Whether a key is a title of the column `bus`.
fn is_bus_title(key: &[u8]) -> bool
    ensures { result ≡ is_title_of col.Bus key.now }
{
    is_word(key, b"bus") || is_word(key, b"input_bus") || is_word(key, b"source_bus")
}

/// Whether a key is a title of the column `label`.
fn is_label_title(key: &[u8]) -> bool
    ensures { result ≡ is_title_of col.Label key.now }
{
    is_word(key, b"label") || is_word(key, b"octal_label") || is_word(key, b"label_octal")
}

/// Whether a key is a title of the column `equipment`.
fn is_equipment_title(key: &[u8]) -> bool
    ensures { result ≡ is_title_of col.Equipment key.now }
{
    is_word(key, b"equipment")
        || is_word(key, b"equipment_id")
        || is_word(key, b"equipment_code")
        || is_word(key, b"equip_id")
        || is_word(key, b"eqpt_id")
        || is_word(key, b"eqpt_id_hex")
        || is_word(key, b"eqid")
        || is_word(key, b"eq_id")
}

/// Whether a key is a title of the column `format`.
fn is_format_title(key: &[u8]) -> bool
    ensures { result ≡ is_title_of col.Format key.now }
{
    is_word(key, b"format") || is_word(key, b"type") || is_word(key, b"data_type")
}

/// Whether a key is a title of the column `name`.
fn is_name_title(key: &[u8]) -> bool
    ensures { result ≡ is_title_of col.Name key.now }
{
    is_word(key, b"name") || is_word(key, b"stream_name") || is_word(key, b"label_name")
}

/// Whether a key is a title of the column `sources`.
fn is_sources_title(key: &[u8]) -> bool
    ensures { result ≡ is_title_of col.Sources key.now }
{
    is_word(key, b"sources")
        || is_word(key, b"source")
        || is_word(key, b"streams")
        || is_source_part(key)
}

/// Whether a key is a title of the column `min`.
fn is_min_title(key: &[u8]) -> bool
    ensures { result ≡ is_title_of col.Min key.now }
{
    is_timed(key, b"min_us", b"min_usec", b"min_ms", b"min_msec")
        || is_timed(
            key,
            b"minimum_us",
            b"minimum_usec",
            b"minimum_ms",
            b"minimum_msec",
        )
        || is_timed(
            key,
            b"min_interval_us",
            b"min_interval_usec",
            b"min_interval_ms",
            b"min_interval_msec",
        )
        || is_timed(
            key,
            b"min_transmit_interval_us",
            b"min_transmit_interval_usec",
            b"min_transmit_interval_ms",
            b"min_transmit_interval_msec",
        )
}

/// Whether a key is a title of the column `max`.
fn is_max_title(key: &[u8]) -> bool
    ensures { result ≡ is_title_of col.Max key.now }
{
    is_timed(key, b"max_us", b"max_usec", b"max_ms", b"max_msec")
        || is_timed(
            key,
            b"maximum_us",
            b"maximum_usec",
            b"maximum_ms",
            b"maximum_msec",
        )
        || is_timed(
            key,
            b"max_interval_us",
            b"max_interval_usec",
            b"max_interval_ms",
            b"max_interval_msec",
        )
        || is_timed(
            key,
            b"max_transmit_interval_us",
            b"max_transmit_interval_usec",
            b"max_transmit_interval_ms",
            b"max_transmit_interval_msec",
        )
}

/// Whether a key is a title of the column `jitter`.
fn is_jitter_title(key: &[u8]) -> bool
    ensures { result ≡ is_title_of col.Jitter key.now }
{
    is_timed(
        key,
        b"jitter_us",
        b"jitter_usec",
        b"jitter_ms",
        b"jitter_msec",
    )
}

/// Whether a key is a title of the column `max_age`.
fn is_max_age_title(key: &[u8]) -> bool
    ensures { result ≡ is_title_of col.MaxAge key.now }
{
    is_timed(
        key,
        b"max_age_us",
        b"max_age_usec",
        b"max_age_ms",
        b"max_age_msec",
    ) || is_timed(
        key,
        b"maximum_age_us",
        b"maximum_age_usec",
        b"maximum_age_ms",
        b"maximum_age_msec",
    )
}

/// Whether a key is a title of the column `timeout`.
fn is_timeout_title(key: &[u8]) -> bool
    ensures { result ≡ is_title_of col.Timeout key.now }
{
    is_timed(
        key,
        b"timeout_us",
        b"timeout_usec",
        b"timeout_ms",
        b"timeout_msec",
    )
}

/// Whether a key is a title of the column `within`.
fn is_within_title(key: &[u8]) -> bool
    ensures { result ≡ is_title_of col.Within key.now }
{
    is_timed(
        key,
        b"within_us",
        b"within_usec",
        b"within_ms",
        b"within_msec",
    )
}

/// Whether a key is a title of this column; those of times have their unit.
pub fn is_title(column: Column, key: &[u8]) -> bool
    ensures { result ≡ is_title_of column key.now }
{
    match column {
        Column::Bus => is_bus_title(key),
        Column::Output => is_word(key, b"output") || is_word(key, b"output_bus"),
        Column::Speed => is_word(key, b"speed") || is_word(key, b"bus_speed"),
        Column::Label => is_label_title(key),
        Column::Equipment => is_equipment_title(key),
        Column::Format => is_format_title(key),
        Column::Sdi => is_word(key, b"sdi"),
        Column::Police => is_word(key, b"police") || is_word(key, b"policed"),
        Column::Queue => is_word(key, b"queue"),
        Column::Router => is_word(key, b"router"),
        Column::Name => is_name_title(key),
        Column::Sources => is_sources_title(key),
        Column::Min => is_min_title(key),
        Column::Max => is_max_title(key),
        Column::Jitter => is_jitter_title(key),
        Column::MaxAge => is_max_age_title(key),
        Column::Timeout => is_timeout_title(key),
        Column::Steps => is_word(key, b"steps"),
        Column::Within => is_within_title(key),
    }
}

impl Column {
    /// What a message calls it, and the first title that it may have.
    pub fn name(self) -> &'static str {
        match self {
            Column::Bus => "bus",
            Column::Output => "output",
            Column::Speed => "speed",
            Column::Label => "label",
            Column::Equipment => "equipment",
            Column::Format => "format",
            Column::Min => "min",
            Column::Max => "max",
            Column::Sdi => "sdi",
            Column::Jitter => "jitter",
            Column::Police => "police",
            Column::Queue => "queue",
            Column::Router => "router",
            Column::Name => "name",
            Column::Sources => "sources",
            Column::MaxAge => "max_age",
            Column::Timeout => "timeout",
            Column::Steps => "steps",
            Column::Within => "within",
        }
    }

    /// Whether its cells hold a time, so that its title has a unit.
    pub fn is_time(self) -> bool {
        matches!(
            self,
            Column::Min
                | Column::Max
                | Column::Jitter
                | Column::MaxAge
                | Column::Timeout
                | Column::Within
        )
    }
}
