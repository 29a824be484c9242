//! Titles by which a column seems to be meant, though none is read under them.

ghost use Rattle.std.specs.Prelude.{◌≡◌, ◌≤◌, ◌||◌, [], codes, drop, length};
ghost use Rattle.std.specs.List.{list_any};
ghost use Rattle.dc_cell.specs.Strays.{are_exchanged as are_exchanged_of, is_first_off as is_first_off_of, is_one_off as is_one_off_of, gap_before, stem_of as stem_of_key, begins_with as begins_with_of, is_near_timed as is_near_timed_of, is_near_part as is_near_part_of, is_near as is_near_of, is_unitless as is_unitless_of, is_meant as is_meant_of, is_any_of_inputs, is_any_of_outputs, is_clear_input as is_clear_input_of, is_clear_output as is_clear_output_of};
ghost use Rattle.dc_cell.specs.Titles.{is_title as is_title_of};
ghost use Rattle.dc_cell.specs.declared.titles.Column.TheVariants as col;

use crate::titles::{Column, INPUT_COLUMNS, OUTPUT_COLUMNS, is_title};
use crate::words::is_word;

/// Whether two neighbours stand the other way round at the beginning of two texts, and what is behind them is alike.
fn are_exchanged(word: &[u8], key: &[u8]) -> bool
    ensures { result ≡ are_exchanged_of word.now key.now }
{
    word.len() >= 2
        && key.len() >= 2
        && word[0] == key[1]
        && word[1] == key[0]
        && is_word(&key[2..], &word[2..])
}

/// A text without its first byte.
fn rest(text: &[u8]) -> &[u8]
    ensures { result.now ≡ drop 1 text.now }
{
    if text.is_empty() { text } else { &text[1..] }
}

/// Whether two texts that differ in their first letter differ in nothing else.
fn is_first_off(word: &[u8], key: &[u8]) -> bool
    ensures { result ≡ is_first_off_of word.now key.now }
{
    is_word(key, rest(word))
        || is_word(rest(key), word)
        || is_word(rest(key), rest(word))
        || are_exchanged(word, key)
}

/// Whether a key lies one letter from a word: one is lost, added or another, or two neighbours are exchanged.
fn is_one_off(word: &[u8], key: &[u8]) -> bool
    ensures { result ≡ is_one_off_of word.now key.now }
{
    for place in 0..word.len() {
        if place == key.len() {
            return word.len() - place == 1;
        }
        if word[place] != key[place] {
            return is_first_off(&word[place..], &key[place..]);
        }
    }
    key.len() - word.len() == 1
}

/// Where the last `_` of a key stands, or its end where there is none.
fn gap(key: &[u8]) -> usize
    ensures value { result ≡ gap_before key.now (length key.now) }
    ensures within { result ≤ length key.now }
{
    for back in 0..key.len() {
        let place = key.len() - 1 - back;
        if key[place] == b'_' {
            return place;
        }
    }
    key.len()
}

/// A key without its last `_` and what is behind it.
fn stem(key: &[u8]) -> &[u8]
    ensures { result.now ≡ stem_of_key key.now }
{
    &key[..gap(key)]
}

/// Whether a key begins with a word.
fn begins_with(word: &[u8], key: &[u8]) -> bool
    ensures { result ≡ begins_with_of word.now key.now }
{
    word.len() <= key.len() && is_word(&key[..word.len()], word)
}

/// Whether a key lies one letter from the name of a time with one of its units, as these four words have it.
fn is_near_unit(key: &[u8], us: &[u8], usec: &[u8], ms: &[u8], msec: &[u8]) -> bool
    ensures { result ≡ (is_one_off_of us.now key.now || is_one_off_of usec.now key.now || is_one_off_of ms.now key.now || is_one_off_of msec.now key.now) }
{
    is_one_off(us, key) || is_one_off(usec, key) || is_one_off(ms, key) || is_one_off(msec, key)
}

/// Whether a key lies one letter from the name of a time, with or without a unit, as these five words have it.
fn is_near_timed(
    key: &[u8],
    stem: &[u8],
    word: &[u8],
    us: &[u8],
    usec: &[u8],
    ms: &[u8],
    msec: &[u8],
) -> bool
    ensures { result ≡ (is_one_off_of word.now key.now || is_one_off_of word.now stem.now
        || (is_one_off_of us.now key.now || is_one_off_of usec.now key.now || is_one_off_of ms.now key.now || is_one_off_of msec.now key.now)) }
{
    is_one_off(word, key) || is_one_off(word, stem) || is_near_unit(key, us, usec, ms, msec)
}

/// Whether a key lies one letter from `source` with a digit.
fn is_near_part(key: &[u8]) -> bool
    ensures { result ≡ is_near_part_of key.now }
{
    is_one_off(b"source1", key)
        || is_one_off(b"source2", key)
        || is_one_off(b"source3", key)
        || is_one_off(b"source4", key)
        || is_one_off(b"source5", key)
        || is_one_off(b"source6", key)
        || is_one_off(b"source7", key)
        || is_one_off(b"source8", key)
        || is_one_off(b"source_1", key)
        || is_one_off(b"source_2", key)
        || is_one_off(b"source_3", key)
        || is_one_off(b"source_4", key)
        || is_one_off(b"source_5", key)
        || is_one_off(b"source_6", key)
        || is_one_off(b"source_7", key)
        || is_one_off(b"source_8", key)
}

/// Whether a key lies one letter from a title of the column `label`.
fn is_near_label(key: &[u8]) -> bool
    ensures { result ≡ is_near_of col.Label key.now [] }
{
    is_one_off(b"label", key) || is_one_off(b"octal_label", key) || is_one_off(b"label_octal", key)
}

/// Whether a key lies one letter from a title of the column `equipment`.
fn is_near_equipment(key: &[u8]) -> bool
    ensures { result ≡ is_near_of col.Equipment key.now [] }
{
    is_one_off(b"equipment", key)
        || is_one_off(b"equipment_id", key)
        || is_one_off(b"equipment_code", key)
        || is_one_off(b"equip_id", key)
        || is_one_off(b"eqpt_id", key)
        || is_one_off(b"eqpt_id_hex", key)
}

/// Whether a key lies one letter from a title of the column `sources`.
fn is_near_sources(key: &[u8]) -> bool
    ensures { result ≡ is_near_of col.Sources key.now [] }
{
    is_one_off(b"sources", key)
        || is_one_off(b"source", key)
        || is_one_off(b"streams", key)
        || is_near_part(key)
}

/// Whether a key lies one letter from `minimum`, with or without a unit.
fn is_near_minimum(key: &[u8], stem: &[u8]) -> bool
    ensures { result ≡ is_near_timed_of (codes "minimum") key.now stem.now }
{
    is_near_timed(
        key,
        stem,
        b"minimum",
        b"minimum_us",
        b"minimum_usec",
        b"minimum_ms",
        b"minimum_msec",
    )
}

/// Whether a key lies one letter from `min_interval`, with or without a unit.
fn is_near_min_interval(key: &[u8], stem: &[u8]) -> bool
    ensures { result ≡ is_near_timed_of (codes "min_interval") key.now stem.now }
{
    is_near_timed(
        key,
        stem,
        b"min_interval",
        b"min_interval_us",
        b"min_interval_usec",
        b"min_interval_ms",
        b"min_interval_msec",
    )
}

/// Whether a key lies one letter from `min_transmit_interval`, with or without a unit.
fn is_near_min_transmit_interval(key: &[u8], stem: &[u8]) -> bool
    ensures { result ≡ is_near_timed_of (codes "min_transmit_interval") key.now stem.now }
{
    is_near_timed(
        key,
        stem,
        b"min_transmit_interval",
        b"min_transmit_interval_us",
        b"min_transmit_interval_usec",
        b"min_transmit_interval_ms",
        b"min_transmit_interval_msec",
    )
}

/// Whether a key lies one letter from a title of the column `min`.
fn is_near_min(key: &[u8], stem: &[u8]) -> bool
    ensures { result ≡ is_near_of col.Min key.now stem.now }
{
    is_near_minimum(key, stem)
        || is_near_min_interval(key, stem)
        || is_near_min_transmit_interval(key, stem)
}

/// Whether a key lies one letter from `maximum`, with or without a unit.
fn is_near_maximum(key: &[u8], stem: &[u8]) -> bool
    ensures { result ≡ is_near_timed_of (codes "maximum") key.now stem.now }
{
    is_near_timed(
        key,
        stem,
        b"maximum",
        b"maximum_us",
        b"maximum_usec",
        b"maximum_ms",
        b"maximum_msec",
    )
}

/// Whether a key lies one letter from `max_interval`, with or without a unit.
fn is_near_max_interval(key: &[u8], stem: &[u8]) -> bool
    ensures { result ≡ is_near_timed_of (codes "max_interval") key.now stem.now }
{
    is_near_timed(
        key,
        stem,
        b"max_interval",
        b"max_interval_us",
        b"max_interval_usec",
        b"max_interval_ms",
        b"max_interval_msec",
    )
}

/// Whether a key lies one letter from `max_transmit_interval`, with or without a unit.
fn is_near_max_transmit_interval(key: &[u8], stem: &[u8]) -> bool
    ensures { result ≡ is_near_timed_of (codes "max_transmit_interval") key.now stem.now }
{
    is_near_timed(
        key,
        stem,
        b"max_transmit_interval",
        b"max_transmit_interval_us",
        b"max_transmit_interval_usec",
        b"max_transmit_interval_ms",
        b"max_transmit_interval_msec",
    )
}

/// Whether a key lies one letter from a title of the column `max`.
fn is_near_max(key: &[u8], stem: &[u8]) -> bool
    ensures { result ≡ is_near_of col.Max key.now stem.now }
{
    is_near_maximum(key, stem)
        || is_near_max_interval(key, stem)
        || is_near_max_transmit_interval(key, stem)
}

/// Whether a key lies one letter from a title of the column `jitter`.
fn is_near_jitter(key: &[u8], stem: &[u8]) -> bool
    ensures { result ≡ is_near_of col.Jitter key.now stem.now }
{
    is_near_timed(
        key,
        stem,
        b"jitter",
        b"jitter_us",
        b"jitter_usec",
        b"jitter_ms",
        b"jitter_msec",
    )
}

/// Whether a key lies one letter from a title of the column `max_age`.
fn is_near_max_age(key: &[u8], stem: &[u8]) -> bool
    ensures { result ≡ is_near_of col.MaxAge key.now stem.now }
{
    is_near_timed(
        key,
        stem,
        b"max_age",
        b"max_age_us",
        b"max_age_usec",
        b"max_age_ms",
        b"max_age_msec",
    ) || is_near_timed(
        key,
        stem,
        b"maximum_age",
        b"maximum_age_us",
        b"maximum_age_usec",
        b"maximum_age_ms",
        b"maximum_age_msec",
    )
}

/// Whether a key lies one letter from a title of the column `timeout`.
fn is_near_timeout(key: &[u8], stem: &[u8]) -> bool
    ensures { result ≡ is_near_of col.Timeout key.now stem.now }
{
    is_near_timed(
        key,
        stem,
        b"timeout",
        b"timeout_us",
        b"timeout_usec",
        b"timeout_ms",
        b"timeout_msec",
    )
}

/// Whether a key lies one letter from a title of the column `within`.
fn is_near_within(key: &[u8], stem: &[u8]) -> bool
    ensures { result ≡ is_near_of col.Within key.now stem.now }
{
    is_near_timed(
        key,
        stem,
        b"within",
        b"within_us",
        b"within_usec",
        b"within_ms",
        b"within_msec",
    )
}

/// Whether a key lies one letter from a title of this column.
fn is_near(column: Column, key: &[u8], stem: &[u8]) -> bool
    ensures { result ≡ is_near_of column key.now stem.now }
{
    match column {
        Column::Bus => is_one_off(b"input_bus", key) || is_one_off(b"source_bus", key),
        Column::Output => is_one_off(b"output", key) || is_one_off(b"output_bus", key),
        Column::Speed => is_one_off(b"speed", key) || is_one_off(b"bus_speed", key),
        Column::Label => is_near_label(key),
        Column::Equipment => is_near_equipment(key),
        Column::Format => is_one_off(b"format", key) || is_one_off(b"data_type", key),
        Column::Sdi => false,
        Column::Police => is_one_off(b"police", key) || is_one_off(b"policed", key),
        Column::Queue => is_one_off(b"queue", key),
        Column::Router => is_one_off(b"router", key),
        Column::Name => is_one_off(b"stream_name", key) || is_one_off(b"label_name", key),
        Column::Sources => is_near_sources(key),
        Column::Min => is_near_min(key, stem),
        Column::Max => is_near_max(key, stem),
        Column::Jitter => is_near_jitter(key, stem),
        Column::MaxAge => is_near_max_age(key, stem),
        Column::Timeout => is_near_timeout(key, stem),
        Column::Steps => is_one_off(b"steps", key),
        Column::Within => is_near_within(key, stem),
    }
}

/// Whether a key begins with the name of a time that a sheet need not have: with one of its units it is a title.
fn is_unitless(column: Column, key: &[u8]) -> bool
    ensures { result ≡ is_unitless_of column key.now }
{
    match column {
        Column::Jitter => begins_with(b"jitter", key),
        Column::MaxAge => begins_with(b"max_age", key) || begins_with(b"maximum_age", key),
        Column::Timeout => begins_with(b"timeout", key),
        Column::Within => begins_with(b"within", key),
        _ => false,
    }
}

/// Whether a key begins with the name of a time of the inputs that need not be there.
pub fn is_input_unitless(key: &[u8]) -> bool
    ensures { result ≡ is_unitless_of col.Jitter key.now }
{
    is_unitless(Column::Jitter, key)
}

/// Whether a key begins with the name of a time of the outputs that need not be there.
pub fn is_output_unitless(key: &[u8]) -> bool
    ensures { result ≡ (is_unitless_of col.MaxAge key.now || is_unitless_of col.Timeout key.now) }
{
    is_unitless(Column::MaxAge, key) || is_unitless(Column::Timeout, key)
}

/// Whether this column seems to be meant by a title that is none of its own: a name of a time without a unit that is known, or a
/// title with one letter wrong.
pub fn is_meant(column: Column, key: &[u8]) -> bool
    ensures { result ≡ is_meant_of column key.now }
{
    is_unitless(column, key) || is_near(column, key, stem(key))
}

/// Whether a key is a title of one of these columns.
fn is_title_of_any(columns: &[Column], key: &[u8]) -> bool
    ensures { result ≡ list_any (λ column. is_title_of column key.now) columns.now }
{
    for column in columns {
        if is_title(*column, key) {
            return true;
        }
    }
    false
}

/// Whether one of these columns seems to be meant by a title.
fn is_meant_of_any(columns: &[Column], key: &[u8]) -> bool
    ensures { result ≡ list_any (λ column. is_meant_of column key.now) columns.now }
{
    for column in columns {
        if is_meant(*column, key) {
            return true;
        }
    }
    false
}

/// Whether a key is a title of a column of the inputs.
pub fn is_input_title(key: &[u8]) -> bool
    ensures { result ≡ is_any_of_inputs (λ column. is_title_of column key.now) }
{
    is_title_of_any(&INPUT_COLUMNS, key)
}

/// Whether a column of the inputs seems to be meant by a title.
fn is_input_meant(key: &[u8]) -> bool
    ensures { result ≡ is_any_of_inputs (λ column. is_meant_of column key.now) }
{
    is_meant_of_any(&INPUT_COLUMNS, key)
}

/// Whether a key is a title of the inputs that is read, or one by which no column of theirs can be meant.
pub fn is_clear_input(key: &[u8]) -> bool
    ensures { result ≡ is_clear_input_of key.now }
{
    is_input_title(key) || !is_input_meant(key)
}

/// Whether a key is a title of a column of the outputs.
pub fn is_output_title(key: &[u8]) -> bool
    ensures { result ≡ is_any_of_outputs (λ column. is_title_of column key.now) }
{
    is_title_of_any(&OUTPUT_COLUMNS, key)
}

/// Whether a column of the outputs seems to be meant by a title.
fn is_output_meant(key: &[u8]) -> bool
    ensures { result ≡ is_any_of_outputs (λ column. is_meant_of column key.now) }
{
    is_meant_of_any(&OUTPUT_COLUMNS, key)
}

/// Whether a key is a title of the outputs that is read, or one by which no column of theirs can be meant.
pub fn is_clear_output(key: &[u8]) -> bool
    ensures { result ≡ is_clear_output_of key.now }
{
    is_output_title(key) || !is_output_meant(key)
}
