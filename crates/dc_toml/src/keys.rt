//! The keys of a table, and what stands at each.
ghost use Rattle.std.specs.Prelude.{◌≡◌, ◌≤◌, map, option_map, option_and_then};
ghost use Rattle.std.specs.List.{list_any};
ghost use Rattle.toml.specs.Data.{get_member, same_key, as_str, as_integer, as_bool};
ghost use Rattle.toml.specs.View.{view, table_view};
ghost use Rattle.dc_toml.specs.Faults.{seen};
ghost use Rattle.dc_toml.specs.Keys.{only_keys, all_keys, table_of, known as known_keys, present as present_keys, keyed as keyed_by, bool_at, number_in, number_at, text_at, name_at, speed_at, format_at, label_at, equipment_at, sdi_at, stream_sdi_at};
ghost use Rattle.dc_toml.specs.Reading.{version_of, bus_keys, stream_keys, police_at, jitter_at, keyed_by as keyed_by_layout, router_keys, router_keys_may, router_keys_must, label_keys, label_keys_may, label_keys_must, laid_number as number_laid, output_keys, output_keys_must};

use crate::layout::Layout;
use crate::place::TablePlace;
use crate::spellings::{self, is_same};
use dc_dict::Equipment;
use dc_document::{GREATEST_JITTER_US, Name, Speed, TableFault, TableRule, Version};
use dc_word::{Format, Label, Sdi};
use toml::{Table, Value};

/// The table that a value is.
pub fn table(value: &Value, place: TablePlace) -> Result<&Table, TableFault>
    ensures { seen (λ t. table_view t.now) result ≡ table_of place (view value.now) }
{
    match value.as_table() {
        Some(table) => Ok(table),
        None => Err(place.fault(TableRule::WrongKind)),
    }
}

/// The value at a key.
pub fn find<'a>(table: &'a Table, key: &str) -> Option<&'a Value>
    ensures { option_map (λ v. view v.now) result ≡ get_member key.now (table_view table.now) }
{
    table.get(key)
}

/// Whether the key is one of these.
fn is_among(key: &str, keys: &[&str]) -> bool
    ensures { result ≡ list_any (same_key key.now) (map (λ k. k.now) keys.now) }
{
    for other in keys {
        if is_same(key, other) {
            return true;
        }
    }
    false
}

/// Whether each key of the table is one of these.
fn only_known(table: &Table, keys: &[&str]) -> bool
    ensures { result ≡ only_keys (map (λ k. k.now) keys.now) (table_view table.now) }
{
    for (key, _) in table {
        if !is_among(key.as_str(), keys) {
            return false;
        }
    }
    true
}

/// Whether each of these keys is in the table.
fn all_present(table: &Table, keys: &[&str]) -> bool
    ensures { result ≡ all_keys (map (λ k. k.now) keys.now) (table_view table.now) }
{
    for key in keys {
        if find(table, key).is_none() {
            return false;
        }
    }
    true
}

/// Refuses an unknown key.
pub fn known(table: &Table, keys: &[&str], place: TablePlace) -> Result<(), TableFault>
    ensures { result ≡ known_keys place (map (λ k. k.now) keys.now) (table_view table.now) }
{
    if !only_known(table, keys) {
        return Err(place.fault(TableRule::KeyUnknown));
    }
    Ok(())
}

/// Refuses that one of these keys is absent.
pub fn present(table: &Table, keys: &[&str], place: TablePlace) -> Result<(), TableFault>
    ensures { result ≡ present_keys place (map (λ k. k.now) keys.now) (table_view table.now) }
{
    if !all_present(table, keys) {
        return Err(place.fault(TableRule::KeyAbsent));
    }
    Ok(())
}

/// Refuses an unknown key, and then that one of these is absent. Keys of a table differ: where it has as many as may stand
/// there and each is known, none is absent.
pub fn keyed(table: &Table, keys: &[&str], place: TablePlace) -> Result<(), TableFault>
    ensures { result ≡ keyed_by place (map (λ k. k.now) keys.now) (table_view table.now) }
{
    known(table, keys, place)?;
    if table.len() == keys.len() {
        return Ok(());
    }
    present(table, keys, place)
}

/// Refuses keys that are not those of a bus.
pub fn bus_keyed(table: &Table, version: Version, place: TablePlace) -> Result<(), TableFault>
    ensures { result ≡ keyed_by place (bus_keys version) (table_view table.now) }
{
    match version {
        Version::One => keyed(table, &["name", "speed", "queue", "stream"], place),
        Version::Two => keyed(
            table,
            &["name", "speed", "queue", "police", "stream"],
            place,
        ),
    }
}

/// Refuses keys that are not those of a stream.
pub fn stream_keyed(table: &Table, version: Version, place: TablePlace) -> Result<(), TableFault>
    ensures { result ≡ keyed_by place (stream_keys version) (table_view table.now) }
{
    match version {
        Version::One => keyed(table, &["name", "label", "equipment", "sdi"], place),
        Version::Two => keyed(
            table,
            &["name", "label", "equipment", "sdi", "jitter_us"],
            place,
        ),
    }
}

/// Refuses keys that are none of these, and then that one is absent: of all, or where the layout is open of those that may
/// stand there and those that must.
fn keyed_by(
    table: &Table,
    layout: Layout,
    all: &[&str],
    may: &[&str],
    must: &[&str],
    place: TablePlace,
) -> Result<(), TableFault>
    ensures { result ≡ keyed_by_layout layout place (map (λ k. k.now) all.now) (map (λ k. k.now) may.now) (map (λ k. k.now) must.now) (table_view table.now) }
{
    match layout {
        Layout::Wanted => keyed(table, all, place),
        Layout::Open => {
            known(table, may, place)?;
            present(table, must, place)
        }
    }
}

/// Refuses keys that are not those of a router.
pub fn router_keyed(table: &Table, layout: Layout, place: TablePlace) -> Result<(), TableFault>
    ensures { result ≡ keyed_by_layout layout place router_keys router_keys_may router_keys_must (table_view table.now) }
{
    keyed_by(
        table,
        layout,
        &["name", "steps", "within", "most", "visits"],
        &["name", "steps", "within", "most", "visits", "looks"],
        &["name", "steps", "within", "visits"],
        place,
    )
}

/// Refuses keys that are not those of an output.
pub fn output_keyed(table: &Table, layout: Layout, place: TablePlace) -> Result<(), TableFault>
    ensures { result ≡ keyed_by_layout layout place output_keys output_keys output_keys_must (table_view table.now) }
{
    keyed_by(
        table,
        layout,
        &["name", "speed", "steps", "within", "frame", "label"],
        &["name", "speed", "steps", "within", "frame", "label"],
        &["name", "speed", "steps", "within", "label"],
        place,
    )
}

/// Refuses keys that are not those of a label.
pub fn label_keyed(table: &Table, layout: Layout, place: TablePlace) -> Result<(), TableFault>
    ensures { result ≡ keyed_by_layout layout place label_keys label_keys_may label_keys_must (table_view table.now) }
{
    let all = &[
        "name",
        "label",
        "equipment",
        "sdi",
        "sources",
        "stale",
        "age",
        "offsets",
    ];
    let may = &[
        "name",
        "label",
        "equipment",
        "sdi",
        "sources",
        "stale",
        "age",
        "max_age_us",
        "offsets",
    ];
    let must = &["name", "label", "equipment", "sdi", "sources"];
    keyed_by(table, layout, all, may, must, place)
}

/// The whole number at a key.
fn integer(table: &Table, key: &str) -> Option<i64>
    ensures { result ≡ option_and_then as_integer (get_member key.now (table_view table.now)) }
{
    find(table, key)?.as_integer()
}

/// The version of the text: the number 1 or 2 at `version`.
pub fn version(table: &Table, place: TablePlace) -> Result<Version, TableFault>
    ensures { result ≡ version_of place (table_view table.now) }
{
    match integer(table, "version") {
        Some(1) => Ok(Version::One),
        Some(2) => Ok(Version::Two),
        _ => Err(place.fault(TableRule::VersionUnknown)),
    }
}

/// The truth value at a key, if it is one.
fn bool_there(table: &Table, key: &str) -> Option<bool>
    ensures { result ≡ option_and_then as_bool (get_member key.now (table_view table.now)) }
{
    find(table, key)?.as_bool()
}

/// The truth value at a key.
pub fn truth(table: &Table, key: &str, place: TablePlace) -> Result<bool, TableFault>
    ensures { result ≡ bool_at place key.now (table_view table.now) }
{
    match bool_there(table, key) {
        Some(value) => Ok(value),
        None => Err(place.fault(TableRule::WrongKind)),
    }
}

/// Whether a bus refuses early words. In version 1 none does.
pub fn police(table: &Table, version: Version, place: TablePlace) -> Result<bool, TableFault>
    ensures { result ≡ police_at version place (table_view table.now) }
{
    match version {
        Version::One => Ok(false),
        Version::Two => truth(table, "police", place),
    }
}

/// The jitter of a stream in microseconds. In version 1 there is none.
pub fn jitter(table: &Table, version: Version, place: TablePlace) -> Result<u32, TableFault>
    ensures { result ≡ jitter_at version place (table_view table.now) }
{
    match version {
        Version::One => Ok(0),
        Version::Two => number(table, "jitter_us", 0, GREATEST_JITTER_US, place),
    }
}

/// A number within its range.
pub fn number_between(
    number: Option<i64>,
    low: u32,
    high: u32,
    place: TablePlace,
) -> Result<u32, TableFault>
    ensures { result ≡ number_in place low high number }
{
    let Some(n) = number else {
        return Err(place.fault(TableRule::WrongKind));
    };
    if n < i64::from(low) || n > i64::from(high) {
        return Err(place.fault(TableRule::NumberOutOfRange));
    }
    Ok(n as u32)
}

/// The number at a key, within its range.
pub fn number(
    table: &Table,
    key: &str,
    low: u32,
    high: u32,
    place: TablePlace,
) -> Result<u32, TableFault>
    ensures { result ≡ number_at place key.now low high (table_view table.now) }
{
    number_between(integer(table, key), low, high, place)
}

/// The number at a key of the layout, within its range; the least where the layout is open.
pub fn laid_number(
    table: &Table,
    layout: Layout,
    key: &str,
    low: u32,
    high: u32,
    place: TablePlace,
) -> Result<u32, TableFault>
    ensures { result ≡ number_laid layout place key.now low high (table_view table.now) }
{
    match layout {
        Layout::Wanted => number(table, key, low, high, place),
        Layout::Open => Ok(low),
    }
}

/// The text at a key, if it is one.
fn text_there<'a>(table: &'a Table, key: &str) -> Option<&'a str>
    ensures { option_map (λ s. s.now) result
        ≡ option_and_then as_str (get_member key.now (table_view table.now)) }
{
    find(table, key)?.as_str()
}

/// The text at a key.
pub fn text<'a>(table: &'a Table, key: &str, place: TablePlace) -> Result<&'a str, TableFault>
    ensures { seen (λ s. s.now) result ≡ text_at place key.now (table_view table.now) }
{
    match text_there(table, key) {
        Some(text) => Ok(text),
        None => Err(place.fault(TableRule::WrongKind)),
    }
}

/// The name at a key.
pub fn name(table: &Table, key: &str, place: TablePlace) -> Result<Name, TableFault>
    ensures { result ≡ name_at place key.now (table_view table.now) }
{
    let text = text(table, key, place)?;
    match Name::new(text.as_bytes()) {
        Some(name) => Ok(name),
        None => Err(place.fault(TableRule::WrongSpelling)),
    }
}

/// The speed at a key.
pub fn speed(table: &Table, key: &str, place: TablePlace) -> Result<Speed, TableFault>
    ensures { result ≡ speed_at place key.now (table_view table.now) }
{
    let text = text(table, key, place)?;
    match spellings::speed(text) {
        Some(speed) => Ok(speed),
        None => Err(place.fault(TableRule::WrongSpelling)),
    }
}

/// The format at a key.
pub fn format(table: &Table, key: &str, place: TablePlace) -> Result<Format, TableFault>
    ensures { result ≡ format_at place key.now (table_view table.now) }
{
    let text = text(table, key, place)?;
    match spellings::format(text) {
        Some(format) => Ok(format),
        None => Err(place.fault(TableRule::WrongSpelling)),
    }
}

/// The label at a key.
pub fn label(table: &Table, key: &str, place: TablePlace) -> Result<Label, TableFault>
    ensures { result ≡ label_at place key.now (table_view table.now) }
{
    let text = text(table, key, place)?;
    match spellings::label(text) {
        Some(label) => Ok(label),
        None => Err(place.fault(TableRule::WrongSpelling)),
    }
}

/// The equipment code at a key.
pub fn equipment(table: &Table, key: &str, place: TablePlace) -> Result<Equipment, TableFault>
    ensures { result ≡ equipment_at place key.now (table_view table.now) }
{
    let text = text(table, key, place)?;
    match spellings::equipment(text) {
        Some(rule) => Ok(rule),
        None => Err(place.fault(TableRule::WrongSpelling)),
    }
}

/// The SDI at a key, 0 to 3.
pub fn sdi(table: &Table, key: &str, place: TablePlace) -> Result<Sdi, TableFault>
    ensures { result ≡ sdi_at place key.now (table_view table.now) }
{
    let number = number(table, key, 0, 3, place)?;
    match Sdi::new(number as u8) {
        Some(sdi) => Ok(sdi),
        None => Err(place.fault(TableRule::NumberOutOfRange)),
    }
}

/// The SDI of a stream at a key: 0 to 3, or `"any"` for none.
pub fn stream_sdi(table: &Table, key: &str, place: TablePlace) -> Result<Option<Sdi>, TableFault>
    ensures { result ≡ stream_sdi_at place key.now (table_view table.now) }
{
    match text_there(table, key) {
        Some(text) => {
            if !is_same(text, "any") {
                return Err(place.fault(TableRule::WrongSpelling));
            }
            Ok(None)
        }
        None => Ok(Some(sdi(table, key, place)?)),
    }
}
