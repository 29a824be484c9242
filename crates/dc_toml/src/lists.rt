//! The lists at keys.
ghost use Rattle.std.specs.Prelude.{◌≡◌, option_map, option_and_then};
ghost use Rattle.toml.specs.Data.{get_member, as_array};
ghost use Rattle.toml.specs.View.{view, items_view, table_view};
ghost use Rattle.dc_document.specs.declared.fault.TableRule.TheVariants.{WrongKind};
ghost use Rattle.dc_toml.specs.Faults.{seen, Gives, wanted};
ghost use Rattle.dc_toml.specs.Keys.{array_at, all_items, is_text, is_number, each_item, name_item as name_in_item, number_item, counted, items_len, names_at, offsets_at, tables_at, optional_at};
ghost use Rattle.dc_document.specs.declared.limits.TheConstants.{LAST_OFFSET};
ghost use Rattle.dc_toml.specs.Reading.{laid_offsets as offsets_laid};

use crate::keys::{find, number_between};
use crate::layout::Layout;
use crate::place::TablePlace;
use dc_document::{BuildError, LAST_OFFSET, MOST_OFFSETS, Name, TableFault, TableRule};
use std::alloc::{AllocError, Global};
use toml::{Table, Value};

/// The items of the list at a key, if it is one.
fn array_there<'a>(table: &'a Table, key: &str) -> Option<&'a [Value]>
    ensures { option_map (λ v. items_view v.now) result
        ≡ option_and_then as_array (get_member key.now (table_view table.now)) }
{
    let values = find(table, key)?.as_array()?;
    Some(values.as_slice())
}

/// The items of the list at a key.
fn array<'a>(table: &'a Table, key: &str, place: TablePlace) -> Result<&'a [Value], TableFault>
    ensures { seen (λ v. items_view v.now) result ≡ array_at place key.now (table_view table.now) }
{
    match array_there(table, key) {
        Some(values) => Ok(values),
        None => Err(place.fault(TableRule::WrongKind)),
    }
}

/// How many values there are.
#[tactic(auto, using(crate::proofs::Steps::count_of))]
fn length(values: &[Value]) -> usize
    ensures { result ≡ items_len (items_view values.now) }
{
    values.len()
}

/// Refuses a list that is too short or too long.
fn check_count(
    values: &[Value],
    low: usize,
    high: usize,
    place: TablePlace,
) -> Result<(), TableFault>
    ensures { result ≡ counted place low high (items_view values.now) }
{
    let count = length(values);
    if count < low || count > high {
        return Err(place.fault(TableRule::CountOutOfRange));
    }
    Ok(())
}

/// Whether each value is a text.
fn are_texts(values: &[Value]) -> bool
    ensures { result ≡ all_items is_text (items_view values.now) }
{
    for value in values {
        if !value.is_str() {
            return false;
        }
    }
    true
}

/// Whether each value is a whole number.
fn are_numbers(values: &[Value]) -> bool
    ensures { result ≡ all_items is_number (items_view values.now) }
{
    for value in values {
        if !value.is_integer() {
            return false;
        }
    }
    true
}

/// Refuses a list with an item of another kind.
fn kinds(good: bool, place: TablePlace) -> Result<(), TableFault>
    ensures { result ≡ wanted place WrongKind good }
{
    if !good {
        return Err(place.fault(TableRule::WrongKind));
    }
    Ok(())
}

/// The name that a value is.
fn name_item(value: &Value, place: TablePlace) -> Result<Name, TableFault>
    ensures { result ≡ name_in_item place (view value.now) }
{
    let Some(text) = value.as_str() else {
        return Err(place.fault(TableRule::WrongSpelling));
    };
    match Name::new(text.as_bytes()) {
        Some(name) => Ok(name),
        None => Err(place.fault(TableRule::WrongSpelling)),
    }
}

/// The names that values are.
fn each_name(alloc: Global, values: &[Value], place: TablePlace) -> Result<Vec<Name>, BuildError>
    ensures { Gives (λ v. v.items) result (each_item (name_in_item place) (items_view values.now)) }
{
    let mut names = Vec::new(alloc);
    for value in values {
        match name_item(value, place) {
            Err(fault) => return Err(BuildError::Refused(fault)),
            Ok(name) => match names.push(name) {
                Ok(()) => {}
                Err(_) => return Err(BuildError::Memory(AllocError)),
            },
        }
    }
    Ok(names)
}

/// The offsets that values are.
fn each_offset(alloc: Global, values: &[Value], place: TablePlace) -> Result<Vec<u32>, BuildError>
    ensures { Gives (λ v. v.items) result (each_item (number_item place 0 LAST_OFFSET) (items_view values.now)) }
{
    let mut offsets = Vec::new(alloc);
    for value in values {
        match number_between(value.as_integer(), 0, LAST_OFFSET, place) {
            Err(fault) => return Err(BuildError::Refused(fault)),
            Ok(offset) => match offsets.push(offset) {
                Ok(()) => {}
                Err(_) => return Err(BuildError::Memory(AllocError)),
            },
        }
    }
    Ok(offsets)
}

/// The names in the list at a key.
#[tactic(auto, unfolding(crate::specs::Keys::names_at))]
pub fn names(
    alloc: Global,
    table: &Table,
    key: &str,
    low: usize,
    high: usize,
    place: TablePlace,
) -> Result<Vec<Name>, BuildError>
    ensures { Gives (λ v. v.items) result (names_at place key.now low high (table_view table.now)) }
{
    let values = array(table, key, place)?;
    kinds(are_texts(values), place)?;
    let names = each_name(alloc, values, place)?;
    check_count(values, low, high, place)?;
    Ok(names)
}

/// The offsets in the list at a key.
#[tactic(auto, unfolding(crate::specs::Keys::offsets_at))]
pub fn offsets(
    alloc: Global,
    table: &Table,
    key: &str,
    low: usize,
    high: usize,
    place: TablePlace,
) -> Result<Vec<u32>, BuildError>
    ensures { Gives (λ v. v.items) result (offsets_at place key.now low high (table_view table.now)) }
{
    let values = array(table, key, place)?;
    kinds(are_numbers(values), place)?;
    let offsets = each_offset(alloc, values, place)?;
    check_count(values, low, high, place)?;
    Ok(offsets)
}

/// The offsets of a label; none where the layout is open.
pub fn laid_offsets(
    alloc: Global,
    table: &Table,
    layout: Layout,
    place: TablePlace,
) -> Result<Vec<u32>, BuildError>
    ensures { Gives (λ v. v.items) result (offsets_laid layout place (table_view table.now)) }
{
    match layout {
        Layout::Wanted => offsets(alloc, table, "offsets", 1, MOST_OFFSETS, place),
        Layout::Open => Ok(Vec::new(alloc)),
    }
}

/// The list of tables at a key, before any of them is looked at.
#[tactic(auto, unfolding(crate::specs::Keys::tables_at))]
pub fn tables<'a>(
    table: &'a Table,
    key: &str,
    low: usize,
    high: usize,
    place: TablePlace,
) -> Result<&'a [Value], TableFault>
    ensures { seen (λ v. items_view v.now) result ≡ tables_at place key.now low high (table_view table.now) }
{
    let values = array(table, key, place)?;
    check_count(values, low, high, place)?;
    Ok(values)
}

/// The list of tables at a key that may be absent.
pub fn optional_tables<'a>(
    table: &'a Table,
    key: &str,
    high: usize,
    place: TablePlace,
) -> Result<&'a [Value], TableFault>
    ensures { seen (λ v. items_view v.now) result ≡ optional_at place key.now high (table_view table.now) }
{
    match find(table, key) {
        None => Ok(&[]),
        Some(_) => tables(table, key, 0, high, place),
    }
}
