//! What tables may say otherwise where their layout is open.
ghost use Rattle.std.specs.Prelude.{◌≡◌, ◌++◌, replicate, IfOk};
ghost use Rattle.toml.specs.View.{table_view};
ghost use Rattle.dc_dict.specs.Ticks.{out_maximum as age_below};
ghost use Rattle.dc_toml.specs.Faults.{Gives};
ghost use Rattle.dc_toml.specs.Reading.{has_key, number_or as number_or_usual, one_key as one_of_keys, aged_by, whole_age as age_of_one, age_in_us as us_of_age, laid_age as age_laid, most_of as most_for, laid_most as most_laid, repeated as each_repeated, visits_of as visits_repeated, laid_visits as visits_laid};

use crate::keys::{find, number};
use crate::layout::Layout;
use crate::lists::names;
use crate::place::TablePlace;
use dc_dict::out_maximum;
use dc_document::{
    BuildError, GREATEST_AGE, LONGEST_INTERVAL_US, MOST_STEPS, MOST_VISITS, Name, TableFault,
    TableRule,
};
use std::alloc::{AllocError, Global};
use toml::Table;

/// Whether a key is in the table.
fn has(table: &Table, key: &str) -> bool
    ensures { result ≡ has_key key.now (table_view table.now) }
{
    find(table, key).is_some()
}

/// The number at a key that may be absent, within its range; this one where it is absent.
fn number_or(
    usual: u32,
    table: &Table,
    key: &str,
    low: u32,
    high: u32,
    place: TablePlace,
) -> Result<u32, TableFault>
    ensures { result ≡ number_or_usual usual place key.now low high (table_view table.now) }
{
    if has(table, key) {
        return number(table, key, low, high, place);
    }
    Ok(usual)
}

/// Refuses that neither of two keys is there, and that both are.
fn one_key(one: bool, other: bool, place: TablePlace) -> Result<(), TableFault>
    ensures { result ≡ one_of_keys place one other }
{
    if one {
        if other {
            return Err(place.fault(TableRule::KeyUnknown));
        }
        return Ok(());
    }
    if other {
        return Ok(());
    }
    Err(place.fault(TableRule::KeyAbsent))
}

/// Refuses a label with an open layout that has its age at no key, or at two.
pub fn aged(table: &Table, layout: Layout, place: TablePlace) -> Result<(), TableFault>
    ensures { result ≡ aged_by layout place (table_view table.now) }
{
    match layout {
        Layout::Wanted => Ok(()),
        Layout::Open => one_key(has(table, "age"), has(table, "max_age_us"), place),
    }
}

/// The greatest age in ticks of data that are younger than so many microseconds; 0 where there is none.
fn below(us: u32, tick_us: u32) -> u32
    ensures { result ≡ age_below us tick_us }
{
    if tick_us == 0 {
        return 0;
    }
    out_maximum(us, tick_us)
}

/// Refuses an age of no tick.
fn whole_age(age: u32, place: TablePlace) -> Result<u32, TableFault>
    ensures { result ≡ age_of_one place age }
{
    if age < 1 {
        return Err(place.fault(TableRule::NumberOutOfRange));
    }
    Ok(age)
}

/// The age in microseconds of a label with an open layout, in ticks.
fn age_in_us(table: &Table, tick_us: u32, place: TablePlace) -> Result<u32, TableFault>
    ensures { result ≡ us_of_age tick_us place (table_view table.now) }
{
    let us = number(table, "max_age_us", 1, LONGEST_INTERVAL_US, place)?;
    whole_age(below(us, tick_us), place)
}

/// The limit on the age of a label, in ticks; where the layout is open it may stand there in microseconds.
pub fn laid_age(
    table: &Table,
    layout: Layout,
    tick_us: u32,
    place: TablePlace,
) -> Result<u32, TableFault>
    ensures { result ≡ age_laid layout tick_us place (table_view table.now) }
{
    match layout {
        Layout::Wanted => number(table, "age", 1, GREATEST_AGE, place),
        Layout::Open => {
            if has(table, "max_age_us") {
                return age_in_us(table, tick_us, place);
            }
            number(table, "age", 1, GREATEST_AGE, place)
        }
    }
}

/// The most steps in one tick of a router that surely makes so many, where its text does not say them.
fn most_of(steps: u32) -> u32
    ensures { result ≡ most_for steps }
{
    if steps <= 10 {
        return 20;
    }
    if steps >= 500 {
        return MOST_STEPS;
    }
    2 * steps
}

/// The most steps of a router in one tick; where the layout is open the key may be absent.
pub fn laid_most(
    table: &Table,
    layout: Layout,
    steps: u32,
    place: TablePlace,
) -> Result<u32, TableFault>
    ensures { result ≡ most_laid layout steps place (table_view table.now) }
{
    match layout {
        Layout::Wanted => number(table, "most", 1, MOST_STEPS, place),
        Layout::Open => number_or(most_of(steps), table, "most", 1, MOST_STEPS, place),
    }
}

/// Puts a name so many times behind the others.
fn push_times(names: &mut Vec<Name>, name: Name, times: u32) -> Result<(), AllocError>
    ensures { IfOk result (λ _. names.new.items ≡ names.old.items ++ replicate times name) }
{
    for _time in 0..times {
        match names.push(name) {
            Ok(()) => {}
            Err(_) => return Err(AllocError),
        }
    }
    Ok(())
}

/// The names of a list, each so many times in a row.
fn repeated(alloc: Global, names: &[Name], times: u32) -> Result<Vec<Name>, AllocError>
    ensures { IfOk result (λ all. all.items ≡ each_repeated times names.now) }
{
    let mut all = Vec::new(alloc);
    for name in names {
        match push_times(&mut all, *name, times) {
            Ok(()) => {}
            Err(refused) => return Err(refused),
        }
    }
    Ok(all)
}

/// The visits that names stand for, each for so many in a row.
fn visits_of(
    alloc: Global,
    names: &[Name],
    looks: u32,
    place: TablePlace,
) -> Result<Vec<Name>, BuildError>
    ensures { Gives (λ v. v.items) result (visits_repeated place looks names.now) }
{
    if (looks as usize).saturating_mul(names.len()) > MOST_VISITS {
        return Err(BuildError::Refused(place.fault(TableRule::CountOutOfRange)));
    }
    Ok(repeated(alloc, names, looks)?)
}

/// The visits of a router, in their order; where the layout is open each stands for so many in a row as `looks` says.
pub fn laid_visits(
    alloc: Global,
    table: &Table,
    layout: Layout,
    place: TablePlace,
) -> Result<Vec<Name>, BuildError>
    ensures { Gives (λ v. v.items) result (visits_laid layout place (table_view table.now)) }
{
    let names = names(alloc, table, "visits", 1, MOST_VISITS, place)?;
    match layout {
        Layout::Wanted => Ok(names),
        Layout::Open => {
            let looks = number_or(1, table, "looks", 1, MOST_VISITS as u32, place)?;
            visits_of(alloc, &names, looks, place)
        }
    }
}
