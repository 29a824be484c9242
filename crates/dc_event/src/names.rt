//! The names of tables, found by their letters.
ghost use Rattle.std.specs.Prelude.{◌≡◌, ℕ, List, ◌<◌, ◌≤◌, length, take, IfSome};
ghost use Rattle.dc_event.specs.LongNames.{AreNamesFound, StartsWithAnyName};
ghost use Rattle.dc_event.specs.Names.{AreFound, AreLetters, IsFound, StartsWithName, key_of};
ghost use Rattle.dc_event.specs.TraceText.{number_named};

use crate::line::{bus_named, output_named, router_named};
use crate::long_names::LongNames;
use crate::places::{PLACES, first_place, next_place};
use dc_tables::Tables;
use std::marker::Model;

/// The most letters of a short name: a byte of the key each.
const KEY_LETTERS: usize = 8;

/// A place of no name. No name has this key.
const NO_NAME: Place = Place { key: 1, number: 0 };

/// A name's place: its key, and its number in the tables.
#[derive(Clone, Copy, Debug, PartialEq, Eq)]
struct Place {
    key: u64,
    number: usize,
}

/// The key of a name of letters, where the name is short.
fn key_of_name(name: &[u8]) -> Option<u64>
    ensures { IfSome result (λ key. AreLetters name.now × (key ≡ key_of name.now)) }
{
    if name.len() > KEY_LETTERS {
        return None;
    }
    let mut key: u64 = 0;
    for letter in name {
        if *letter <= b' ' {
            return None;
        }
        key = key * 256 + u64::from(*letter);
    }
    Some(key)
}

/// The key of the letters that a text begins with, and how many they are, where they are few and a byte follows.
#[inline(always)]
fn letters_ahead(text: &[u8]) -> Option<(u64, usize)>
    ensures { IfSome result (λ ahead. (ahead.1 < length text.now) × (ahead.1 ≤ KEY_LETTERS) × AreLetters (take ahead.1 text.now)
        × (ahead.0 ≡ key_of (take ahead.1 text.now))) }
{
    let most = text.len().min(KEY_LETTERS + 1);
    let mut key: u64 = 0;
    for i in 0..most {
        let letter = text[i];
        if letter <= b' ' {
            return Some((key, i));
        }
        key = key.wrapping_mul(256).wrapping_add(u64::from(letter));
    }
    None
}

/// Names by their keys. One may have lost its place to another one.
#[derive(Drop)]
struct ShortNames {
    places: [Place; PLACES],
}

impl ShortNames {
    /// No names.
    fn new() -> Self
        ensures { (names : List (List ℕ)) → AreFound names result.places }
    {
        ShortNames {
            places: [NO_NAME; PLACES],
        }
    }

    /// Puts a name's number at its first place, if that is free, else at the next one.
    fn put(&mut self, key: u64, number: usize)
        ensures { (names : List (List ℕ)) → AreFound names self.old.places → IsFound names key number → AreFound names self.new.places }
    {
        let first = first_place(key);
        if self.places[first].key == NO_NAME.key {
            self.places[first] = Place { key, number };
            return;
        }
        self.places[next_place(first)] = Place { key, number };
    }

    /// Puts a name of this number, if it has one and is short.
    fn learn(&mut self, name: &[u8], number: Option<usize>)
        ensures { (names : List (List ℕ)) → AreFound names self.old.places → number ≡ number_named names name.now → AreFound names self.new.places }
    {
        let Some(number) = number else {
            return;
        };
        let Some(key) = key_of_name(name) else {
            return;
        };
        self.put(key, number);
    }

    /// The number of the name of a key, where it has a place.
    #[inline(always)]
    fn number_of(&self, key: u64) -> Option<usize>
        ensures { (names : List (List ℕ)) → AreFound names self.now.places → IfSome result (λ number. IsFound names key number) }
    {
        let first = first_place(key);
        let place = self.places[first];
        if place.key == key {
            return Some(place.number);
        }
        let place = self.places[next_place(first)];
        if place.key == key {
            return Some(place.number);
        }
        None
    }

    /// The number of the name that a text begins with, and how many letters that has.
    #[inline(always)]
    fn name_ahead(&self, text: &[u8]) -> Option<(usize, usize)>
        ensures { (names : List (List ℕ)) → AreFound names self.now.places → IfSome result (λ ahead. StartsWithName names text.now ahead.0 ahead.1) }
    {
        let (key, letters) = letters_ahead(text)?;
        let number = self.number_of(key)?;
        Some((number, letters))
    }
}

/// The names of a kind, by how many letters they have.
#[derive(Drop)]
struct NamesOfKind {
    short: ShortNames,
    long: LongNames,
}

impl NamesOfKind {
    /// No names.
    fn new() -> Self
        ensures { (names : List (List ℕ)) → AreNamesFound names result }
    {
        NamesOfKind {
            short: ShortNames::new(),
            long: LongNames::new(),
        }
    }

    /// Puts a name of this number, if it has one.
    fn learn(&mut self, name: &[u8], number: Option<usize>)
        ensures { (names : List (List ℕ)) → AreNamesFound names self.old → number ≡ number_named names name.now → AreNamesFound names self.new }
    {
        self.short.learn(name, number);
        self.long.learn(name, number);
    }
}

/// The names of the buses.
fn names_of_buses(tables: &Tables) -> NamesOfKind
    ensures { AreNamesFound tables.now.names.buses result }
{
    tables.named();
    let mut names = NamesOfKind::new();
    for bus in 0..tables.bus_count() {
        let name = tables.bus_name(bus).text();
        names.learn(name, bus_named(tables, name));
    }
    names
}

/// The names of the routers.
fn names_of_routers(tables: &Tables) -> NamesOfKind
    ensures { AreNamesFound tables.now.names.routers result }
{
    tables.named();
    let mut names = NamesOfKind::new();
    for router in 0..tables.router_count() {
        let name = tables.router_name(router).text();
        names.learn(name, router_named(tables, name));
    }
    names
}

/// The names of the outputs.
fn names_of_outputs(tables: &Tables) -> NamesOfKind
    ensures { AreNamesFound tables.now.names.outputs result }
{
    tables.named();
    let mut names = NamesOfKind::new();
    for output in 0..tables.output_count() {
        let name = tables.output_name(output).text();
        names.learn(name, output_named(tables, name));
    }
    names
}

/// Tables, and the names of those that make steps. A clause sees the tables.
#[derive(Drop)]
pub struct KnownNames<'t> {
    tables: &'t Tables,
    buses: NamesOfKind,
    routers: NamesOfKind,
    outputs: NamesOfKind,
}

impl<'t> Model for KnownNames<'t> {
    ghost use Rattle.dc_tables.specs.TableRows.{TableRows};
    ghost use Rattle.dc_event.specs.LongNames.{AreNamesFound};

    ghost Value = { TableRows };

    ghost view = { λ k. k.tables.now };

    ghost invariant = { λ k. AreNamesFound k.tables.now.names.buses k.buses × AreNamesFound k.tables.now.names.routers k.routers
        × AreNamesFound k.tables.now.names.outputs k.outputs };
}

impl<'t> KnownNames<'t> {
    /// The names of these tables.
    pub fn of(tables: &'t Tables) -> Self
        ensures { result ≡ tables.now }
    {
        KnownNames {
            tables,
            buses: names_of_buses(tables),
            routers: names_of_routers(tables),
            outputs: names_of_outputs(tables),
        }
    }

    /// The tables.
    #[inline]
    pub fn tables(&self) -> &Tables
        ensures { result.now ≡ self.now }
    {
        self.tables
    }

    /// The number of the bus whose name, a short one, a text begins with, and how many letters that has.
    #[inline(always)]
    pub fn bus_ahead(&self, text: &[u8]) -> Option<(usize, usize)>
        ensures { IfSome result (λ ahead. StartsWithName self.now.names.buses text.now ahead.0 ahead.1) }
    {
        self.buses.short.name_ahead(text)
    }

    /// The number of the router whose name, a short one, a text begins with, and how many letters that has.
    #[inline(always)]
    pub fn router_ahead(&self, text: &[u8]) -> Option<(usize, usize)>
        ensures { IfSome result (λ ahead. StartsWithName self.now.names.routers text.now ahead.0 ahead.1) }
    {
        self.routers.short.name_ahead(text)
    }

    /// The number of the output whose name, a short one, a text begins with, and how many letters that has.
    #[inline(always)]
    pub fn output_ahead(&self, text: &[u8]) -> Option<(usize, usize)>
        ensures { IfSome result (λ ahead. StartsWithName self.now.names.outputs text.now ahead.0 ahead.1) }
    {
        self.outputs.short.name_ahead(text)
    }

    /// The number of the bus whose name, short or long, a text begins with, and how many letters that has.
    #[inline(always)]
    pub fn any_bus_ahead(&self, text: &[u8]) -> Option<(usize, usize)>
        ensures { IfSome result (λ ahead. StartsWithAnyName self.now.names.buses text.now ahead.0 ahead.1) }
    {
        if let Some(ahead) = self.bus_ahead(text) {
            return Some(ahead);
        }
        self.buses.long.name_ahead(text)
    }

    /// The number of the router whose name, short or long, a text begins with, and how many letters that has.
    #[inline(always)]
    pub fn any_router_ahead(&self, text: &[u8]) -> Option<(usize, usize)>
        ensures { IfSome result (λ ahead. StartsWithAnyName self.now.names.routers text.now ahead.0 ahead.1) }
    {
        if let Some(ahead) = self.router_ahead(text) {
            return Some(ahead);
        }
        self.routers.long.name_ahead(text)
    }

    /// The number of the output whose name, short or long, a text begins with, and how many letters that has.
    #[inline(always)]
    pub fn any_output_ahead(&self, text: &[u8]) -> Option<(usize, usize)>
        ensures { IfSome result (λ ahead. StartsWithAnyName self.now.names.outputs text.now ahead.0 ahead.1) }
    {
        if let Some(ahead) = self.output_ahead(text) {
            return Some(ahead);
        }
        self.outputs.long.name_ahead(text)
    }
}
