//! The buses of tables, by their names.
ghost use Rattle.std.specs.Prelude.{◌≡◌, ◌<◌, ◌≤◌, ℕ, List, IfSome, length, take};
ghost use Rattle.dc_event.specs.TraceText.{number_named};
ghost use Rattle.dc_capture.specs.Guesses.{AreTold, Tells};

use dc_document::{NAME_LIMIT, Name};
use dc_tables::Tables;
use std::marker::Model;

/// How many places there are for guesses: this project's own number.
pub const PLACES: usize = 512;

/// The letters of a name as a number, with one more.
#[inline(always)]
pub fn with_letter(sum: u64, letter: u8) -> u64 {
    sum.wrapping_mul(31).wrapping_add(u64::from(letter))
}

/// Where the guess for a name stands, by the number of its letters.
#[inline(always)]
pub fn place_at(sum: u64) -> usize
    ensures { result < PLACES }
{
    (sum.wrapping_mul(0x9E37_79B9_7F4A_7C15) / 0x0080_0000_0000_0000) as usize
}

/// Where the guess for a name stands.
fn place_of(name: &[u8]) -> usize
    ensures { result < PLACES }
{
    let mut sum: u64 = 0;
    for letter in name {
        sum = with_letter(sum, *letter);
    }
    place_at(sum)
}

/// A guess: a name, and the bus that it names, where it names one.
#[derive(Clone, Copy, Debug, PartialEq, Eq)]
struct Guess {
    bytes: [u8; NAME_LIMIT],
    letters: usize,
    bus: Option<usize>,
}

/// No name, which names no bus.
const NO_NAME: Guess = Guess {
    bytes: [0; NAME_LIMIT],
    letters: 0,
    bus: None,
};

/// A guess at each place. A name may have lost its place to another one.
#[derive(Drop)]
struct Guesses {
    places: [Guess; PLACES],
}

/// The letters of a name in as many bytes as the longest has.
fn bytes_of(name: &[u8]) -> [u8; NAME_LIMIT]
    requires { length name.now ≤ NAME_LIMIT }
    ensures { take (length name.now) result ≡ name.now }
{
    let mut bytes = [0; NAME_LIMIT];
    bytes[..name.len()].copy_from_slice(name);
    bytes
}

/// The guess of a name and its bus, where it is no longer than a name.
fn guess_of(name: &[u8], bus: Option<usize>) -> Guess
    ensures { (names : List (List ℕ)) → bus ≡ number_named names name.now → Tells names result }
{
    if name.len() > NAME_LIMIT {
        return NO_NAME;
    }
    Guess {
        bytes: bytes_of(name),
        letters: name.len(),
        bus,
    }
}

impl Guesses {
    /// No names.
    fn new() -> Self
        ensures { (names : List (List ℕ)) → AreTold names result.places }
    {
        Guesses {
            places: [NO_NAME; PLACES],
        }
    }

    /// Puts a name and its bus at its place.
    fn put(&mut self, name: &[u8], bus: Option<usize>)
        ensures { (names : List (List ℕ)) → AreTold names self.old.places → bus ≡ number_named names name.now → AreTold names self.new.places }
    {
        self.places[place_of(name)] = guess_of(name, bus);
    }
}

/// The number of the bus that a text names.
fn bus_named(tables: &Tables, text: &[u8]) -> Option<usize>
    ensures { result ≡ number_named tables.now.names.buses text.now }
{
    let name = Name::new(text)?;
    tables.bus_named(&name)
}

/// The guesses for the names of the buses.
fn guesses_of(tables: &Tables) -> Guesses
    ensures { AreTold tables.now.names.buses result.places }
{
    tables.named();
    let mut guesses = Guesses::new();
    for bus in 0..tables.bus_count() {
        let name = tables.bus_name(bus).text();
        guesses.put(name, bus_named(tables, name));
    }
    guesses
}

/// Tables, whose buses are found by a guess that is compared with the name. A clause sees the tables.
#[derive(Drop)]
pub struct KnownBuses<'t> {
    tables: &'t Tables,
    guesses: Guesses,
}

impl<'t> Model for KnownBuses<'t> {
    ghost use Rattle.dc_tables.specs.TableRows.{TableRows};
    ghost use Rattle.dc_capture.specs.Guesses.{AreTold};

    ghost Value = { TableRows };

    ghost view = { λ k. k.tables.now };

    ghost invariant = { λ k. AreTold k.tables.now.names.buses k.guesses.places };
}

impl<'t> KnownBuses<'t> {
    /// The buses of these tables.
    pub fn of(tables: &'t Tables) -> Self
        ensures { result ≡ tables.now }
    {
        KnownBuses {
            tables,
            guesses: guesses_of(tables),
        }
    }

    /// The number of the bus that a text names, where no guess tells it.
    #[inline(never)]
    fn looked_up(&self, text: &[u8]) -> Option<usize>
        ensures number { result ≡ number_named self.now.names.buses text.now }
        ensures there { IfSome result (λ bus. bus < length self.now.buses) }
    {
        self.tables.named();
        bus_named(self.tables, text)
    }

    /// The number of the bus that a text names, by the guess at a place.
    #[inline(always)]
    pub fn named_at(&self, place: usize, text: &[u8]) -> Option<usize>
        requires { place < PLACES }
        ensures number { result ≡ number_named self.now.names.buses text.now }
        ensures there { IfSome result (λ bus. bus < length self.now.buses) }
    {
        self.tables.named();
        let guess = self.guesses.places[place];
        if &guess.bytes[..guess.letters] == text {
            return guess.bus;
        }
        self.looked_up(text)
    }

    /// The number of the bus that a text names.
    pub fn named(&self, text: &[u8]) -> Option<usize>
        ensures number { result ≡ number_named self.now.names.buses text.now }
        ensures there { IfSome result (λ bus. bus < length self.now.buses) }
    {
        self.named_at(place_of(text), text)
    }
}
