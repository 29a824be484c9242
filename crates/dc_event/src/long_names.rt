//! Names of more than eight letters. The key of one is how many letters it has, its first eight and its last eight, which
//! are two loads; a guess is compared with the whole of it, and what is equal to a name has letters alone.
ghost use Rattle.std.specs.Prelude.{◌≡◌, ℕ, List, ◌<◌, ◌≤◌, ◌+◌, length, IfSome, IsTrue};
ghost use Rattle.dc_event.specs.LongNames.{AreLongFound, IsLongFound, StartsWithAnyName, eight_bytes_from, long_key_of};
ghost use Rattle.dc_event.specs.Names.{AreLetters};
ghost use Rattle.dc_event.specs.TraceText.{number_named};

use crate::places::{PLACES, first_place, next_place};
use dc_document::NAME_LIMIT;

/// As many letters as each end has that a key tells.
const END_LETTERS: usize = 8;

/// What tells a long name from others: how many letters it has, its first eight and its last eight.
#[derive(Clone, Copy, Debug, PartialEq, Eq)]
struct LongKey {
    letters: usize,
    first: u64,
    last: u64,
}

/// How many numbers have a key: as many as a kind has names.
const MOST_NAMES: usize = 64;

/// The key of a number whose name is not long. No long name has no letters.
const NO_NAME: LongKey = LongKey {
    letters: 0,
    first: 0,
    last: 0,
};

/// By how many bits the last eight letters are turned before a place is made of both ends.
const TURN: u32 = 29;

/// A place where no number is guessed yet.
const NO_GUESS: u8 = 255;

/// Eight bytes of a text from a place on as a number: one load.
#[inline(always)]
fn eight_from(text: &[u8], at: usize) -> u64
    requires { at + 8 ≤ length text.now }
    ensures { result ≡ eight_bytes_from text.now at }
{
    let eight = &text[at..at + 8];
    u64::from_le_bytes([
        eight[0], eight[1], eight[2], eight[3], eight[4], eight[5], eight[6], eight[7],
    ])
}

/// The key of a long name.
#[inline(always)]
fn long_key(name: &[u8]) -> LongKey
    requires { END_LETTERS ≤ length name.now }
    ensures { result ≡ long_key_of name.now }
{
    LongKey {
        letters: name.len(),
        first: eight_from(name, 0),
        last: eight_from(name, name.len() - END_LETTERS),
    }
}

/// Where a key is looked for first. The last eight letters are turned by some bits, so that those which change from name
/// to name at the same places of both ends do not cancel out.
#[inline(always)]
fn first_place_of(key: LongKey) -> usize
    ensures { result < PLACES }
{
    first_place(key.first ^ key.last.rotate_left(TURN))
}

/// Whether a name is of letters alone.
fn are_letters(name: &[u8]) -> bool
    ensures { IsTrue result → AreLetters name.now }
{
    for letter in name {
        if *letter <= b' ' {
            return false;
        }
    }
    true
}

/// How many bytes stand before the first from the tenth on that is no letter, where these are as many as a long name may
/// have. The first nine are not looked at: who compares the whole name does.
#[inline(always)]
fn many_letters_ahead(text: &[u8]) -> Option<usize>
    requires { NAME_LIMIT < length text.now }
    ensures { IfSome result (λ letters. (END_LETTERS < letters) × (letters ≤ NAME_LIMIT)) }
{
    for letters in END_LETTERS + 1..NAME_LIMIT + 1 {
        if text[letters] <= b' ' {
            return Some(letters);
        }
    }
    None
}

/// The keys of long names by number, and a number that is guessed at each place. A clause says nothing of guesses: one may
/// have lost its place to another one.
#[derive(Drop)]
pub struct LongNames {
    keys: [LongKey; MOST_NAMES],
    guesses: [u8; PLACES],
}

impl LongNames {
    /// No names.
    pub fn new() -> Self
        ensures { (names : List (List ℕ)) → AreLongFound names result.keys }
    {
        LongNames {
            keys: [NO_NAME; MOST_NAMES],
            guesses: [NO_GUESS; PLACES],
        }
    }

    /// Puts the key of a number, and guesses that at its first place, if that is free, else at the next one.
    fn put(&mut self, key: LongKey, number: usize)
        requires { number < MOST_NAMES }
        ensures { (names : List (List ℕ)) → AreLongFound names self.old.keys → IsLongFound names key number → AreLongFound names self.new.keys }
    {
        self.keys[number] = key;
        let first = first_place_of(key);
        if self.guesses[first] == NO_GUESS {
            self.guesses[first] = number as u8;
            return;
        }
        self.guesses[next_place(first)] = number as u8;
    }

    /// Puts a name of this number, if it has one and is long.
    pub fn learn(&mut self, name: &[u8], number: Option<usize>)
        ensures { (names : List (List ℕ)) → AreLongFound names self.old.keys → number ≡ number_named names name.now → AreLongFound names self.new.keys }
    {
        let Some(number) = number else {
            return;
        };
        if name.len() <= END_LETTERS || name.len() > NAME_LIMIT || !are_letters(name) {
            return;
        }
        if number >= MOST_NAMES {
            return;
        }
        self.put(long_key(name), number);
    }

    /// The number that is guessed at a place, where the key of its name is this.
    #[inline(always)]
    fn number_at(&self, place: usize, key: LongKey) -> Option<usize>
        requires { place < PLACES }
        ensures { (names : List (List ℕ)) → AreLongFound names self.now.keys → IfSome result (λ number. IsLongFound names key number) }
    {
        let number = self.guesses[place] as usize % MOST_NAMES;
        if self.keys[number] != key {
            return None;
        }
        Some(number)
    }

    /// The number of the name of a key, where it is guessed.
    #[inline(always)]
    fn number_of(&self, key: LongKey) -> Option<usize>
        ensures { (names : List (List ℕ)) → AreLongFound names self.now.keys → IfSome result (λ number. IsLongFound names key number) }
    {
        let first = first_place_of(key);
        if let Some(number) = self.number_at(first, key) {
            return Some(number);
        }
        self.number_at(next_place(first), key)
    }

    /// The number of the long name that a text begins with, and how many letters that has, where as many bytes are
    /// ahead as the longest name has and one more.
    #[inline(always)]
    pub fn name_ahead(&self, text: &[u8]) -> Option<(usize, usize)>
        ensures { (names : List (List ℕ)) → AreLongFound names self.now.keys → IfSome result (λ ahead. StartsWithAnyName names text.now ahead.0 ahead.1) }
    {
        if text.len() <= NAME_LIMIT {
            return None;
        }
        let letters = many_letters_ahead(text)?;
        let number = self.number_of(long_key(&text[..letters]))?;
        Some((number, letters))
    }
}
