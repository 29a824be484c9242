//! A world in memory, for tests.
ghost use Rattle.std.specs.Prelude.{◌≡◌, [], None, Some, map, option_map};
ghost use Rattle.std.proofs.Common.{◌∙◌, refl};
ghost use Rattle.dc_program.specs.Memory.{held_by, held_where_given};

use crate::limits::MOST_FILES;
use crate::world::{Crew, NotOpened, World};
use arrayvec::ArrayVec;
use dc_answer::Failure;
use dc_command::Asked;
use dc_device::MemSource;
use dc_run_network::Shelf;

/// How many bytes a file in memory gives at a pull.
const PIECE: usize = 1000;

/// A file in memory.
#[derive(Clone, Copy, Debug)]
pub struct MemFile<'a> {
    /// Its name.
    pub name: &'a str,
    /// What it holds.
    pub text: &'a str,
}

/// A file that was made in memory.
#[derive(Drop)]
struct Saved<'a> {
    name: &'a str,
    text: Vec<u8>,
}

/// Two or three files in memory. The opening or making of a given number is refused, and so is the opening of a file
/// that is not there.
#[derive(Drop)]
pub struct MemWorld<'a> {
    first: MemFile<'a>,
    second: MemFile<'a>,
    third: Option<MemFile<'a>>,
    fails_in: u64,
    why: NotOpened,
    opened: ArrayVec<&'a str, MOST_FILES>,
    refused: Option<NotOpened>,
    crew: Option<Crew>,
    saved: Option<Saved<'a>>,
}

impl<'a> MemWorld<'a> {
    /// These two files. The opening of number `fails_at`, from 1 on, is refused for this reason; for 0 none is so.
    pub fn new(first: MemFile<'a>, second: MemFile<'a>, fails_at: u64, why: NotOpened) -> Self
        ensures first { result.first ≡ first.entry }
        ensures second { result.second ≡ second.entry }
        ensures third { result.third ≡ None }
        ensures fails { result.fails_in ≡ fails_at }
        ensures why { result.why ≡ why }
        ensures opened { result.opened.items ≡ [] }
        ensures refused { result.refused ≡ None }
        ensures crew { result.crew ≡ None }
        ensures saved { result.saved ≡ None }
    {
        MemWorld {
            first,
            second,
            third: None,
            fails_in: fails_at,
            why,
            opened: ArrayVec::new(),
            refused: None,
            crew: None,
            saved: None,
        }
    }

    /// The same of three files.
    pub fn with_third(
        first: MemFile<'a>,
        second: MemFile<'a>,
        third: MemFile<'a>,
        fails_at: u64,
        why: NotOpened,
    ) -> Self
        ensures first { result.first ≡ first.entry }
        ensures second { result.second ≡ second.entry }
        ensures third { result.third ≡ Some third.entry }
        ensures fails { result.fails_in ≡ fails_at }
        ensures why { result.why ≡ why }
        ensures opened { result.opened.items ≡ [] }
        ensures refused { result.refused ≡ None }
        ensures crew { result.crew ≡ None }
        ensures saved { result.saved ≡ None }
    {
        MemWorld {
            first,
            second,
            third: Some(third),
            fails_in: fails_at,
            why,
            opened: ArrayVec::new(),
            refused: None,
            crew: None,
            saved: None,
        }
    }

    /// The names of the files that it was asked to open, the first one first.
    pub fn opened(&self) -> &[&'a str]
        ensures { result.now ≡ self.now.opened.items }
    {
        self.opened.as_slice()
    }

    /// For whom threads were last asked of it.
    pub fn crew(&self) -> Option<Crew>
        ensures { result ≡ self.now.crew }
    {
        self.crew
    }

    /// The name of the file that it was asked to make, and its text.
    pub fn saved(&self) -> Option<(&'a str, &[u8])> {
        match &self.saved {
            Some(saved) => Some((saved.name, saved.text.as_slice())),
            None => None,
        }
    }

    /// The text of the file of this name, where there is one.
    fn text_of(&self, name: &str) -> Option<&'a str>
        ensures { option_map (λ s. s.now) result ≡ held_by self.now.first (held_by self.now.second (held_where_given self.now.third (λ _. None))) name.now }
    {
        if self.first.name == name {
            Some(self.first.text)
        } else if self.second.name == name {
            Some(self.second.text)
        } else {
            match &self.third {
                Some(third) => {
                    if third.name == name {
                        Some(third.text)
                    } else {
                        None
                    }
                }
                None => None,
            }
        }
    }
}

impl<'a> Shelf for MemWorld<'a> {
    type File = MemSource<'a>;

    ghost holds = { λ w. held_by w.first (held_by w.second (held_where_given w.third (λ _. None))) };

    ghost keeps = { λ w w'. (w'.first ≡ w.first) × (w'.second ≡ w.second) × (w'.third ≡ w.third) × (w'.opened ≡ w.opened) × (w'.crew ≡ w.crew) × (w'.saved ≡ w.saved) };

    ghost keeps_same = { λ s. (refl, refl, refl, refl, refl, refl) };

    ghost keeps_on = { λ r s t one next. (next.0 ∙ one.0, next.1 ∙ one.1, next.2 ∙ one.2, next.3 ∙ one.3, next.4 ∙ one.4, next.5 ∙ one.5) };

    fn open_named(&mut self, name: &str) -> Result<MemSource<'a>, Failure> {
        match self.text_of(name) {
            Some(text) => Ok(MemSource::new(text.as_bytes(), PIECE, 0)),
            None => Err(Failure::Source),
        }
    }
}

impl<'a> World<'a> for MemWorld<'a> {
    ghost state = { λ w. record {
      holds = held_by w.first (held_by w.second (held_where_given w.third (λ _. None)));
      opened = map (λ name. name.now) w.opened.items;
      refused = w.refused;
      crew = w.crew;
      saved = option_map (λ s. (s.name.now, s.text.items)) w.saved;
    } };

    fn is_shelf(&self) {}

    fn open(&mut self, name: &'a str) -> Result<MemSource<'a>, NotOpened> {
        self.opened.push(name);
        let fails = self.fails_in == 1;
        self.fails_in = self.fails_in.saturating_sub(1);
        if fails {
            self.refused = Some(self.why);
            return Err(self.why);
        }
        match self.text_of(name) {
            Some(text) => {
                self.refused = None;
                Ok(MemSource::new(text.as_bytes(), PIECE, 0))
            }
            None => {
                self.refused = Some(NotOpened::Device);
                Err(NotOpened::Device)
            }
        }
    }

    fn save(&mut self, name: &'a str, text: Vec<u8>) -> Result<(), NotOpened> {
        self.saved = Some(Saved { name, text });
        let fails = self.fails_in == 1;
        self.fails_in = self.fails_in.saturating_sub(1);
        if fails {
            self.refused = Some(self.why);
            Err(self.why)
        } else {
            self.refused = None;
            Ok(())
        }
    }

    fn note(&mut self, _asked: Asked<'a>) {}

    fn ask_threads(&mut self, crew: Crew) {
        self.crew = Some(crew);
    }
}
