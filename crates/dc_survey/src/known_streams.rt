//! Which streams of the buses declare the words that came.
ghost use Rattle.std.specs.Prelude.{◌≡◌, ◌<◌, length, IfOk, IfSome};
ghost use Rattle.dc_survey.specs.Known.{AreKnown, Tells};
ghost use Rattle.dc_survey.specs.Surveys.{AllMade};
ghost use Rattle.dc_survey.specs.declared.known_streams.Declared.TheVariants.{NotAsked};
ghost use Rattle.dc_tables.specs.Declares.{stream_of};

use dc_tables::Tables;
use dc_word::Word;
use std::alloc::{AllocError, Global};

/// How many words there are that differ in label or SDI: those of ten bits.
pub const KINDS: usize = 1024;

/// What is known of the words of a bus that have one label and one SDI.
#[derive(Clone, Copy, Debug, PartialEq, Eq)]
pub enum Declared {
    /// None of them came yet.
    NotAsked,
    /// No stream of the bus declares them.
    Undeclared,
    /// This stream declares them.
    Stream(usize),
}

impl Declared {
    /// What was found of a word.
    fn found(stream: Option<usize>) -> Declared
        ensures { Tells stream result }
    {
        match stream {
            Some(stream) => Declared::Stream(stream),
            None => Declared::Undeclared,
        }
    }
}

/// What is known of each bus, label and SDI, so that each is looked up once.
#[derive(Drop)]
pub struct KnownStreams {
    places: Vec<Declared>,
}

/// So many places of which nothing is known.
fn nothing_known(alloc: Global, count: usize) -> Result<Vec<Declared>, AllocError>
    ensures { IfOk result (λ v. AllMade (λ _. NotAsked) NotAsked count v.items) }
{
    let mut places = Vec::new(alloc);
    for _place in 0..count {
        places.push(Declared::NotAsked)?;
    }
    Ok(places)
}

impl KnownStreams {
    /// Of no word.
    ///
    /// # Errors
    /// `AllocError` where memory is wanted.
    pub fn new(alloc: Global, tables: &Tables) -> Result<KnownStreams, AllocError>
        ensures { IfOk result (λ k. AreKnown tables.now k) }
    {
        tables.valid();
        let places = nothing_known(alloc, tables.bus_count() * KINDS)?;
        Ok(KnownStreams { places })
    }

    /// The stream of the bus that declares the word, looked up in the tables, and is known from then on.
    #[inline(never)]
    fn ask(&mut self, tables: &Tables, bus: usize, word: Word) -> Option<usize>
        requires known { AreKnown tables.now self.old }
        requires there { bus < length tables.now.buses }
        ensures known { AreKnown tables.now self.new }
        ensures stream { result ≡ stream_of tables.now bus word }
        ensures there { IfSome result (λ s. s < length tables.now.streams) }
    {
        tables.valid();
        let stream = tables.stream_of(bus, word);
        let place = bus * KINDS + word.bits() as usize % KINDS;
        self.places[place] = Declared::found(stream);
        stream
    }

    /// The number of the stream of the bus that declares the word.
    #[inline(always)]
    pub fn stream_of(&mut self, tables: &Tables, bus: usize, word: Word) -> Option<usize>
        requires known { AreKnown tables.now self.old }
        requires there { bus < length tables.now.buses }
        ensures known { AreKnown tables.now self.new }
        ensures stream { result ≡ stream_of tables.now bus word }
        ensures there { IfSome result (λ s. s < length tables.now.streams) }
    {
        tables.valid();
        let place = bus * KINDS + word.bits() as usize % KINDS;
        match self.places[place] {
            Declared::Stream(stream) => Some(stream),
            Declared::Undeclared => None,
            Declared::NotAsked => self.ask(tables, bus, word),
        }
    }
}
