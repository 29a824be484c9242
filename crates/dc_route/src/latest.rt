//! The latest word of each stream.

ghost use Rattle.std.specs.Prelude.{◌≡◌, ℕ, ◌<◌, length, replicate, slice_set, slice_index_or, Option, IfOk};

use dc_tables::Tables;
use dc_word::Word;
use std::alloc::{AllocError, Global};
use std::marker::Model;

/// The latest word of each stream that a router has taken, with the tick in which it was routed.
#[derive(Drop)]
pub struct Latest {
    words: Vec<Option<(Word, u64)>>,
}

impl Model for Latest {
    ghost use Rattle.std.specs.Prelude.{ℕ, List, Option};

    ghost Value = { List (Option (ℕ × ℕ)) };

    ghost view = { λ l. l.words.items };
}

impl Latest {
    /// No stream of these tables has a word yet.
    ///
    /// # Errors
    /// Out of memory.
    pub fn new(alloc: Global, tables: &Tables) -> Result<Latest, AllocError>
        ensures { IfOk result (λ l. l ≡ replicate (length tables.now.streams) None) }
    {
        let mut words = Vec::new(alloc);
        for _stream in 0..tables.stream_count() {
            words.push(None)?;
        }
        Ok(Latest { words })
    }

    /// The latest word of the stream and the tick in which it was routed, if there is one.
    pub fn get(&self, stream: usize) -> Option<(Word, u64)>
        requires { stream < length self.now }
        ensures { result ≡ slice_index_or self.now stream None }
    {
        self.words[stream]
    }

    /// A word of the stream was routed in this tick.
    pub fn set(&mut self, stream: usize, word: Word, tick: u64)
        requires { stream < length self.old }
        ensures { self.new ≡ slice_set self.old stream (Some (word, tick)) }
    {
        let place = &mut self.words[stream];
        *place = Some((word, tick));
    }
}
