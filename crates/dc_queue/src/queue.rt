//! The receive queue of a bus.
ghost use Rattle.std.specs.Prelude.{◌≡◌, ℕ, ◌+◌, ◌<◌, ◌≤◌, [], ◌∷◌, ◌++◌, length, drop, slice_get, IfOk, IsOk, OnOk, OnErr, IsTrue, ◌↔◌};
ghost use Rattle.dc_queue.specs.QueueData.{QueueData};
ghost use Rattle.dc_bound.specs.declared.limits.TheConstants.{GREATEST_QUEUE};

use circular_buffer::HeapCircularBuffer;
use dc_word::Word;
use std::alloc::{AllocError, Global};
use std::marker::Model;

/// The receive queue of a bus: at most `limit` words, first in, first out. A limit is at most [`GREATEST_QUEUE`](dc_bound::GREATEST_QUEUE).
#[derive(Drop)]
pub struct WordQueue {
    words: HeapCircularBuffer<Word>,
}

impl Model for WordQueue {
    ghost use Rattle.std.specs.Prelude.{ℕ, ◌≤◌, length};
    ghost use Rattle.dc_queue.specs.QueueData.{QueueData};
    ghost use Rattle.dc_bound.specs.declared.limits.TheConstants.{GREATEST_QUEUE};

    ghost Value = { QueueData };

    ghost view = { λ q. record { words = q.words.items; limit = q.words.capacity } };

    ghost invariant = { λ q. (length q.words.items ≤ q.words.capacity) × (q.words.capacity ≤ GREATEST_QUEUE) };
}

/// The queue has no room for a word.
#[derive(Clone, Copy, Debug, PartialEq)]
pub struct Full;

impl WordQueue {
    /// A queue with no words, and room for `limit` of them.
    ///
    /// # Errors
    /// Out of memory.
    pub fn new(alloc: Global, limit: u32) -> Result<WordQueue, AllocError>
        requires { limit ≤ GREATEST_QUEUE }
        ensures { IfOk result (λ q. q ≡ record { words = []; limit = limit }) }
    {
        Ok(WordQueue {
            words: HeapCircularBuffer::with_capacity(alloc, limit as usize)?,
        })
    }

    /// How many words there are.
    pub fn len(&self) -> u32
        ensures len { result ≡ length self.now.words }
        ensures few { length self.now.words ≤ self.now.limit }
    {
        self.words.len() as u32
    }

    /// Whether there is no word.
    pub fn is_empty(&self) -> bool
        ensures { IsTrue result ↔ (self.now.words ≡ []) }
    {
        self.words.is_empty()
    }

    /// Appends a word, and answers how many there are then.
    ///
    /// # Errors
    /// `Full` exactly where there are `limit` words already; the queue is unchanged then.
    pub fn put(&mut self, word: Word) -> Result<u32, Full>
        ensures variant { IsOk result ↔ (length self.old.words < self.old.limit) }
        ensures ok { OnOk result (self.new ≡ record { words = self.old.words ++ word ∷ []; limit = self.old.limit }) }
        ensures backlog { IfOk result (λ n. n ≡ length self.old.words + 1) }
        ensures err { OnErr result (self.new ≡ self.old) }
    {
        match self.words.try_push_back(word) {
            Ok(()) => Ok(self.len()),
            Err(_) => Err(Full),
        }
    }

    /// Takes the oldest word, if there is one.
    pub fn take(&mut self) -> Option<Word>
        ensures word { result ≡ slice_get self.old.words 0 }
        ensures rest { self.new ≡ record { words = drop 1 self.old.words; limit = self.old.limit } }
    {
        self.words.pop_front()
    }
}
