//! What entered the queue of one bus, and what left it.

ghost use Rattle.std.specs.Prelude.{◌≡◌, ◌<◌, ◌≤◌, ℕ, List, [], ◌∷◌, ◌++◌, length, slice_index_or, IfOk, MatchOption};
ghost use Rattle.dc_bound.specs.Moves.{Move, ticks_in};
ghost use Rattle.dc_bound.specs.Moves.Move.{Visit};
ghost use Rattle.dc_tables.specs.TableRows.{bus_row};
ghost use Rattle.dc_oracle.specs.BusLog.{IsLog, Received, new_log, no_log};
ghost use Rattle.dc_oracle.specs.Fresh.{AllMade};

use circular_buffer::HeapCircularBuffer;
use dc_event::Reply;
use dc_tables::Tables;
use dc_word::Word;
use std::alloc::{AllocError, Global};
use std::marker::Model;

/// The words that wait in a bus's queue, each with the tick in which it came and the number of its stream, in order; of
/// the last word that was taken that tick and that number; and whether the bus has latched.
#[derive(Drop)]
pub struct BusLog {
    words: HeapCircularBuffer<(u64, (usize, Word))>,
    last: Option<(u64, usize)>,
    latched: bool,
}

impl Model for BusLog {
    ghost use Rattle.std.specs.Prelude.{◌<◌, ◌^◌};
    ghost use Rattle.dc_oracle.specs.BusData.{BusData};

    ghost Value = { BusData };

    ghost view = { λ b. record { words = b.words.items; last = b.last; latched = b.latched; room = b.words.capacity } };

    ghost invariant = { λ b. b.words.capacity < 2 ^ 32 };
}

impl BusLog {
    /// The log of a bus that brought nothing, and whose queue holds `room` words.
    ///
    /// # Errors
    /// Out of memory.
    pub fn new(alloc: Global, room: u32) -> Result<BusLog, AllocError>
        ensures { IfOk result (λ log. log ≡ new_log room) }
    {
        Ok(BusLog {
            words: HeapCircularBuffer::with_capacity(alloc, room as usize)?,
            last: None,
            latched: false,
        })
    }

    /// Whether the bus has latched.
    pub fn is_latched(&self) -> bool
        ensures { result ≡ self.now.latched }
    {
        self.latched
    }

    /// How many words wait.
    pub fn backlog(&self) -> u64
        ensures { result ≡ length self.now.words }
    {
        self.words.len() as u64
    }

    /// The tick in which the first of the words that wait came.
    pub fn oldest(&self) -> Option<u64>
        ensures { MatchOption result (self.now.words ≡ []) (λ tick. (1 ≤ length self.now.words) × (tick ≡ (slice_index_or self.now.words 0 (0, (0, 0))).0)) }
    {
        match self.words.front() {
            Some(first) => Some(first.0),
            None => None,
        }
    }

    /// A declared word of the stream comes to the queue in this tick.
    pub fn receive(&mut self, stream: usize, word: Word, tick: u64) -> Reply
        ensures { (room : ℕ) (ms : List Move) → IsLog room self.old ms → tick ≡ ticks_in ms → Received room self.new ms (stream, word) result }
    {
        if self.latched {
            return Reply::Latched;
        }
        match self.words.try_push_back((tick, (stream, word))) {
            Ok(()) => Reply::Queued(self.words.len() as u32),
            Err(_) => {
                self.latched = true;
                Reply::Overrun
            }
        }
    }

    /// The queue is visited. The word that is taken, with the number of its stream.
    pub fn take(&mut self) -> Option<(usize, Word)>
        ensures visit { (room : ℕ) (ms : List Move) → IsLog room self.old ms → IsLog room self.new (ms ++ Visit ∷ []) }
        ensures item { MatchOption result (self.old.words ≡ []) (λ x. (1 ≤ length self.old.words) × (x ≡ (slice_index_or self.old.words 0 (0, (0, 0))).1)) }
    {
        let (tick, (stream, word)) = self.words.pop_front()?;
        self.last = Some((tick, stream));
        Some((stream, word))
    }

    /// The last word that was taken: the tick in which it came, and the number of its stream.
    pub fn last_taken(&self) -> Option<(u64, usize)>
        ensures { result ≡ self.now.last }
    {
        self.last
    }
}

/// A log for each bus that brought nothing.
pub fn no_logs(alloc: Global, tables: &Tables) -> Result<Vec<BusLog>, AllocError>
    ensures { IfOk result (λ v. AllMade (λ b. new_log (bus_row tables.now b).queue) no_log (length tables.now.buses) v.items) }
{
    let mut logs = Vec::new(alloc);
    for bus in 0..tables.bus_count() {
        logs.push(BusLog::new(alloc, tables.queue(bus))?)?;
    }
    Ok(logs)
}
