//! The ticks of the last steps of an actor.

ghost use Rattle.std.specs.Prelude.{◌≡◌, ◌≤◌, ◌++◌, ◌∷◌, [], IfOk};
ghost use Rattle.circular_buffer.specs.Buffer.{keep_last};
ghost use Rattle.dc_oracle.specs.History.{held, lacking};

use circular_buffer::HeapCircularBuffer;
use std::alloc::{AllocError, Global};
use std::marker::Model;

/// The ticks of the last steps of one actor, in order: at most `room` of them.
#[derive(Drop)]
pub struct Recent {
    ticks: HeapCircularBuffer<u64>,
}

impl Model for Recent {
    ghost use Rattle.dc_oracle.specs.RecentData.{RecentData};

    ghost Value = { RecentData };

    ghost view = { λ r. record { ticks = r.ticks.items; room = r.ticks.capacity } };
}

impl Recent {
    /// No steps, and room for so many.
    ///
    /// # Errors
    /// Out of memory.
    pub fn new(alloc: Global, room: u32) -> Result<Recent, AllocError>
        ensures { IfOk result (λ r. r ≡ record { ticks = []; room = room }) }
    {
        Ok(Recent {
            ticks: HeapCircularBuffer::with_capacity(alloc, room as usize)?,
        })
    }

    /// Adds one in this tick; the oldest goes, where there is no room.
    pub fn add(&mut self, tick: u64)
        ensures { self.new ≡ record { ticks = keep_last self.old.room (self.old.ticks ++ tick ∷ []); room = self.old.room } }
    {
        let _ = self.ticks.push_back(tick);
    }

    /// Whether the last `window` ticks up to this one hold at least `count`, 1 or more.
    pub fn holds(&self, count: u32, window: u32, tick: u64) -> bool
        requires { 1 ≤ count }
        ensures { result ≡ held count window tick self.now.ticks }
    {
        let len = self.ticks.len();
        if len < count as usize {
            return false;
        }
        match self.ticks.get(len - count as usize) {
            Some(at) => tick.saturating_sub(*at) < window as u64,
            None => false,
        }
    }

    /// Whether `within` ticks are over at the end of this one, and the last of them hold fewer than `steps`.
    pub fn lacks(&self, steps: u32, within: u32, tick: u64) -> bool
        requires { 1 ≤ steps }
        ensures { result ≡ lacking steps within tick self.now.ticks }
    {
        tick.saturating_add(1) >= within as u64 && !self.holds(steps, within, tick)
    }
}
