//! The step counts of an actor's last ticks.
ghost use Rattle.std.specs.Prelude.{◌≡◌, ℕ, ◌+◌, ◌-◌, ◌<◌, ◌≤◌, IfOk};
ghost use Rattle.dc_queue.specs.WindowData.{WindowData, empty_window, steps_of, added, turned, is_full_tick, lacks};
ghost use Rattle.dc_queue.specs.declared.window.TheConstants.{GREATEST_ROOM, GREATEST_WIDTH};

use circular_buffer::HeapCircularBuffer;
use std::alloc::{AllocError, Global};
use std::marker::Model;

/// The greatest width of a window, in ticks: this project's own number.
pub const GREATEST_WIDTH: u32 = 1000;

/// The most steps for which a tick has room: this project's own number.
pub const GREATEST_ROOM: u32 = 1000;

/// How many steps an actor made in each of the last `width` ticks, the unfinished one included.
///
/// A width is 1 to [`GREATEST_WIDTH`] ticks, and a tick has room for at most [`GREATEST_ROOM`] steps.
#[derive(Drop)]
pub struct StepWindow {
    // the steps of each finished tick, the oldest first
    past: HeapCircularBuffer<u32>,
    // the steps of the unfinished tick
    count: u32,
    // the steps of all these ticks
    total: u32,
    // how many steps a tick has room for
    room: u32,
}

impl Model for StepWindow {
    ghost use Rattle.std.specs.Prelude.{ℕ, ◌+◌, ◌≡◌, ◌≤◌, ◌<◌, length, sum};
    ghost use Rattle.std.specs.List.{All};
    ghost use Rattle.dc_queue.specs.WindowData.{WindowData};
    ghost use Rattle.dc_queue.specs.declared.window.TheConstants.{GREATEST_ROOM, GREATEST_WIDTH};

    ghost Value = { WindowData };

    ghost view = { λ w. record { width = w.past.capacity + 1; room = w.room; past = w.past.items; count = w.count } };

    ghost invariant = { λ w. (w.total ≡ sum w.past.items + w.count) × All (λ n. n ≤ w.room) w.past.items × (w.count ≤ w.room)
        × (length w.past.items ≤ w.past.capacity) × (w.past.capacity < GREATEST_WIDTH) × (w.room ≤ GREATEST_ROOM) };
}

impl StepWindow {
    /// A window of `width` ticks before the first step, whose ticks have room for `room` steps each.
    ///
    /// # Errors
    /// Out of memory.
    pub fn new(alloc: Global, width: u32, room: u32) -> Result<StepWindow, AllocError>
        requires some_width { 1 ≤ width }
        requires small_width { width ≤ GREATEST_WIDTH }
        requires small_room { room ≤ GREATEST_ROOM }
        ensures { IfOk result (λ w. w ≡ empty_window width room) }
    {
        Ok(StepWindow {
            past: HeapCircularBuffer::with_capacity(alloc, width as usize - 1)?,
            count: 0,
            total: 0,
            room,
        })
    }

    /// Whether the unfinished tick has room for no step more.
    pub fn is_spent(&self) -> bool
        ensures { result ≡ is_full_tick self.now }
    {
        self.count >= self.room
    }

    /// Counts a step of the unfinished tick.
    pub fn add(&mut self)
        requires { self.old.count < self.old.room }
        ensures { self.new ≡ added self.old }
    {
        self.count += 1;
        self.total += 1;
    }

    /// How many steps the last `width` ticks hold, the unfinished one included.
    pub fn total(&self) -> u32
        ensures { result ≡ steps_of self.now }
    {
        let steps = self.total;
        steps
    }

    /// Whether as many ticks have begun as the window is wide, and they hold fewer than `steps` steps.
    pub fn lacks(&self, steps: u32) -> bool
        ensures { result ≡ lacks self.now steps }
    {
        self.past.is_full() && self.total < steps
    }

    /// Ends the unfinished tick. The oldest tick leaves a full window.
    pub fn turn(&mut self)
        ensures { self.new ≡ turned self.old }
    {
        let gone = self.past.push_back(self.count).unwrap_or(0);
        self.total -= gone;
        self.count = 0;
    }
}
