//! The pace of a drive: who has done its steps of the tick, and which tick it is.

ghost use Rattle.std.specs.Prelude.{◌≡◌, ◌≤◌, IfSome};

use std::sync::{Condvar, Mutex, Wait};

/// The tick that runs, how many actors have done their steps of it, and whether the drive stops.
#[derive(Drop)]
struct Pace {
    tick: u64,
    done: u64,
    stop: bool,
}

/// What the threads of a drive wait with: the actors for the next tick, the clock for all actors.
#[derive(Drop)]
pub(crate) struct Meter {
    actors: u64,
    pace: Mutex<Pace>,
    next: Condvar,
    all_done: Condvar,
}

impl Meter {
    /// Of so many actors beside the clock. The first tick runs, and nobody has done its steps.
    pub fn new(actors: u64) -> Meter
        ensures { result.actors ≡ actors }
    {
        let pace = Pace {
            tick: 0,
            done: 0,
            stop: false,
        };
        Meter {
            actors,
            pace: Mutex::new(pace),
            next: Condvar::new(),
            all_done: Condvar::new(),
        }
    }

    /// How many actors there are beside the clock.
    pub fn actors(&self) -> u64
        ensures { result ≡ self.now.actors }
    {
        self.actors
    }

    /// Whether the drive stops.
    pub fn stops<R: Wait>(&self, rt: &R) -> bool {
        self.pace.lock(rt).stop
    }

    /// The drive stops, and who waits wakes.
    pub fn stop<R: Wait>(&self, rt: &R) {
        let mut pace = self.pace.lock(rt);
        pace.stop = true;
        self.next.notify_all();
        self.all_done.notify_all();
    }

    /// An actor has done its steps of the tick, and waits for the next one. False where the drive stops.
    pub fn end_tick<R: Wait>(&self, rt: &R, tick: u64) -> bool {
        let mut pace = self.pace.lock(rt);
        pace.done = pace.done.wrapping_add(1);
        if pace.done == self.actors {
            self.all_done.notify_all();
        }
        let pace = self
            .next
            .wait_while(rt, pace, |p| p.tick <= tick && !p.stop);
        !pace.stop
    }

    /// The clock waits until all actors have done their steps, and says how many have. None where the drive stops.
    pub fn wait_for_all<R: Wait>(&self, rt: &R) -> Option<u64>
        ensures { IfSome result (λ done. self.now.actors ≤ done) }
    {
        let actors = self.actors;
        let pace = self.pace.lock(rt);
        let pace = self
            .all_done
            .wait_while(rt, pace, |p| p.done < actors && !p.stop);
        if pace.stop {
            return None;
        }
        Some(pace.done)
    }

    /// The next tick begins, once so many have done their steps: all.
    pub fn next_tick<R: Wait>(&self, rt: &R, done: u64)
        requires { self.now.actors ≤ done }
    {
        let mut pace = self.pace.lock(rt);
        pace.tick = pace.tick.wrapping_add(1);
        pace.done = pace.done.saturating_sub(done);
        self.next.notify_all();
    }
}
