//! Gates for tests alone: that hold who enters until another has come, that get stuck, that count, and that record who was
//! let in.
#![tactic(auto)]

ghost use Rattle.std.specs.Prelude.{⊤};

use dc_checkpar::{Gate, Stuck};
use std::alloc::{AllocError, Global};
use std::sync::atomic::{AtomicBool, AtomicU64, Ordering};
use std::thread;

/// How often a gate looks whether a second worker has come.
const TURNS: u64 = 100_000_000;

/// Holds the first that enters until a second has entered.
#[derive(Drop)]
pub struct Meeting {
    entered: AtomicU64,
}

impl Meeting {
    pub fn new() -> Meeting {
        Meeting {
            entered: AtomicU64::new(0),
        }
    }
}

impl Gate for Meeting {
    ghost may_stick = { λ _ _. ⊤ };

    fn enter(&self, _job: u64) -> Result<(), Stuck> {
        if self.entered.fetch_add(1, Ordering::SeqCst) != 0 {
            return Ok(());
        }
        for _ in 0..TURNS {
            if self.entered.load(Ordering::SeqCst) > 1 {
                return Ok(());
            }
        }
        Err(Stuck)
    }

    fn leave(&self, _job: u64) {}
}

/// Counts who enters and who leaves, and is stuck once so many have entered.
#[derive(Drop)]
pub struct Counting {
    most: u64,
    entered: AtomicU64,
    left: AtomicU64,
}

impl Counting {
    pub fn new(most: u64) -> Counting {
        Counting {
            most,
            entered: AtomicU64::new(0),
            left: AtomicU64::new(0),
        }
    }

    /// How many have entered and have left.
    pub fn counts(&self) -> (u64, u64) {
        (
            self.entered.load(Ordering::SeqCst),
            self.left.load(Ordering::SeqCst),
        )
    }
}

impl Gate for Counting {
    ghost may_stick = { λ _ _. ⊤ };

    fn enter(&self, _job: u64) -> Result<(), Stuck> {
        if self.entered.fetch_add(1, Ordering::SeqCst) >= self.most {
            return Err(Stuck);
        }
        Ok(())
    }

    fn leave(&self, _job: u64) {
        self.left.fetch_add(1, Ordering::SeqCst);
    }
}

/// Lets nobody in who has this number.
#[derive(Drop)]
pub struct Against {
    number: u64,
}

impl Against {
    pub fn new(number: u64) -> Against {
        Against { number }
    }
}

impl Gate for Against {
    ghost may_stick = { λ _ _. ⊤ };

    fn enter(&self, job: u64) -> Result<(), Stuck> {
        if job == self.number {
            return Err(Stuck);
        }
        Ok(())
    }

    fn leave(&self, _job: u64) {}
}

/// Records how often each number has entered and left, and whether one did so out of its turn.
#[derive(Drop)]
pub struct Recording {
    turns: Vec<AtomicU64>,
    astray: AtomicBool,
}

impl Recording {
    /// For the numbers below `count`. Nobody has entered.
    pub fn new(alloc: Global, count: usize) -> Result<Recording, AllocError> {
        let mut turns = Vec::new(alloc);
        for _ in 0..count {
            turns.push(AtomicU64::new(0))?;
        }
        Ok(Recording {
            turns,
            astray: AtomicBool::new(false),
        })
    }

    /// How often this number has entered and then left. None where it is still inside, or where any number entered while
    /// it was inside, left while it was not, or is none of those below the count.
    pub fn rounds(&self, number: usize) -> Option<u64> {
        if number >= self.turns.len() || self.astray.load(Ordering::SeqCst) {
            return None;
        }
        let turns = self.turns[number].load(Ordering::SeqCst);
        if turns % 2 == 0 {
            Some(turns / 2)
        } else {
            None
        }
    }

    /// The number has its next turn, which is to be this one: 0 for entering, 1 for leaving.
    fn turn(&self, job: u64, wanted: u64) {
        if job >= self.turns.len() as u64 {
            self.astray.store(true, Ordering::SeqCst);
            return;
        }
        let turn = self.turns[job as usize].fetch_add(1, Ordering::SeqCst);
        if turn % 2 != wanted {
            self.astray.store(true, Ordering::SeqCst);
        }
    }
}

impl Gate for Recording {
    ghost may_stick = { λ _ _. ⊥ };

    fn enter(&self, job: u64) -> Result<(), Stuck> {
        self.turn(job, 0);
        Ok(())
    }

    fn leave(&self, job: u64) {
        self.turn(job, 1);
    }
}

/// How often who is held lets others run before it goes on.
const YIELDS: u64 = 300_000;

/// Holds one number, when it enters first, until another number has entered, or for long: whether that one came.
#[derive(Drop)]
pub struct Holding {
    held: u64,
    other: u64,
    holds: AtomicU64,
    came: AtomicBool,
}

impl Holding {
    /// Holds the number `held` until the number `other` has entered.
    pub fn new(held: u64, other: u64) -> Holding {
        Holding {
            held,
            other,
            holds: AtomicU64::new(0),
            came: AtomicBool::new(false),
        }
    }

    /// Whether the other entered while the first was held; None where nobody was held.
    pub fn met(&self) -> Option<bool> {
        match self.holds.load(Ordering::SeqCst) {
            0 => None,
            _ => Some(self.came.load(Ordering::SeqCst)),
        }
    }

    /// Waits until the other has come, or for long.
    fn hold(&self) {
        for _ in 0..YIELDS {
            if self.came.load(Ordering::SeqCst) {
                break;
            }
            thread::yield_now();
        }
    }
}

impl Gate for Holding {
    ghost may_stick = { λ _ _. ⊥ };

    fn enter(&self, job: u64) -> Result<(), Stuck> {
        if job == self.held && self.holds.fetch_add(1, Ordering::SeqCst) == 0 {
            self.hold();
            self.holds.fetch_add(1, Ordering::SeqCst);
        }
        if job == self.other && self.holds.load(Ordering::SeqCst) == 1 {
            self.came.store(true, Ordering::SeqCst);
        }
        Ok(())
    }

    fn leave(&self, _job: u64) {}
}
