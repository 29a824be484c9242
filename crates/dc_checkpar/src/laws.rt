//! The claim counter: numbers that threads draw, each once and none left out.

ghost use Rattle.std.specs.Prelude.{◌≡◌, ℕ, ◌+◌, ◌^◌, ◌<◌, ◌++◌, [], ◌∷◌, true, IfOk};
ghost use Rattle.atomic_table.specs.Seated.{TableId};
ghost use Rattle.dc_checkpar.specs.declared.view.View.{View};
ghost use Rattle.dc_checkpar.specs.Drawing.{Draws, Given, follower, leader, led, past, with_drawn};

use crate::view::View;
use atomic_table::{Play, Seat, Split, Table, TableRule};
use std::alloc::{AllocError, Global};
use std::marker::Model;

struct Law;

impl TableRule<(), View, u64> for Law {
    ghost holds = { λ jobs. Given jobs };

    ghost first = { λ jobs. leader jobs };
}

struct Draw;

impl Play<(), View> for Draw {
    ghost then = { Draws };
}

struct Apart;

impl Split<View> for Apart {
    ghost left = { λ v. led v };

    ghost right = { λ v. follower v.jobs };
}

/// The next number to be drawn. Contracts see which counter it is, and the number of jobs.
#[derive(Drop)]
pub struct Counter {
    jobs: u64,
    table: Table<(), View, u64, Law, Global>,
}

impl Model for Counter {
    ghost Value = { TableId × ℕ };

    ghost view = { λ c. (c.table.shared.table_id, c.jobs) };

    ghost invariant = { λ c. (c.table.shared.key ≡ c.jobs) × (c.table.shared.table_id.words ≡ 2) × (c.jobs < 2 ^ 63) };
}

/// What a thread draws with. Contracts see the counter that it is of, and what it has drawn.
#[derive(Drop)]
pub struct Drawer {
    seat: Seat<(), View>,
}

impl Model for Drawer {
    ghost Value = { TableId × View };

    ghost view = { λ d. (d.seat.table_id, d.seat.me.0) };
}

impl Counter {
    /// A counter for less than 2^63 jobs, with its first drawer, which has drawn nothing.
    ///
    /// # Errors
    /// Out of memory.
    pub fn new(alloc: Global, jobs: u64) -> Result<(Counter, Drawer), AllocError>
        requires { jobs < 2 ^ 63 }
        ensures { IfOk result (λ r. (r.0.1 ≡ jobs) × (r.1.0 ≡ r.0.0) × (r.1.1 ≡ leader jobs)) }
    {
        let (table, seat) = Table::of_words(alloc, &[0, 0], &jobs)?;
        Ok((Counter { jobs, table }, Drawer { seat }))
    }

    /// The next number, from 0, in one step. None that the drawer drew before is past the last job.
    pub fn draw(&self, drawer: &mut Drawer) -> u64
        requires drawer { (drawer.old.0 ≡ self.now.0) × (drawer.old.1.jobs ≡ self.now.1) }
        requires none_past { past self.now.1 drawer.old.1.drawn ≡ 0 }
        ensures same { drawer.new.0 ≡ drawer.old.0 }
        ensures drawn { drawer.new.1 ≡ with_drawn drawer.old.1 result }
    {
        self.table.shared.fetch_add::<Draw>(&mut drawer.seat, 1, 1)
    }

    /// Another drawer, which has drawn nothing, in one step of the first drawer, which splits at most 63 times.
    pub fn split(&self, drawer: &mut Drawer) -> Drawer
        requires drawer { (drawer.old.0 ≡ self.now.0) × (drawer.old.1.jobs ≡ self.now.1) }
        requires leads { (drawer.old.1.leads ≡ true) × (drawer.old.1.splits < 63) }
        ensures left { (drawer.new.0 ≡ drawer.old.0) × (drawer.new.1 ≡ led drawer.old.1) }
        ensures right { (result.0 ≡ drawer.old.0) × (result.1 ≡ follower drawer.old.1.jobs) }
    {
        Drawer {
            seat: self.table.shared.split_seat::<Apart>(&mut drawer.seat),
        }
    }
}
