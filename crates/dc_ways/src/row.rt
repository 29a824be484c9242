//! The ways of one concentrator's labels.
ghost use Rattle.std.specs.Prelude.{◌≡◌, [], ◌∷◌, ◌++◌, OnOk, slice_index};

use std::alloc::{AllocError, Global};
use std::marker::Model;

/// The ways of a concentrator's labels in microseconds, in the order of the labels.
#[derive(Debug, Drop)]
pub struct Ways {
    items: Vec<u64>,
}

impl Model for Ways {
    ghost use Rattle.std.specs.Prelude.{ℕ, List};

    ghost Value = { List ℕ };

    ghost view = { λ w. w.items.items };
}

impl Ways {
    /// No ways yet.
    pub(crate) fn new(alloc: Global) -> Ways
        ensures { result ≡ [] }
    {
        Ways {
            items: Vec::new(alloc),
        }
    }

    /// The way of one label more.
    ///
    /// # Errors
    /// Where memory is out.
    pub(crate) fn push(&mut self, way: u64) -> Result<(), AllocError>
        ensures { OnOk result (self.new ≡ self.old ++ way ∷ []) }
    {
        self.items.push(way)?;
        Ok(())
    }

    /// The way of this label; 0 where it is not there.
    pub fn of(&self, label: usize) -> u64
        ensures { result ≡ slice_index self.now label }
    {
        match self.items.get(label) {
            Some(way) => *way,
            None => 0,
        }
    }
}
