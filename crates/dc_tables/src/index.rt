//! Names in order, looked up by their text.
ghost use Rattle.std.specs.Prelude.{◌≡◌, ◌<◌, [], length, slice_index_or};
ghost use Rattle.dc_document.specs.Names.{number_of};

use dc_document::Name;
use indexmap::IndexSet;
use std::marker::Model;

/// Names in order, looked up by their text. A clause sees them as their list.
#[derive(Drop)]
pub struct NameIndex {
    names: IndexSet<Name>,
}

impl Model for NameIndex {
    ghost use Rattle.std.specs.Prelude.{ℕ, List};

    ghost Value = { List (List ℕ) };

    ghost view = { λ n. n.names.keys };
}

impl NameIndex {
    /// These names, in the order in which they were put into the set.
    pub fn new(names: IndexSet<Name>) -> NameIndex
        ensures { result ≡ names.keys }
    {
        NameIndex { names }
    }

    /// The name of this number, from 0.
    pub fn name(&self, number: usize) -> &Name
        requires { number < length self.now }
        ensures { result.now ≡ slice_index_or self.now number [] }
    {
        &self.names.as_slice()[number]
    }

    /// The number of this name, from 0, where it is there.
    pub fn number_of(&self, name: &Name) -> Option<usize>
        ensures { result ≡ number_of self.now name.now }
    {
        self.names.get_index_of(name)
    }
}

/// The names of all tables, each kind to be looked up.
pub struct Names {
    /// Those of the buses.
    pub buses: NameIndex,
    /// Those of the streams of all buses.
    pub streams: NameIndex,
    /// Those of the routers.
    pub routers: NameIndex,
    /// Those of the outputs.
    pub outputs: NameIndex,
    /// Those of the labels of all outputs.
    pub labels: NameIndex,
}

// Dropped by one call, which is proved here and not in each crate that owns one.
impl Drop for Names {
    fn drop(self) {
        let Names {
            buses: _,
            streams: _,
            routers: _,
            outputs: _,
            labels: _,
        } = self;
    }
}
