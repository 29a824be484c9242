//! The sources that an engine is given.
ghost use Rattle.std.specs.Prelude.{◌≡◌, ℕ, List, [], ◌∷◌};
ghost use Rattle.std.specs.Borrow.{GName};
ghost use Rattle.dc_device.specs.States.{SourceState};
ghost use Rattle.dc_answer.specs.Given.{kept_from, kept_from_same};

use dc_device::Source;

/// The sources that an engine is given, in the order in which they are read.
pub trait Given {
    // What is known of each.
    ghost states: { Self → List SourceState };

    // The references that lead to them.
    ghost lent: { Self → List GName };

    // That they are what they were, from the one of this number on.
    ghost kept: { ℕ → Self → Self → Type 0 };

    // They are what they are.
    ghost kept_same: { (k : ℕ) (g : Self) → kept k g g };
}

/// No more sources.
#[derive(Clone, Copy, Debug, PartialEq, Eq)]
pub struct End;

impl Given for End {
    ghost states = { λ g. [] };

    ghost lent = { λ g. [] };

    ghost kept = { λ k g g'. Unit {0} };

    ghost kept_same = { λ k g. tt };
}

/// A source, and more of them.
#[derive(Drop)]
pub struct With<'a, S, R> {
    /// The source that is read first.
    pub first: &'a mut S,
    /// Those that are read after it.
    pub rest: R,
}

impl<'a, S: Source, R: Given> Given for With<'a, S, R> {
    ghost states = { λ g. S.state g.first.now ∷ R.states g.rest };

    ghost lent = { λ g. g.first.ghost_name ∷ R.lent g.rest };

    ghost kept = { λ k g g'. kept_from R.kept k g.first.now g'.first.now g.rest g'.rest };

    ghost kept_same = { λ k g. kept_from_same R.kept R.kept_same g.first.now g.rest k };
}
