//! What the types of one hub know.

ghost use Rattle.std.specs.Prelude.{◌≡◌, ℕ, Option, None};
ghost use Rattle.dc_check.specs.declared.certified.Certified.{Certified};

use std::marker::{Brand, PhantomData};
use std::sync::ledger::Ledger;

/// What is fixed when a hub opens, beside the ledger of its count. It exists in proofs alone: who opens a hub picks it,
/// and book, hub and seats say it by their types.
pub trait Charter: Ledger {
    /// The certified tables; they are there.
    ghost certified: { Option Certified };

    /// The trace limit.
    ghost limit: { ℕ };

    /// How many parts the count has.
    ghost whole: { ℕ };
}

impl Charter for Brand {
    ghost certified = { None };

    ghost limit = { 0 };

    ghost whole = { 0 };
}

/// That the charter knows all parts of its ledger.
#[derive(Drop)]
pub(crate) struct Whole<L: Charter> {
    of: PhantomData<L>,
    ghost all: { L.whole ≡ L.parts },
}

impl<L: Charter> Whole<L> {
    /// That the charter knows all parts of its ledger.
    pub(crate) fn new() -> Whole<L>
        requires { L.whole ≡ L.parts }
    {
        Whole { of: PhantomData }
    }

    /// The charter knows all parts of its ledger. The call does nothing.
    pub(crate) fn known(&self)
        ensures { L.whole ≡ L.parts }
    {
        let _ = &self.of;
    }
}
