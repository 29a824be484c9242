//! What the types of one walk know: what it is asked, so that this stays the same along the walk.

ghost use Rattle.std.specs.Prelude.{ℕ};

use std::marker::Brand;

/// What a walk that looks for failing windows is asked. It exists in proofs alone: who walks picks it, and the watcher
/// says it by its type.
pub(crate) trait Asked {
    // the service floor
    ghost floor: { ℕ → ℕ };

    // the number of ticks at which the walk begins
    ghost first: { ℕ };

    // the backlog that is to be enough
    ghost backlog: { ℕ };

    // the delay that is to be enough
    ghost delay: { ℕ };
}

impl Asked for Brand {
    ghost floor = { λ d. 0 };

    ghost first = { 0 };

    ghost backlog = { 0 };

    ghost delay = { 0 };
}

/// The same of a walk that looks for a least number.
pub(crate) trait Served {
    // the service floor
    ghost floor: { ℕ → ℕ };

    // the number of ticks up to which the walk goes
    ghost window: { ℕ };
}

impl Served for Brand {
    ghost floor = { λ d. 0 };

    ghost window = { 0 };
}
