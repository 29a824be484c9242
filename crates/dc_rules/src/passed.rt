//! What is known of a document that keeps all rules.
ghost use Rattle.std.specs.Prelude.{IfOk};
ghost use Rattle.dc_rules.specs.Rules.{Tells, verdict_of};
ghost use Rattle.dc_rules.specs.Obeys.{Obeys};
ghost use Rattle.dc_rules.specs.Passed.{ArePassed};

use crate::index::Parameters;
use crate::judge::{check_first, check_later};
use crate::keys::PlacedEntry;
use dc_document::{BuildError, Parts};
use dc_tables::Names;
use std::alloc::Global;

/// What a document that keeps all rules is looked up by.
#[derive(Drop)]
pub struct Passed {
    /// The entries of all outputs, in the order of the text.
    pub entries: Vec<PlacedEntry>,
    /// Its parameters.
    pub parameters: Parameters,
    /// Its names.
    pub names: Names,
}

impl Passed {
    /// What these parts are looked up by, where they break no rule.
    ///
    /// # Errors
    /// `Refused` with the first broken rule; `Memory` where memory is out.
    pub fn of(alloc: Global, parts: &Parts) -> Result<Passed, BuildError>
        ensures verdict { Tells (verdict_of parts.now) result }
        ensures obeys { IfOk result (λ p. Obeys parts.now) }
        ensures passed { IfOk result (λ p. ArePassed parts.now p) }
    {
        let (entries, parameters) = check_first(alloc, parts)?;
        check_later(alloc, parts, parameters, entries)
    }
}
