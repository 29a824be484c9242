//! From the parts of a document to its tables.
ghost use Rattle.std.specs.Prelude.{◌≡◌, Ok, IfOk};
ghost use Rattle.dc_build.specs.RowsOf.{AreRows};
ghost use Rattle.dc_rules.specs.Rules.{Tells, verdict_of};
ghost use Rattle.dc_rules.specs.Obeys.{Obeys};
ghost use Rattle.dc_rules.specs.Passed.{ArePassed};

use crate::made::make_rows;
use dc_document::{BuildError, Parts};
use dc_rules::Passed;
use dc_tables::Tables;
use std::alloc::{AllocError, Global};

/// What is built of the parts of a document, exactly where they break no rule.
pub trait Build: Sized {
    /// What these parts say.
    ///
    /// # Errors
    /// `Refused` with the first broken rule, T06 and T08 to T24; `Memory` where memory is out.
    fn build(alloc: Global, parts: Parts) -> Result<Self, BuildError>
        ensures verdict { Tells (verdict_of parts) result };
}

impl Build for Tables {
    /// The tables of these parts, where they break no rule.
    ///
    /// # Errors
    /// `Refused` with the first broken rule, T06 and T08 to T24; `Memory` where memory is out.
    fn build(alloc: Global, parts: Parts) -> Result<Tables, BuildError>
        ensures verdict { Tells (verdict_of parts) result }
        ensures rows { IfOk result (λ t. AreRows parts t) }
    {
        tables_of(alloc, &parts)
    }
}

/// The tables of these parts, which stay with the caller.
pub(crate) fn tables_of(alloc: Global, parts: &Parts) -> Result<Tables, BuildError>
    ensures verdict { Tells (verdict_of parts.now) result }
    ensures obeys { IfOk result (λ t. Obeys parts.now) }
    ensures rows { IfOk result (λ t. AreRows parts.now t) }
{
    let passed = Passed::of(alloc, parts)?;
    assembled(alloc, parts, passed)
}

/// The tables of parts that break no rule.
fn assemble(alloc: Global, parts: &Parts, passed: Passed) -> Result<Tables, AllocError>
    requires obeys { Obeys parts.now }
    requires passed { ArePassed parts.now passed }
    ensures { IfOk result (λ t. AreRows parts.now t) }
{
    parts.in_order();
    let rows = make_rows(alloc, parts, &passed)?;
    let tick_us = parts.tick_us();
    let Passed { names, .. } = passed;
    Tables::of(alloc, tick_us, rows, names)
}

/// The same, where want of memory is an error of `build`.
fn assembled(alloc: Global, parts: &Parts, passed: Passed) -> Result<Tables, BuildError>
    requires verdict { verdict_of parts.now ≡ Ok tt }
    requires obeys { Obeys parts.now }
    requires passed { ArePassed parts.now passed }
    ensures verdict { Tells (verdict_of parts.now) result }
    ensures rows { IfOk result (λ t. AreRows parts.now t) }
{
    match assemble(alloc, parts, passed) {
        Ok(tables) => Ok(tables),
        Err(error) => Err(BuildError::Memory(error)),
    }
}
