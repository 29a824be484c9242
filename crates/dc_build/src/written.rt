//! Tables beside the document that they were built from.
ghost use Rattle.std.specs.Prelude.{◌≡◌, IfOk};
ghost use Rattle.dc_build.specs.RowsOf.{AreRows};
ghost use Rattle.dc_rules.specs.Rules.{Tells, verdict_of};

use crate::tables::{Build, tables_of};
use dc_document::{BuildError, Parts};
use dc_tables::Tables;
use std::alloc::Global;
use std::marker::Model;

/// Valid tables beside the parts of their document, which hold the keys that no row does: speeds, equipment codes,
/// jitters and parameters in microseconds, and the offsets of each label. The parts break no rule, and the rows of the
/// tables are theirs.
pub struct WrittenTables {
    parts: Parts,
    tables: Tables,
}

// Dropped by one call, which is proved here and not in each crate that owns one.
impl Drop for WrittenTables {
    fn drop(self) {
        let WrittenTables {
            parts: _,
            tables: _,
        } = self;
    }
}

impl Model for WrittenTables {
    ghost use Rattle.dc_build.specs.Written.{WrittenRows, AreWritten};

    ghost Value = { WrittenRows };

    ghost view = { λ w. record { parts = w.parts; tables = w.tables } };

    ghost invariant = { λ w. AreWritten (record { parts = w.parts; tables = w.tables }) };
}

impl Build for WrittenTables {
    /// The tables of these parts, beside them, where they break no rule.
    ///
    /// # Errors
    /// `Refused` with the first broken rule, T06 and T08 to T24; `Memory` where memory is out.
    fn build(alloc: Global, parts: Parts) -> Result<WrittenTables, BuildError>
        ensures verdict { Tells (verdict_of parts) result }
        ensures parts { IfOk result (λ w. w.parts ≡ parts) }
        ensures rows { IfOk result (λ w. AreRows w.parts w.tables) }
    {
        let tables = tables_of(alloc, &parts)?;
        Ok(WrittenTables { parts, tables })
    }
}

impl WrittenTables {
    ghost use Rattle.dc_build.specs.Written.{AreWritten};

    /// The parts break no rule, and the rows are theirs. The call does nothing.
    pub fn written(&self)
        ensures { AreWritten self.now }
    {
        let _ = &self.tables;
    }

    /// The parts of the document.
    pub fn parts(&self) -> &Parts
        ensures { result.now ≡ self.now.parts }
    {
        &self.parts
    }

    /// The tables.
    pub fn tables(&self) -> &Tables
        ensures { result.now ≡ self.now.tables }
    {
        &self.tables
    }

    /// The tables, without the parts.
    pub fn into_tables(self) -> Tables
        ensures { result ≡ self.tables }
    {
        let WrittenTables { parts: _, tables } = self;
        tables
    }
}
